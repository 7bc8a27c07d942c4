//! Which refusals were there before: packages that are refused now, beside those of an older file. Of licences it knows
//! their texts alone.

ghost use Rattle.std.specs.Prelude.{◌≡◌, true, IfOk, All, map};
ghost use Rattle.std.specs.List.{list_any};
ghost use Rattle.gate_program.specs.Known.{is_known, IsEnough, Grows};
ghost use Rattle.gate_program.specs.Sets.{Has, IsTold};

use std::alloc::{AllocError, Global};
use std::collections::BTreeSet;

/// A refused package, by what tells refusals apart: a newer version with the same license is no new refusal.
#[derive(Clone, Copy, Debug, PartialEq, Eq, PartialOrd, Ord)]
pub struct Refusal<'t> {
    /// The package's name.
    pub name: &'t str,
    /// The text that was judged; empty where it states no license.
    pub license: &'t str,
}

/// Of each refusal of now, in order, whether it is known: whether one of the same name and the same license was there
/// before. A run against its own refusals knows all of them, and more refusals before make none unknown.
///
/// Takes `n log n` comparisons of texts, for `n` refusals of both together.
///
/// # Errors
///
/// Memory was refused.
#[tactic(auto, using(crate::proofs::Laws::own, crate::proofs::Laws::grows))]
pub fn known_among<'t>(
    alloc: Global,
    before: &[Refusal<'t>],
    now: &[Refusal<'t>],
) -> Result<Vec<bool>, AllocError>
    ensures exact { IfOk result (λ known. known.items ≡ map (is_known before.now) now.now) }
    ensures own { IsEnough now.now now.now }
    ensures grows { Grows before.now }
{
    let set = set_of(alloc, before)?;
    let mut known = Vec::new(alloc);
    for refusal in now {
        known.push(is_in(&set, refusal))?;
    }
    Ok(known)
}

// The refusals, each once, to be looked up.
fn set_of<'t>(alloc: Global, refusals: &[Refusal<'t>]) -> Result<BTreeSet<Refusal<'t>>, AllocError>
    ensures { IfOk result (λ set. Has set refusals.now) }
{
    let mut set = BTreeSet::new(alloc);
    for refusal in refusals {
        set.insert(*refusal)?;
    }
    Ok(set)
}

fn is_in<'t>(set: &BTreeSet<Refusal<'t>>, refusal: &Refusal<'t>) -> bool
    ensures { IsTold set.now refusal.now result }
{
    set.contains(refusal)
}
