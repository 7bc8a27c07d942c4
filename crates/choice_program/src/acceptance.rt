// What packages are used under, by a list or a policy.

ghost use Rattle.std.specs.Prelude.{IfErr, IfOk, map};
ghost use Rattle.gate_program.specs.Asked.{lent};
ghost use Rattle.choice_program.specs.Chosen as spec;
ghost use Rattle.choice_program.specs.Chosen.{IsChosen, IsNoChoice};

use crate::allowed::choose_allowed;
use crate::choosing::{ChoiceTrouble, Chosen, choose_among};
use gate_program::policy_at;
use package_sources::Package;
use shelves::Shelf;
use spdx_catalogue::Catalogue;
use spdx_lexer::token::ParseMode;
use std::alloc::Global;

/// What is accepted.
#[derive(Clone, Copy)]
pub enum Accepted<'a> {
    /// The licences of a list with commas between them; expressions are read in the mode.
    List { list: &'a str, mode: ParseMode },
    /// What the policy of the file at the path allows.
    Policy(&'a str),
}

/// What each package is used under, as [`choose_among`] has it of a list, or [`choose_allowed`] of the policy of the file at
/// the path; `replacements` are extras that say what stands in the place of the list's deprecated names.
///
/// # Errors
///
/// As those of a list or of a policy; or there is no policy at the path.
pub fn choose<S: Shelf>(
    alloc: Global,
    shelf: &S,
    replacements: &[u8],
    catalogue: &Catalogue,
    accepted: Accepted<'_>,
    one_for_all: bool,
    packages: &[&Package],
) -> Result<Chosen, ChoiceTrouble>
    ensures ok { IfOk result (IsChosen (S.told shelf.now) replacements.now catalogue.now
        accepted.entry one_for_all (map lent packages.now)) }
    ensures err { IfErr result (IsNoChoice (S.told shelf.now) replacements.now catalogue.now
        accepted.entry one_for_all (map lent packages.now)) }
{
    match accepted {
        Accepted::List { list, mode } => {
            choose_among(alloc, catalogue, list, mode, one_for_all, packages)
        }
        Accepted::Policy(path) => {
            choose_by(
                alloc,
                shelf,
                replacements,
                catalogue,
                path,
                one_for_all,
                packages,
            )
        }
    }
}

// By the policy of the file at the path.
#[tactic(auto, using(crate::proofs::Allowing::of_policy))]
fn choose_by<S: Shelf>(
    alloc: Global,
    shelf: &S,
    replacements: &[u8],
    catalogue: &Catalogue,
    path: &str,
    one_for_all: bool,
    packages: &[&Package],
) -> Result<Chosen, ChoiceTrouble>
    ensures ok { IfOk result (spec.IsChosenAt (S.told shelf.now) replacements.now catalogue.now
        path.now one_for_all (map lent packages.now)) }
    ensures err { IfErr result (spec.IsNoChoiceAt (S.told shelf.now) replacements.now catalogue.now
        path.now one_for_all (map lent packages.now)) }
{
    let policy = policy_at(alloc, shelf, replacements, catalogue, path)?;
    let chosen = choose_allowed(alloc, catalogue, &policy, one_for_all, packages)?;
    Ok(chosen)
}
