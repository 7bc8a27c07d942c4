// What changed between two lists.

ghost use Rattle.std.specs.Prelude.{◌≡◌, ℕ, IfOk, OnOk, ◌++◌, map};
ghost use Rattle.package_changes.specs.Rows.{row_of, change_row, went, came};
ghost use Rattle.package_changes.specs.Order.{change_cmp, in_order, kind_of, old_end, new_end};
ghost use Rattle.package_changes.specs.Pairing.{changes, paired, unpaired, told, stayed_of};
ghost use Rattle.package_changes.specs.Steps.{paired_of, pair_of};
ghost use Rattle.package_changes.specs.Laws.{AreChanges};

pub(crate) mod likeness;
pub(crate) mod pairing;

use crate::changes::likeness::Likeness;
use crate::changes::pairing::{Pair, Pairing};
use crate::package::{Change, Package};
use std::alloc::{AllocError, Global};
use std::cmp::Ordering;

/// What became of each package of two lists, in the order of names: each is told once.
///
/// Packages belong together that are the same; of the others those of one name and version; of the others those of one
/// name and license; of the others those of one name. Each time the first of the older list belongs to the first of the
/// newer one, in the order of names, versions and licenses by their bytes (of licenses and versions, where the licenses
/// are the same). So in whichever order the files have them, the changes are the same. What belongs to none went or came.
///
/// Takes `n log n` comparisons of texts, for `n` packages of both together.
///
/// # Errors
///
/// Memory was refused.
pub fn changes_between<'p>(
    alloc: Global,
    old: &[Package<'p>],
    new: &[Package<'p>],
) -> Result<Vec<Change<'p>>, AllocError>
    ensures exact { IfOk result (λ found. map change_row found.items
        ≡ changes (map row_of old.now) (map row_of new.now)) }
    ensures laws { AreChanges (map row_of old.now) (map row_of new.now) }
{
    let pairing = paired(alloc, old, new)?;
    let mut found = told(alloc, &pairing)?;
    found.sort_unstable_by(compare);
    Ok(found)
}

// Which packages belong together, and which are left.
fn paired<'p>(
    alloc: Global,
    old: &[Package<'p>],
    new: &[Package<'p>],
) -> Result<Pairing<'p>, AllocError>
    ensures { IfOk result (λ found. paired_of found
        ≡ paired (map row_of old.now) (map row_of new.now)) }
{
    let all = Pairing {
        pairs: Vec::new(alloc),
        old: Vec::from_slice(alloc, old)?,
        new: Vec::from_slice(alloc, new)?,
    };
    all.step(alloc, Likeness::Same)?
        .step(alloc, Likeness::Version)?
        .step(alloc, Likeness::License)?
        .step(alloc, Likeness::Name)
}

// A change for each pair, and for each package that is left.
fn told<'p>(alloc: Global, pairing: &Pairing<'p>) -> Result<Vec<Change<'p>>, AllocError>
    ensures { IfOk result (λ found. map change_row found.items
        ≡ told (paired_of pairing.now)) }
{
    let mut found = Vec::new(alloc);
    put_pairs(&mut found, pairing.pairs.as_slice())?;
    put_old(&mut found, pairing.old.as_slice())?;
    put_new(&mut found, pairing.new.as_slice())?;
    Ok(found)
}

fn put_pairs<'p>(found: &mut Vec<Change<'p>>, pairs: &[Pair<'p>]) -> Result<(), AllocError>
    ensures { OnOk result (map change_row found.new.items
        ≡ map change_row found.old.items ++ map (λ p. stayed_of (pair_of p)) pairs.now) }
{
    for pair in pairs {
        found.push(Change::Stayed {
            old: pair.old,
            new: pair.new,
        })?;
    }
    Ok(())
}

fn put_old<'p>(found: &mut Vec<Change<'p>>, old: &[Package<'p>]) -> Result<(), AllocError>
    ensures { OnOk result (map change_row found.new.items
        ≡ map change_row found.old.items ++ map (λ p. went (row_of p)) «old».now) }
{
    for package in old {
        found.push(Change::Went(*package))?;
    }
    Ok(())
}

fn put_new<'p>(found: &mut Vec<Change<'p>>, new: &[Package<'p>]) -> Result<(), AllocError>
    ensures { OnOk result (map change_row found.new.items
        ≡ map change_row found.old.items ++ map (λ p. came (row_of p)) «new».now) }
{
    for package in new {
        found.push(Change::Came(*package))?;
    }
    Ok(())
}

// By name, by kind, then as the older and as the newer list has them.
fn compare(one: &Change<'_>, other: &Change<'_>) -> Ordering
    ensures { result ≡ change_cmp (change_row one.now) (change_row other.now) }
{
    let (old_one, new_one) = ends(one);
    let (old_other, new_other) = ends(other);
    old_one.name.cmp(old_other.name).then(
        kind(one).cmp(&kind(other)).then(
            Likeness::Same
                .compare(&old_one, &old_other)
                .then(Likeness::Same.compare(&new_one, &new_other)),
        ),
    )
}

fn kind(change: &Change<'_>) -> usize
    ensures { result ≡ kind_of (change_row change.now) }
{
    match change {
        Change::Stayed { .. } => 0,
        Change::Went(_) => 1,
        Change::Came(_) => 2,
    }
}

// The package as the older list has it, else as the newer one does; and the other way round.
fn ends<'p>(change: &Change<'p>) -> (Package<'p>, Package<'p>)
    ensures one { row_of result.0 ≡ old_end (change_row change.now) }
    ensures other { row_of result.1 ≡ new_end (change_row change.now) }
{
    match change {
        Change::Stayed { old, new } => (*old, *new),
        Change::Went(package) | Change::Came(package) => (*package, *package),
    }
}
