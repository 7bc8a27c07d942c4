// What is said of each change.

ghost use Rattle.std.specs.Prelude.{◌≡◌, ◌++◌, IfOk, OnOk, map, option_map, string_bytes};
ghost use Rattle.package_changes.specs.Rows.{change_row, row_of};
ghost use Rattle.changes_program.specs.Said as spec;
ghost use Rattle.changes_program.specs.Said.{AreSaid, IsOneMore, IsSaidChange, said_row};

use package_changes::{Change, How, LicenseChange, Package, Reason, Untold, license_change};
use spdx_catalogue::Catalogue;
use spdx_meaning::{Comparison, Relation};
use std::alloc::{AllocError, Global};

/// What is said of a change.
#[derive(Drop)]
pub(crate) struct Said<'p> {
    pub(crate) how: How,
    pub(crate) old: Option<Package<'p>>,
    pub(crate) new: Option<Package<'p>>,
    /// What was enough before and no longer is, as an expression; empty where nothing is named.
    pub(crate) enough_before: String,
    /// What is enough now and wasn't before, as an expression; empty where nothing is named.
    pub(crate) enough_now: String,
    pub(crate) untold_before: Reason,
    pub(crate) untold_now: Reason,
}

/// What is said of the changes; nothing of a package whose licence stayed.
pub(crate) fn said_of<'p>(
    alloc: Global,
    catalogue: &Catalogue,
    changes: &[Change<'p>],
) -> Result<Vec<Said<'p>>, AllocError>
    ensures { IfOk result (λ said.
        AreSaid catalogue.now (map change_row changes.now) (map said_row said.items)) }
{
    let mut said = Vec::new(alloc);
    for change in changes {
        add(alloc, catalogue, change, &mut said)?;
    }
    Ok(said)
}

// What is said of one more change.
fn add<'p>(
    alloc: Global,
    catalogue: &Catalogue,
    change: &Change<'p>,
    said: &mut Vec<Said<'p>>,
) -> Result<(), AllocError>
    ensures { OnOk result (IsOneMore catalogue.now (change_row change.now)
        (map said_row said.old.items) (map said_row said.new.items)) }
{
    if let Some(one) = said_change(alloc, catalogue, change)? {
        said.push(one)?;
    }
    Ok(())
}

fn said_change<'p>(
    alloc: Global,
    catalogue: &Catalogue,
    change: &Change<'p>,
) -> Result<Option<Said<'p>>, AllocError>
    ensures { IfOk result (λ said.
        IsSaidChange catalogue.now (change_row change.now) (spec.shown said)) }
{
    match *change {
        Change::Came(new) => Ok(Some(bare(alloc, How::Came, None, Some(new)))),
        Change::Went(old) => Ok(Some(bare(alloc, How::Went, Some(old), None))),
        Change::Stayed { old, new } => {
            let change = license_change(alloc, catalogue, old.license, new.license)?;
            said_license(alloc, old, new, change)
        }
    }
}

// What is said of a package whose licence changed so; nothing, where it stayed.
fn said_license<'p>(
    alloc: Global,
    old: Package<'p>,
    new: Package<'p>,
    change: LicenseChange,
) -> Result<Option<Said<'p>>, AllocError>
    ensures { IfOk result (λ said.
        spec.shown said ≡ spec.said_license (row_of old.entry) (row_of new.entry) change) }
{
    match change {
        LicenseChange::Kept => Ok(None),
        LicenseChange::Rewritten => Ok(Some(bare(alloc, How::Rewritten, Some(old), Some(new)))),
        LicenseChange::Compared(comparison) => {
            Ok(Some(said_comparison(alloc, old, new, comparison)?))
        }
        LicenseChange::Untold {
            old: before,
            new: now,
        } => Ok(Some(said_untold(alloc, old, new, before, now))),
    }
}

fn said_comparison<'p>(
    alloc: Global,
    old: Package<'p>,
    new: Package<'p>,
    comparison: Comparison,
) -> Result<Said<'p>, AllocError>
    ensures { IfOk result (λ said.
        said_row said ≡ spec.said_comparison (row_of old.entry) (row_of new.entry) comparison) }
{
    let how = how_of(comparison.relation);
    let enough_before = all_of(alloc, &comparison.first_alone)?;
    let enough_now = all_of(alloc, &comparison.second_alone)?;
    Ok(Said {
        how,
        old: Some(old),
        new: Some(new),
        enough_before,
        enough_now,
        untold_before: Reason::Told,
        untold_now: Reason::Told,
    })
}

fn said_untold<'p>(
    alloc: Global,
    old: Package<'p>,
    new: Package<'p>,
    before: Option<Untold>,
    now: Option<Untold>,
) -> Said<'p>
    ensures { said_row result
        ≡ spec.said_untold (row_of old.entry) (row_of new.entry) before now }
{
    Said {
        how: How::Untold,
        old: Some(old),
        new: Some(new),
        enough_before: String::new(alloc),
        enough_now: String::new(alloc),
        untold_before: reason_of(before),
        untold_now: reason_of(now),
    }
}

fn bare<'p>(alloc: Global, how: How, old: Option<Package<'p>>, new: Option<Package<'p>>) -> Said<'p>
    ensures { said_row result ≡ spec.bare how (spec.row_if old.entry) (spec.row_if new.entry) }
{
    Said {
        how,
        old,
        new,
        enough_before: String::new(alloc),
        enough_now: String::new(alloc),
        untold_before: Reason::Told,
        untold_now: Reason::Told,
    }
}

// What the newer license does beside the older one, of how the older one compares with it.
fn how_of(relation: Relation) -> How
    ensures { result ≡ spec.how_of relation }
{
    match relation {
        Relation::Same => How::SameMeaning,
        Relation::More => How::Less,
        Relation::Less => How::More,
        Relation::Neither => How::Other,
    }
}

fn reason_of(untold: Option<Untold>) -> Reason
    ensures { result ≡ spec.reason_of untold }
{
    match untold {
        None => Reason::Told,
        Some(Untold::Unstated) => Reason::Unstated,
        Some(Untold::Unread) => Reason::Unread,
        Some(Untold::TooManySets(_)) => Reason::TooManySets,
    }
}

// The names, as the expression that asks for all of them.
fn all_of(alloc: Global, names: &Option<Vec<String>>) -> Result<String, AllocError>
    ensures { IfOk result (λ text. string_bytes text
        ≡ spec.all_if (option_map (λ v. map string_bytes v.items) names.now)) }
{
    match names {
        Some(names) => joined(alloc, names),
        None => Ok(String::new(alloc)),
    }
}

fn joined(alloc: Global, names: &[String]) -> Result<String, AllocError>
    ensures { IfOk result (λ text. string_bytes text
        ≡ spec.all_of (map string_bytes names.now)) }
{
    match names {
        [] => Ok(String::new(alloc)),
        [first, others @ ..] => {
            let mut text = String::from_str(alloc, first.as_str())?;
            put_others(&mut text, others)?;
            Ok(text)
        }
    }
}

fn put_others(text: &mut String, names: &[String]) -> Result<(), AllocError>
    ensures { OnOk result (string_bytes text.new
        ≡ string_bytes text.old ++ spec.others (map string_bytes names.now)) }
{
    for name in names {
        text.push_str(" AND ")?;
        text.push_str(name.as_str())?;
    }
    Ok(())
}
