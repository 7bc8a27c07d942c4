//! By what a list differs from an older one, as it is told.

ghost use Rattle.std.specs.Prelude.{◌≡◌, ◌++◌, IfErr, IfOk, OnOk};
ghost use Rattle.spdx_list.specs.Shown.{shown_extras};
ghost use Rattle.list_program.specs.Named.{inside_of};
ghost use Rattle.list_program.specs.Troubles.{AreNoExtras};
ghost use Rattle.list_told.specs.Diffs as spec;
ghost use Rattle.list_told.specs.Diffs.{
  IsDiff,
  IsDiffBy,
  IsDiffOf,
  IsExceptionDiff,
  IsLicenseDiff,
  IsNoDiff,
  TellsEachRow,
  TellsSame,
};

use crate::changes::{
    exception_changes, license_changes, put_added_exceptions, put_added_licenses, put_removed,
};
use crate::parts::put_line;
use list_program::{Inside, ListTrouble, extras_inside, list_at, named_list};
use shelves::Shelf;
use spdx_catalogue::Catalogue;
use spdx_list::{Extras, differences};
use std::alloc::{AllocError, Global};

/// Which lists are compared.
#[derive(Clone, Copy)]
pub struct Lists<'a> {
    /// The path of the older list, where one is named; else it is the one that other commands read by.
    pub old: Option<&'a str>,
    /// The path of the newer list.
    pub new: &'a str,
}

/// Tells by what the newer list differs from the older one: both versions, and a line for each difference. What to write in
/// place of names that are deprecated now is said by `replacements`, where they can't be mended.
///
/// # Errors
///
/// A list isn't had, the older one first; the replacements are no extras; or memory was refused.
pub fn diff<S: Shelf>(
    alloc: Global,
    shelf: &S,
    inside: Inside<'_>,
    replacements: &[u8],
    lists: Lists<'_>,
) -> Result<Vec<u8>, ListTrouble>
    ensures ok { IfOk result (λ text. IsDiff (S.told shelf.now)
        (inside_of inside.entry.list.now inside.entry.extras.now) replacements.now lists.entry
        text.items) }
    ensures err { IfErr result (IsNoDiff (S.told shelf.now)
        (inside_of inside.entry.list.now inside.entry.extras.now) replacements.now lists.entry) }
    ensures each { IfOk result (λ text. TellsEachRow (S.told shelf.now)
        (inside_of inside.entry.list.now inside.entry.extras.now) lists.entry text.items) }
    ensures same { IfOk result (λ text. TellsSame (S.told shelf.now)
        (inside_of inside.entry.list.now inside.entry.extras.now) lists.entry text.items) }
{
    let old = named_list(alloc, shelf, inside, lists.old)?;
    let new = list_at(alloc, shelf, inside.extras, lists.new)?;
    old.is_well_formed();
    diff_by(alloc, &old, &new, replacements)
}

fn diff_by(
    alloc: Global,
    old: &Catalogue,
    new: &Catalogue,
    replacements: &[u8],
) -> Result<Vec<u8>, ListTrouble>
    ensures ok { IfOk result (λ text. IsDiffBy replacements.now old.now new.now text.items) }
    ensures err { IfErr result (AreNoExtras replacements.now) }
{
    let extras = extras_inside(alloc, replacements)?;
    let text = diff_of(alloc, old, new, &extras)?;
    Ok(text)
}

fn diff_of(
    alloc: Global,
    old: &Catalogue,
    new: &Catalogue,
    extras: &Extras,
) -> Result<Vec<u8>, AllocError>
    ensures { IfOk result (λ text.
        IsDiffOf old.now new.now (shown_extras extras.now) text.items) }
{
    let licenses = license_diff(alloc, old, new, extras)?;
    let exceptions = exception_diff(alloc, old, new, extras)?;
    let mut text = Vec::new(alloc);
    put_head(&mut text, old.license_version(), new.license_version())?;
    text.extend_from_slice(&licenses)?;
    text.extend_from_slice(&exceptions)?;
    Ok(text)
}

#[tactic(auto, unfolding(crate::specs::Diffs::head_line))]
fn put_head(text: &mut Vec<u8>, old: &str, new: &str) -> Result<(), AllocError>
    ensures { OnOk result (text.new.items ≡ text.old.items ++ spec.head_line old.now new.now) }
{
    put_line(text, &["SPDX license list ", old, " to ", new])
}

// The lines of the licences.
fn license_diff(
    alloc: Global,
    old: &Catalogue,
    new: &Catalogue,
    extras: &Extras,
) -> Result<Vec<u8>, AllocError>
    ensures { IfOk result (λ text.
        IsLicenseDiff old.now new.now (shown_extras extras.now) text.items) }
{
    let found = differences(alloc, old.licenses(), new.licenses())?;
    let changes = license_changes(alloc, new, extras, &found.changed)?;
    let mut text = Vec::new(alloc);
    put_added_licenses(&mut text, &found.added)?;
    put_removed(&mut text, &found.removed)?;
    text.extend_from_slice(&changes)?;
    Ok(text)
}

// The lines of the exceptions.
fn exception_diff(
    alloc: Global,
    old: &Catalogue,
    new: &Catalogue,
    extras: &Extras,
) -> Result<Vec<u8>, AllocError>
    ensures { IfOk result (λ text.
        IsExceptionDiff old.now new.now (shown_extras extras.now) text.items) }
{
    let found = differences(alloc, old.exceptions(), new.exceptions())?;
    let changes = exception_changes(alloc, new, extras, &found.changed)?;
    let mut text = Vec::new(alloc);
    put_added_exceptions(&mut text, &found.added)?;
    put_removed(&mut text, &found.removed)?;
    text.extend_from_slice(&changes)?;
    Ok(text)
}
