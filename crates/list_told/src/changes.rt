// The lines of what changed between two lists.

ghost use Rattle.std.specs.Prelude.{◌≡◌, ◌++◌, IfOk, OnOk, flat_map, map, option_map, string_bytes};
ghost use Rattle.spdx_requirement.specs.Ids.{exception_row, id_row};
ghost use Rattle.spdx_requirement.specs.Rows.{exception_of, row_of};
ghost use Rattle.spdx_list.specs.Diff.{nows};
ghost use Rattle.spdx_list.specs.DiffShown.{pair_of};
ghost use Rattle.spdx_list.specs.Shown.{shown_extras};
ghost use Rattle.list_told.specs.Changes as spec;
ghost use Rattle.list_told.specs.Changes.{IsExceptionChange, IsLicenseChange};
ghost use Rattle.list_told.specs.Texts.{AreTexts};

use crate::parts::put_line;
use crate::replacements::replacement_if;
use spdx_catalogue::Catalogue;
use spdx_list::{Extras, Listed, RowChange};
use spdx_requirement::id::{ExceptionId, LicenseId};
use spdx_requirement::row::{Exception, License};
use std::alloc::{AllocError, Global};

pub(crate) fn put_added_licenses(text: &mut Vec<u8>, rows: &[&License]) -> Result<(), AllocError>
    ensures { OnOk result (text.new.items ≡ text.old.items
        ++ flat_map spec.added_license (map row_of (nows rows.now))) }
{
    for row in rows {
        put_added_license(text, row)?;
    }
    Ok(())
}

fn put_added_license(text: &mut Vec<u8>, row: &License) -> Result<(), AllocError>
    ensures { OnOk result (text.new.items
        ≡ text.old.items ++ spec.added_license (row_of row.now)) }
{
    let (name, full_name) = (row.name.as_str(), row.full_name.as_str());
    put_line(text, &["added: ", name, " (", full_name, ")"])
}

pub(crate) fn put_added_exceptions(
    text: &mut Vec<u8>,
    rows: &[&Exception],
) -> Result<(), AllocError>
    ensures { OnOk result (text.new.items ≡ text.old.items
        ++ flat_map spec.added_exception (map exception_of (nows rows.now))) }
{
    for row in rows {
        put_added_exception(text, row)?;
    }
    Ok(())
}

fn put_added_exception(text: &mut Vec<u8>, row: &Exception) -> Result<(), AllocError>
    ensures { OnOk result (text.new.items
        ≡ text.old.items ++ spec.added_exception (exception_of row.now)) }
{
    put_exception_added(text, row.name.as_str())
}

#[tactic(auto, unfolding(crate::specs::Changes::exception_added))]
fn put_exception_added(text: &mut Vec<u8>, name: &str) -> Result<(), AllocError>
    ensures { OnOk result (text.new.items ≡ text.old.items ++ spec.exception_added name.now) }
{
    put_line(text, &["added: ", name, " (an exception)"])
}

pub(crate) fn put_removed<R: Listed>(text: &mut Vec<u8>, rows: &[&R]) -> Result<(), AllocError>
    ensures { OnOk result (text.new.items ≡ text.old.items
        ++ flat_map (λ r. spec.removed_line (R.name_of r)) (map R.shown (nows rows.now))) }
{
    for row in rows {
        put_line(text, &["removed: ", row.name()])?;
    }
    Ok(())
}

// The lines of each change in turn.
pub(crate) fn license_changes(
    alloc: Global,
    catalogue: &Catalogue,
    extras: &Extras,
    changes: &[RowChange<'_, License>],
) -> Result<Vec<u8>, AllocError>
    ensures { IfOk result (λ text.
        AreTexts (IsLicenseChange catalogue.now (shown_extras extras.now))
        (map (pair_of row_of) changes.now) text.items) }
{
    let mut text = Vec::new(alloc);
    for change in changes {
        let lines = license_change(alloc, catalogue, extras, change)?;
        text.extend_from_slice(&lines)?;
    }
    Ok(text)
}

fn license_change(
    alloc: Global,
    catalogue: &Catalogue,
    extras: &Extras,
    change: &RowChange<'_, License>,
) -> Result<Vec<u8>, AllocError>
    ensures { IfOk result (λ text. IsLicenseChange catalogue.now (shown_extras extras.now)
        (pair_of row_of change.now) text.items) }
{
    let (old, new) = (LicenseId::new(change.old), LicenseId::new(change.new));
    let is_newly = is_newly(old.is_deprecated(), new.is_deprecated());
    let replacement = replacement_if(alloc, is_newly, catalogue, extras, change.new.name.as_str())?;
    let text = license_lines(alloc, old, new, &replacement)?;
    Ok(text)
}

#[tactic(auto, unfolding(crate::specs::Changes::license_lines))]
fn license_lines(
    alloc: Global,
    old: LicenseId<'_>,
    new: LicenseId<'_>,
    replacement: &Option<String>,
) -> Result<Vec<u8>, AllocError>
    ensures { IfOk result (λ text. text.items ≡ spec.license_lines (id_row old.entry)
        (id_row new.entry) (option_map string_bytes replacement.now)) }
{
    let name = new.license().name.as_str();
    let (was, is) = (old.is_deprecated(), new.is_deprecated());
    let mut text = Vec::new(alloc);
    put_deprecation(&mut text, was, is, name, replacement)?;
    put_flag(&mut text, old, new, Flag::OsiApproved)?;
    put_flag(&mut text, old, new, Flag::FsfLibre)?;
    put_flag(&mut text, old, new, Flag::Copyleft)?;
    put_flag(&mut text, old, new, Flag::Gnu)?;
    put_full_name(&mut text, old.license(), new.license())?;
    Ok(text)
}

// The lines of each change in turn.
pub(crate) fn exception_changes(
    alloc: Global,
    catalogue: &Catalogue,
    extras: &Extras,
    changes: &[RowChange<'_, Exception>],
) -> Result<Vec<u8>, AllocError>
    ensures { IfOk result (λ text.
        AreTexts (IsExceptionChange catalogue.now (shown_extras extras.now))
        (map (pair_of exception_of) changes.now) text.items) }
{
    let mut text = Vec::new(alloc);
    for change in changes {
        let lines = exception_change(alloc, catalogue, extras, change)?;
        text.extend_from_slice(&lines)?;
    }
    Ok(text)
}

fn exception_change(
    alloc: Global,
    catalogue: &Catalogue,
    extras: &Extras,
    change: &RowChange<'_, Exception>,
) -> Result<Vec<u8>, AllocError>
    ensures { IfOk result (λ text. IsExceptionChange catalogue.now (shown_extras extras.now)
        (pair_of exception_of change.now) text.items) }
{
    let (old, new) = (ExceptionId::new(change.old), ExceptionId::new(change.new));
    let name = change.new.name.as_str();
    let is_newly = is_newly(old.is_deprecated(), new.is_deprecated());
    let replacement = replacement_if(alloc, is_newly, catalogue, extras, name)?;
    let mut text = Vec::new(alloc);
    put_deprecation(
        &mut text,
        old.is_deprecated(),
        new.is_deprecated(),
        name,
        &replacement,
    )?;
    Ok(text)
}

fn is_newly(was: bool, is: bool) -> bool
    ensures { result ≡ spec.is_newly was is }
{
    !was && is
}

// The line of a name that is deprecated now and wasn't, or the other way round.
#[tactic(auto, unfolding(crate::specs::Changes::deprecation_line))]
fn put_deprecation(
    text: &mut Vec<u8>,
    was: bool,
    is: bool,
    name: &str,
    replacement: &Option<String>,
) -> Result<(), AllocError>
    ensures { OnOk result (text.new.items ≡ text.old.items
        ++ spec.deprecation_line was is name.now (option_map string_bytes replacement.now)) }
{
    match (was, is) {
        (false, true) => put_deprecated(text, name, replacement),
        (true, false) => put_line(text, &["changed: ", name, ": no longer deprecated"]),
        (false, false) | (true, true) => Ok(()),
    }
}

fn put_deprecated(
    text: &mut Vec<u8>,
    name: &str,
    replacement: &Option<String>,
) -> Result<(), AllocError>
    ensures { OnOk result (text.new.items ≡ text.old.items
        ++ spec.deprecated_line name.now (option_map string_bytes replacement.now)) }
{
    match replacement {
        Some(replacement) => put_line(
            text,
            &["deprecated: ", name, ": write ", replacement.as_str()],
        ),
        None => put_line(text, &["deprecated: ", name]),
    }
}

// A flag of licences, but for the one that says that a name is deprecated.
#[derive(Clone, Copy)]
pub(crate) enum Flag {
    OsiApproved,
    FsfLibre,
    Copyleft,
    Gnu,
}

fn word_of(flag: Flag) -> &'static str
    ensures { result.now ≡ spec.flag_word flag }
{
    match flag {
        Flag::OsiApproved => "OSI approved",
        Flag::FsfLibre => "FSF libre",
        Flag::Copyleft => "copyleft",
        Flag::Gnu => "GNU",
    }
}

fn is_set(flag: Flag, id: LicenseId<'_>) -> bool
    ensures { result ≡ spec.is_set flag (id_row id.entry).flags }
{
    match flag {
        Flag::OsiApproved => id.is_osi_approved(),
        Flag::FsfLibre => id.is_fsf_free_libre(),
        Flag::Copyleft => id.is_copyleft(),
        Flag::Gnu => id.is_gnu(),
    }
}

// The line of a flag that is set now and wasn't, or the other way round.
#[tactic(auto, unfolding(crate::specs::Changes::flag_line))]
fn put_flag(
    text: &mut Vec<u8>,
    old: LicenseId<'_>,
    new: LicenseId<'_>,
    flag: Flag,
) -> Result<(), AllocError>
    ensures { OnOk result (text.new.items
        ≡ text.old.items ++ spec.flag_line flag (id_row old.entry) (id_row new.entry)) }
{
    let name = new.license().name.as_str();
    put_set(
        text,
        is_set(flag, old),
        is_set(flag, new),
        name,
        word_of(flag),
    )
}

#[tactic(auto, unfolding(crate::specs::Changes::set_line))]
fn put_set(
    text: &mut Vec<u8>,
    was: bool,
    is: bool,
    name: &str,
    word: &str,
) -> Result<(), AllocError>
    ensures { OnOk result (text.new.items
        ≡ text.old.items ++ spec.set_line was is name.now word.now) }
{
    match (was, is) {
        (false, true) => put_line(text, &["changed: ", name, ": now ", word]),
        (true, false) => put_line(text, &["changed: ", name, ": no longer ", word]),
        (false, false) | (true, true) => Ok(()),
    }
}

#[tactic(auto, unfolding(crate::specs::Changes::full_name_line))]
fn put_full_name(text: &mut Vec<u8>, old: &License, new: &License) -> Result<(), AllocError>
    ensures { OnOk result (text.new.items
        ≡ text.old.items ++ spec.full_name_line (row_of old.now) (row_of new.now)) }
{
    let (was, is) = (old.full_name.as_str(), new.full_name.as_str());
    if was == is {
        return Ok(());
    }
    let name = new.name.as_str();
    put_line(
        text,
        &["changed: ", name, ": its name was ", was, ", and is ", is],
    )
}
