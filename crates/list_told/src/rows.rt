// What a list says of a name.

ghost use Rattle.std.specs.Prelude.{◌≡◌, ◌++◌, IfOk, OnOk, map, option_map, string_bytes};
ghost use Rattle.spdx_requirement.specs.Ids.{exception_row, id_row};
ghost use Rattle.spdx_list.specs.Diff.{nows};
ghost use Rattle.spdx_list.specs.Shown.{shown_extras};
ghost use Rattle.list_told.specs.Texts.{AreTexts};
ghost use Rattle.list_told.specs.Told as spec;
ghost use Rattle.list_told.specs.Told.{IsLicenseText, IsTextOf};

use crate::flags::{exception_flags, license_flags, put_flags};
use crate::replacements::replacement_if;
use spdx_catalogue::Catalogue;
use spdx_list::Extras;
use spdx_requirement::id::{ExceptionId, LicenseId};
use std::alloc::{AllocError, Global};

// What the list says of each name in turn.
pub(crate) fn rows_text(
    alloc: Global,
    catalogue: &Catalogue,
    extras: &Extras,
    names: &[&str],
) -> Result<Vec<u8>, AllocError>
    ensures { IfOk result (λ text. AreTexts (IsTextOf catalogue.now (shown_extras extras.now))
        (nows names.now) text.items) }
{
    let mut text = Vec::new(alloc);
    for name in names {
        let row = row_text(alloc, catalogue, extras, *name)?;
        text.extend_from_slice(&row)?;
    }
    Ok(text)
}

// Nothing, where the list has no such name.
fn row_text(
    alloc: Global,
    catalogue: &Catalogue,
    extras: &Extras,
    name: &str,
) -> Result<Vec<u8>, AllocError>
    ensures { IfOk result (λ text.
        IsTextOf catalogue.now (shown_extras extras.now) name.now text.items) }
{
    if let Some(id) = catalogue.license_id_caseless(name) {
        return license_text(alloc, catalogue, extras, id);
    }
    match catalogue.exception_id_caseless(name) {
        Some(id) => exception_text(alloc, id),
        None => Ok(Vec::new(alloc)),
    }
}

fn license_text(
    alloc: Global,
    catalogue: &Catalogue,
    extras: &Extras,
    id: LicenseId<'_>,
) -> Result<Vec<u8>, AllocError>
    ensures { IfOk result (λ text.
        IsLicenseText catalogue.now (shown_extras extras.now) (id_row id.entry) text.items) }
{
    let name = id.license().name.as_str();
    let replacement = replacement_if(alloc, id.is_deprecated(), catalogue, extras, name)?;
    let text = license_lines(alloc, id, &replacement)?;
    Ok(text)
}

#[tactic(auto, unfolding(crate::specs::Told::license_text))]
fn license_lines(
    alloc: Global,
    id: LicenseId<'_>,
    replacement: &Option<String>,
) -> Result<Vec<u8>, AllocError>
    ensures { IfOk result (λ text. text.items
        ≡ spec.license_text (id_row id.entry) (option_map string_bytes replacement.now)) }
{
    let mut text = Vec::new(alloc);
    text.extend_from_slice(id.license().name.as_bytes())?;
    text.extend_from_slice(b"\n  name: ")?;
    text.extend_from_slice(id.license().full_name.as_bytes())?;
    text.extend_from_slice(b"\n")?;
    let words = license_flags(alloc, id)?;
    put_flags(&mut text, &words)?;
    put_replacement(&mut text, replacement)?;
    Ok(text)
}

// What stands behind the name of an exception, which has no full name.
#[tactic(auto, unfolding(crate::specs::Told::exception_line))]
fn exception_line() -> &'static str
    ensures { result.now ≡ spec.exception_line }
{
    "\n  an exception, written behind WITH\n"
}

// What to write in place of a deprecated name, where that is known.
fn put_replacement(text: &mut Vec<u8>, replacement: &Option<String>) -> Result<(), AllocError>
    ensures { OnOk result (text.new.items ≡ text.old.items
        ++ spec.replacement_line (option_map string_bytes replacement.now)) }
{
    let Some(replacement) = replacement else {
        return Ok(());
    };
    text.extend_from_slice(b"  write: ")?;
    text.extend_from_slice(replacement.as_bytes())?;
    text.extend_from_slice(b"\n")
}

#[tactic(auto, unfolding(crate::specs::Told::exception_text))]
fn exception_text(alloc: Global, id: ExceptionId<'_>) -> Result<Vec<u8>, AllocError>
    ensures { IfOk result (λ text. text.items ≡ spec.exception_text (exception_row id.entry)) }
{
    let mut text = Vec::new(alloc);
    text.extend_from_slice(id.exception().name.as_bytes())?;
    text.extend_from_slice(exception_line().as_bytes())?;
    let words = exception_flags(alloc, id)?;
    put_flags(&mut text, &words)?;
    Ok(text)
}
