// Full names as imprecise names.

ghost use Rattle.std.specs.Prelude.{◌≡◌, ◌++◌, IfOk, map};
ghost use Rattle.std.specs.List.{list_any};
ghost use Rattle.std.specs.Str.{str_eq_ignore_ascii_case};
ghost use Rattle.spdx_catalogue.specs.Names.{begins_caseless};
ghost use Rattle.spdx_requirement.specs.Rows.{LicenseRow, ExceptionRow, row_of, exception_of, imprecise_of};
ghost use Rattle.spdx_list.specs.FullNames as spec;

use spdx_catalogue::names::is_name_byte;
use spdx_requirement::LicenseId;
use spdx_requirement::row::{Exception, ImpreciseName, License};
use std::alloc::{AllocError, Global};

fn is_word_byte(byte: u8) -> bool
    ensures { result ≡ spec.is_word_byte byte }
{
    is_name_byte(byte) || byte == b':'
}

fn first_word(text: &[u8]) -> &[u8]
    ensures { result.now ≡ spec.first_word text.now }
{
    let count = text.iter().take_while(|byte| is_word_byte(**byte)).count();
    &text[..count]
}

// Whether the text begins with the prefix, the case of ASCII letters aside.
pub(crate) fn begins_with(prefix: &[u8], text: &[u8]) -> bool
    ensures { result ≡ begins_caseless prefix.now text.now }
{
    text.len() >= prefix.len() && text[..prefix.len()].eq_ignore_ascii_case(prefix)
}

fn is_license_word(licenses: &[License], word: &[u8]) -> bool
    ensures { result ≡ list_any (λ (r : LicenseRow). str_eq_ignore_ascii_case r.name word.now)
        (map row_of licenses.now) }
{
    licenses
        .iter()
        .any(|row| row.name.as_bytes().eq_ignore_ascii_case(word))
}

fn is_exception_word(exceptions: &[Exception], word: &[u8]) -> bool
    ensures { result ≡ list_any (λ (r : ExceptionRow). str_eq_ignore_ascii_case r.name word.now)
        (map exception_of exceptions.now) }
{
    exceptions
        .iter()
        .any(|row| row.name.as_bytes().eq_ignore_ascii_case(word))
}

pub(crate) fn begins_unlisted(licenses: &[License], exceptions: &[Exception], text: &[u8]) -> bool
    ensures { result ≡ spec.begins_unlisted (map row_of licenses.now)
        (map exception_of exceptions.now) text.now }
{
    let word = first_word(text);
    !word.is_empty() && !(is_license_word(licenses, word) || is_exception_word(exceptions, word))
}

fn fits_other(row: &License, other: &License) -> bool
    ensures { result ≡ spec.fits_other (row_of row.now) (row_of other.now) }
{
    !LicenseId::new(other).is_deprecated()
        && other.name.as_bytes() != row.name.as_bytes()
        && begins_with(row.full_name.as_bytes(), other.full_name.as_bytes())
}

fn fits_another(licenses: &[License], row: &License) -> bool
    ensures { result ≡ list_any (spec.fits_other (row_of row.now)) (map row_of licenses.now) }
{
    licenses.iter().any(|other| fits_other(row, other))
}

pub(crate) fn fits_row(rows: &[ImpreciseName], text: &[u8]) -> bool
    ensures { result ≡ spec.fits_row (map imprecise_of rows.now) text.now }
{
    rows.iter()
        .any(|row| begins_with(text, row.prefix.as_bytes()))
}

fn is_taken(
    licenses: &[License],
    exceptions: &[Exception],
    rows: &[ImpreciseName],
    row: &License,
) -> bool
    ensures { result ≡ spec.is_taken (map row_of licenses.now) (map exception_of exceptions.now)
        (map imprecise_of rows.now) (row_of row.now) }
{
    !LicenseId::new(row).is_deprecated()
        && begins_unlisted(licenses, exceptions, row.full_name.as_bytes())
        && !fits_another(licenses, row)
        && !fits_row(rows, row.full_name.as_bytes())
}

fn full_row(alloc: Global, row: &License) -> Result<ImpreciseName, AllocError>
    ensures { IfOk result (λ m. imprecise_of m ≡ spec.full_row (row_of row.now)) }
{
    Ok(ImpreciseName {
        prefix: String::from_str(alloc, row.full_name.as_str())?,
        name: String::from_str(alloc, row.name.as_str())?,
    })
}

/// The full names of the licences as imprecise names. A full name is taken unless its licence is deprecated, it begins with
/// the name of a listed licence or exception, or it begins the full name of another undeprecated licence or one of the
/// given imprecise names. Quadratic in the licences.
pub(crate) fn full_names(
    alloc: Global,
    licenses: &[License],
    exceptions: &[Exception],
    rows: &[ImpreciseName],
) -> Result<Vec<ImpreciseName>, AllocError>
    ensures { IfOk result (λ full. map imprecise_of full.items ≡ spec.full_names
        (map row_of licenses.now) (map exception_of exceptions.now) (map imprecise_of rows.now)) }
{
    let mut full = Vec::new(alloc);
    for row in licenses {
        if is_taken(licenses, exceptions, rows, row) {
            full.push(full_row(alloc, row)?)?;
        }
    }
    Ok(full)
}

pub(crate) fn joined(
    mut all: Vec<ImpreciseName>,
    rows: Vec<ImpreciseName>,
) -> Result<Vec<ImpreciseName>, AllocError>
    ensures { IfOk result (λ both. both.items ≡ all.items ++ rows.items) }
{
    for row in rows {
        all.push(row)?;
    }
    Ok(all)
}
