// The forms in which full names are written, as imprecise names.

ghost use Rattle.std.specs.Prelude.{◌≡◌, ◌∷◌, ◌++◌, [], IfOk, OnOk, filter, flat_map, map, option_map, string_bytes};
ghost use Rattle.std.specs.List.{list_all, list_any};
ghost use Rattle.spdx_requirement.specs.Rows.{row_of, exception_of, imprecise_of};
ghost use Rattle.spdx_list.specs.FullNames.{full_names};
ghost use Rattle.spdx_list.specs.Forms as spec;

pub(crate) mod full_names;

use crate::forms::full_names::{begins_unlisted, begins_with, fits_row, full_names, joined};
use spdx_requirement::LicenseId;
use spdx_requirement::row::{Exception, ImpreciseName, License};
use std::alloc::{AllocError, Global};

fn last_parts(text: &str) -> Option<(&str, &str)>
    ensures { option_map (λ p. (p.0.now, p.1.now)) result ≡ spec.last_parts text.now }
{
    text.rsplit_once(' ')
}

fn last_word(text: &str) -> &str
    ensures { result.now ≡ spec.last_word text.now }
{
    match last_parts(text) {
        Some((_, word)) => word,
        None => text,
    }
}

fn before_last(text: &str) -> &str
    ensures { result.now ≡ spec.before_last text.now }
{
    match last_parts(text) {
        Some((front, _)) => front,
        None => "",
    }
}

fn ends_in_word(word: &[u8], text: &str) -> bool
    ensures { result ≡ spec.ends_in_word word.now text.now }
{
    last_word(text).as_bytes().eq_ignore_ascii_case(word)
}

fn less_v(word: &str) -> &str
    ensures { result.now ≡ spec.less_v word.now }
{
    match word.strip_prefix('v') {
        Some(number) => number,
        None => word,
    }
}

fn is_version(word: &[u8]) -> bool
    ensures { result ≡ spec.is_version word.now }
{
    has_dot(word) && has_version_bytes(word)
}

fn has_version_bytes(word: &[u8]) -> bool
    ensures { result ≡ list_all spec.is_version_byte word.now }
{
    word.iter().all(|byte| is_version_byte(*byte))
}

fn has_dot(word: &[u8]) -> bool
    ensures { result ≡ spec.has_dot word.now }
{
    word.iter().any(|byte| *byte == b'.')
}

fn is_version_byte(byte: u8) -> bool
    ensures { result ≡ spec.is_version_byte byte }
{
    byte.is_ascii_digit() || byte == b'.'
}

fn version_of(text: &str) -> &str
    ensures { result.now ≡ spec.version_of text.now }
{
    let number = less_v(last_word(text));
    if is_version(number.as_bytes()) {
        number
    } else {
        ""
    }
}

fn less_version(text: &str) -> &str
    ensures { result.now ≡ spec.less_version text.now }
{
    if ends_in_word(b"version", text) {
        before_last(text)
    } else {
        text
    }
}

fn name_of(text: &str) -> &str
    ensures { result.now ≡ spec.name_of text.now }
{
    if version_of(text).is_empty() {
        text
    } else {
        less_version(before_last(text))
    }
}

fn ends_in_license(name: &str) -> bool
    ensures { result ≡ spec.ends_in_license name.now }
{
    ends_in_word(b"license", name) || ends_in_word(b"licence", name)
}

// Appends the form as a name of the licence.
fn put_form(
    alloc: Global,
    forms: &mut Vec<ImpreciseName>,
    row: &License,
    form: String,
) -> Result<(), AllocError>
    ensures { OnOk result (map imprecise_of forms.new.items ≡ map imprecise_of forms.old.items
        ++ map (spec.form_row (row_of row.now)) (string_bytes form ∷ [])) }
{
    let name = String::from_str(alloc, row.name.as_str())?;
    forms.push(ImpreciseName { prefix: form, name })?;
    Ok(())
}

// Appends the name with the version.
fn put_with_version(
    alloc: Global,
    forms: &mut Vec<ImpreciseName>,
    row: &License,
    name: &str,
    version: &str,
) -> Result<(), AllocError>
    ensures { OnOk result (map imprecise_of forms.new.items ≡ map imprecise_of forms.old.items
        ++ map (spec.form_row (row_of row.now)) (spec.with_version name.now version.now)) }
{
    if version.is_empty() {
        return put_form(alloc, forms, row, String::from_str(alloc, name)?);
    }
    let plain = format!(in alloc; "{name} {version}")?;
    put_form(alloc, forms, row, plain)?;
    let other = format!(in alloc; "{name} v{version}")?;
    put_form(alloc, forms, row, other)
}

// Appends the forms of the licence's full name.
fn put_forms(alloc: Global, forms: &mut Vec<ImpreciseName>, row: &License) -> Result<(), AllocError>
    ensures { OnOk result (map imprecise_of forms.new.items ≡ map imprecise_of forms.old.items
        ++ spec.forms_for (row_of row.now)) }
{
    if LicenseId::new(row).is_deprecated() {
        return Ok(());
    }
    let name = name_of(row.full_name.as_str());
    let version = version_of(row.full_name.as_str());
    put_with_version(alloc, forms, row, name, version)?;
    if ends_in_license(name) {
        put_with_version(alloc, forms, row, before_last(name), version)?;
    }
    Ok(())
}

fn all_forms(alloc: Global, licenses: &[License]) -> Result<Vec<ImpreciseName>, AllocError>
    ensures { IfOk result (λ forms. map imprecise_of forms.items
        ≡ spec.all_forms (map row_of licenses.now)) }
{
    let mut forms = Vec::new(alloc);
    for row in licenses {
        put_forms(alloc, &mut forms, row)?;
    }
    Ok(forms)
}

fn fits_full(form: &ImpreciseName, other: &License) -> bool
    ensures { result ≡ spec.fits_full (imprecise_of form.now) (row_of other.now) }
{
    !LicenseId::new(other).is_deprecated()
        && other.name.as_bytes() != form.name.as_bytes()
        && begins_with(form.prefix.as_bytes(), other.full_name.as_bytes())
}

fn fits_any_full(licenses: &[License], form: &ImpreciseName) -> bool
    ensures { result ≡ list_any (spec.fits_full (imprecise_of form.now)) (map row_of licenses.now) }
{
    licenses.iter().any(|other| fits_full(form, other))
}

fn fits_form(form: &ImpreciseName, other: &ImpreciseName) -> bool
    ensures { result ≡ spec.fits_form (imprecise_of form.now) (imprecise_of other.now) }
{
    other.name.as_bytes() != form.name.as_bytes()
        && begins_with(form.prefix.as_bytes(), other.prefix.as_bytes())
}

fn fits_any_form(forms: &[ImpreciseName], form: &ImpreciseName) -> bool
    ensures { result ≡ list_any (spec.fits_form (imprecise_of form.now))
        (map imprecise_of forms.now) }
{
    forms.iter().any(|other| fits_form(form, other))
}

fn is_begun(rows: &[ImpreciseName], text: &[u8]) -> bool
    ensures { result ≡ spec.is_begun (map imprecise_of rows.now) text.now }
{
    rows.iter()
        .any(|row| begins_with(row.prefix.as_bytes(), text))
}

fn is_alone(licenses: &[License], forms: &[ImpreciseName], form: &ImpreciseName) -> bool
    ensures { result ≡ spec.is_alone (map row_of licenses.now) (map imprecise_of forms.now)
        (imprecise_of form.now) }
{
    !fits_any_full(licenses, form) && !fits_any_form(forms, form)
}

fn is_apart(full: &[ImpreciseName], rows: &[ImpreciseName], form: &ImpreciseName) -> bool
    ensures { result ≡ spec.is_apart (map imprecise_of full.now) (map imprecise_of rows.now)
        (imprecise_of form.now) }
{
    let text = form.prefix.as_bytes();
    !fits_row(rows, text) && !is_begun(full, text) && !is_begun(rows, text)
}

fn copy_of(alloc: Global, row: &ImpreciseName) -> Result<ImpreciseName, AllocError>
    ensures { IfOk result (λ copy. imprecise_of copy ≡ imprecise_of row.now) }
{
    Ok(ImpreciseName {
        prefix: String::from_str(alloc, row.prefix.as_str())?,
        name: String::from_str(alloc, row.name.as_str())?,
    })
}

fn new_forms(
    alloc: Global,
    licenses: &[License],
    exceptions: &[Exception],
    rows: &[ImpreciseName],
    full: &[ImpreciseName],
) -> Result<Vec<ImpreciseName>, AllocError>
    requires { map imprecise_of full.now ≡ full_names (map row_of licenses.now)
        (map exception_of exceptions.now) (map imprecise_of rows.now) }
    ensures { IfOk result (λ new. map imprecise_of new.items ≡ spec.new_forms
        (map row_of licenses.now) (map exception_of exceptions.now) (map imprecise_of rows.now)) }
{
    let forms = all_forms(alloc, licenses)?;
    let mut new = Vec::new(alloc);
    for form in &forms {
        if begins_unlisted(licenses, exceptions, form.prefix.as_bytes())
            && is_alone(licenses, &forms, form)
            && is_apart(full, rows, form)
        {
            new.push(copy_of(alloc, form)?)?;
        }
    }
    Ok(new)
}

/// The full names of the licences as imprecise names, the given ones behind them, and then the forms of the full names. A
/// form is taken unless its licence is deprecated, it begins with the name of a listed licence or exception, it begins the
/// full name, or a form, of another undeprecated licence, or one of the given imprecise names, or what stands in front
/// begins it. Quadratic in the licences.
pub(crate) fn with_forms(
    alloc: Global,
    licenses: &[License],
    exceptions: &[Exception],
    rows: Vec<ImpreciseName>,
) -> Result<Vec<ImpreciseName>, AllocError>
    ensures { IfOk result (λ all. map imprecise_of all.items ≡ spec.with_forms
        (map row_of licenses.now) (map exception_of exceptions.now) (map imprecise_of rows.items)) }
{
    let full = full_names(alloc, licenses, exceptions, &rows)?;
    let new = new_forms(alloc, licenses, exceptions, &rows, &full)?;
    let all = joined(full, rows)?;
    joined(all, new)
}
