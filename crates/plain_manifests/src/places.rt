// The texts that a file of fields or elements declares, by their places.

ghost use Rattle.std.specs.Prelude.{◌≡◌, ◌++◌, IfOk, OnOk, filter, map, option_map};
ghost use Rattle.plain_manifests.specs.Places.{AreNamed, AreOfBoth, AreOfOtherName, ArePlaces, HasVersion, IsOfSpdx, has_expressions, text_at};
ghost use Rattle.std.specs.List.{list_any, slice_split};
ghost use Rattle.std.specs.Char.{is_ascii_whitespace};
ghost use Rattle.plain_manifests.specs.Places as spec;

use crate::form::PlainForm;
use crate::grammar::{grammar_of, name_of, other_name_of};
use std::alloc::{AllocError, Global};
use text_places::{Element, Span, elements, fields};

/// What stands at a place of the bytes.
pub(crate) fn text_at<'b>(bytes: &'b [u8], span: Span) -> &'b [u8]
    ensures { result.now ≡ spec.text_at bytes.now span }
{
    match bytes.get(span.start..span.end) {
        Some(text) => text,
        None => &[],
    }
}

// Whether an attribute says that the element's text is an expression.
fn tells_expression(attribute: &[u8]) -> bool
    ensures { result ≡ spec.tells_expression attribute.now }
{
    attribute == b"type=\"expression\"".as_slice() || attribute == b"type='expression'".as_slice()
}

fn is_blank(byte: u8) -> bool
    ensures { result ≡ is_ascii_whitespace byte }
{
    byte.is_ascii_whitespace()
}

// Whether one of the attributes says so.
fn tell_expression(attributes: &[u8]) -> bool
    ensures { result ≡
        list_any spec.tells_expression (slice_split is_ascii_whitespace attributes.now) }
{
    attributes
        .split(|byte| is_blank(*byte))
        .any(|attribute| tells_expression(attribute))
}

// Whether an element of this form with these attributes declares a license.
fn declares(form: PlainForm, attributes: &[u8]) -> bool
    ensures { result ≡ spec.declares form attributes.now }
{
    form != PlainForm::Nuget || tell_expression(attributes)
}

fn is_of_elements(form: PlainForm) -> bool
    ensures { result ≡ spec.is_of_elements form }
{
    matches!(
        form,
        PlainForm::Appstream | PlainForm::Nuget | PlainForm::Msbuild | PlainForm::Ros
    )
}

// The places of the texts of elements of this name.
fn element_places(
    alloc: Global,
    form: PlainForm,
    name: &[u8],
    bytes: &[u8],
) -> Result<Vec<Span>, AllocError>
    ensures { IfOk result (λ found. found.items ≡ spec.element_places form name.now bytes.now) }
{
    let mut found = Vec::new(alloc);
    for element in elements(alloc, bytes, name)? {
        if declares(form, text_at(bytes, element.attributes)) {
            found.push(element.text)?;
        }
    }
    Ok(found)
}

// The places of the texts of fields or elements of this name.
fn places_named(
    alloc: Global,
    form: PlainForm,
    name: &[u8],
    bytes: &[u8],
) -> Result<Vec<Span>, AllocError>
    ensures { IfOk result (λ found. AreNamed form name.now bytes.now found.items) }
{
    if is_of_elements(form) {
        element_places(alloc, form, name, bytes)
    } else {
        fields(alloc, bytes, &grammar_of(form, name))
    }
}

// The places of the texts of the other name.
fn places_of_other(alloc: Global, form: PlainForm, bytes: &[u8]) -> Result<Vec<Span>, AllocError>
    ensures { IfOk result (λ found. AreOfOtherName form bytes.now found.items) }
{
    match other_name_of(form) {
        Some(name) => places_named(alloc, form, name, bytes),
        None => Ok(Vec::new(alloc)),
    }
}

// Whether a version of Cabal's format has SPDX's expressions: 2.2 and those after it, told by one number.
fn has_expressions(version: &[u8]) -> bool
    ensures { result ≡ spec.has_expressions version.now }
{
    match version {
        [digit, ..] => *digit >= b'2' && *digit <= b'9' && !version.starts_with(b"2.0"),
        [] => false,
    }
}

// Whether one of these texts is such a version.
fn have_expressions(bytes: &[u8], versions: &[Span]) -> bool
    ensures { result ≡ list_any (λ v. has_expressions (text_at bytes.now v)) versions.now }
{
    versions
        .iter()
        .any(|span| has_expressions(text_at(bytes, *span)))
}

// Whether a Cabal file names a version with expressions.
fn has_version(alloc: Global, bytes: &[u8]) -> Result<bool, AllocError>
    ensures { IfOk result (HasVersion bytes.now) }
{
    let versions = places_named(alloc, PlainForm::Cabal, b"cabal-version", bytes)?;
    Ok(have_expressions(bytes, &versions))
}

// Whether the texts that the bytes declare are SPDX's.
fn is_of_spdx(alloc: Global, form: PlainForm, bytes: &[u8]) -> Result<bool, AllocError>
    ensures { IfOk result (IsOfSpdx form bytes.now) }
{
    match form {
        PlainForm::Cabal => has_version(alloc, bytes),
        _ => Ok(true),
    }
}

// The places of the texts of both names.
fn places_of_both(alloc: Global, form: PlainForm, bytes: &[u8]) -> Result<Vec<Span>, AllocError>
    ensures { IfOk result (λ found. AreOfBoth form bytes.now found.items) }
{
    let mut found = places_named(alloc, form, name_of(form), bytes)?;
    let mut others = places_of_other(alloc, form, bytes)?;
    found.append(&mut others)?;
    Ok(found)
}

/// The places of the texts that the bytes declare.
pub(crate) fn places(alloc: Global, form: PlainForm, bytes: &[u8]) -> Result<Vec<Span>, AllocError>
    ensures { IfOk result (λ found. ArePlaces form bytes.now found.items) }
{
    if is_of_spdx(alloc, form, bytes)? {
        places_of_both(alloc, form, bytes)
    } else {
        Ok(Vec::new(alloc))
    }
}
