// The expressions of a file of fields or elements, each at its place, and the file with another one.

ghost use Rattle.std.specs.Prelude.{◌≡◌, ◌≢◌, ◌<◌, [], ◌∷◌, ◌++◌, ◌+◌, All, IfOk, OnOk, IfSome, IfNone, drop, filter, length, map, slice_get, take, true, false, Some};
ghost use Rattle.plain_manifests.specs.Sites.{ArePlainSites, IsDeclared, MendsPlain, ReadsOther, ReadsSo, StaysPlain, is_expression, numbers_of, texts_at, wanted, with_text};
ghost use Rattle.plain_manifests.specs.Places.{text_at};
ghost use Rattle.text_places.specs.Names.{is_one_of};
ghost use Rattle.std.specs.List.{list_any};
ghost use Rattle.std.specs.List.Sorted.{IsStrictlyIncreasing};
ghost use Rattle.plain_manifests.specs.declared.sites.PlainSite.{PlainSite};

use crate::form::PlainForm;
use crate::grammar::{is_word_of, marks_of};
use crate::places::{places, text_at};
use std::alloc::{AllocError, Global};
use text_places::Span;

/// An expression that a file declares.
#[derive(Drop, Debug)]
pub struct PlainSite {
    /// Where it stands, without quotes.
    pub span: Span,
    /// Its number among the texts that the file has where licenses are declared, from 0.
    pub number: usize,
    /// The expression, as it stands there.
    pub text: Vec<u8>,
}

fn is_one_of(set: &[u8], byte: u8) -> bool
    ensures { result ≡ is_one_of set.now byte }
{
    set.iter().any(|other| *other == byte)
}

fn has_any(set: &[u8], text: &[u8]) -> bool
    ensures { result ≡ list_any (is_one_of set.now) text.now }
{
    text.iter().any(|byte| is_one_of(set, *byte))
}

fn is_expression(form: PlainForm, text: &[u8]) -> bool
    ensures { result ≡ is_expression form text.now }
{
    let marks = marks_of(form);
    !has_any(marks, text) && !is_word_of(form, text)
}

// A file, and where the texts stand that it declares.
#[derive(Clone, Copy)]
struct Declared<'d> {
    bytes: &'d [u8],
    places: &'d [Span],
}

// The site of the text at the place of that number.
fn site_at(
    alloc: Global,
    declared: &Declared<'_>,
    number: usize,
    span: Span,
    text: &[u8],
) -> Result<PlainSite, AllocError>
    requires place { slice_get declared.now.places.now number ≡ Some span }
    requires text { text.now ≡ text_at declared.now.bytes.now span }
    ensures text { IfOk result (λ site. site.text.items ≡ text.now) }
    ensures number { IfOk result (λ site. site.number ≡ number) }
    ensures each { IfOk result (IsDeclared declared.now.bytes.now declared.now.places.now) }
{
    let mut bytes = Vec::new(alloc);
    bytes.extend_from_slice(text)?;
    Ok(PlainSite {
        span,
        number,
        text: bytes,
    })
}

// Adds the site of the text at the place of that number, if it is an expression.
fn push_site(
    alloc: Global,
    form: PlainForm,
    declared: &Declared<'_>,
    number: usize,
    span: Span,
    sites: &mut Vec<PlainSite>,
) -> Result<(), AllocError>
    requires { slice_get declared.now.places.now number ≡ Some span }
    ensures texts { OnOk result (map (λ (s : PlainSite). s.text.items) sites.new.items
        ≡ map (λ (s : PlainSite). s.text.items) sites.old.items
        ++ filter (is_expression form) (text_at declared.now.bytes.now span ∷ [])) }
    ensures each { OnOk result (
        All (IsDeclared declared.now.bytes.now declared.now.places.now) sites.old.items
        → All (IsDeclared declared.now.bytes.now declared.now.places.now) sites.new.items) }
    ensures ascend { OnOk result (
        IsStrictlyIncreasing (numbers_of sites.old.items ++ number ∷ [])
        → IsStrictlyIncreasing (numbers_of sites.new.items ++ (number + 1) ∷ [])) }
{
    let text = text_at(declared.bytes, span);
    if is_expression(form, text) {
        sites.push(site_at(alloc, declared, number, span, text)?)?;
    }
    Ok(())
}

// The sites of the texts that are expressions.
fn sites_at(
    alloc: Global,
    form: PlainForm,
    declared: &Declared<'_>,
) -> Result<Vec<PlainSite>, AllocError>
    ensures texts { IfOk result (λ sites. map (λ (s : PlainSite). s.text.items) sites.items
        ≡ filter (is_expression form) (texts_at declared.now.bytes.now declared.now.places.now)) }
    ensures each { IfOk result (λ sites.
        All (IsDeclared declared.now.bytes.now declared.now.places.now) sites.items) }
    ensures ascend { IfOk result (λ sites. IsStrictlyIncreasing (numbers_of sites.items)) }
{
    let mut sites = Vec::new(alloc);
    for (number, span) in declared.places.iter().enumerate() {
        push_site(alloc, form, declared, number, *span, &mut sites)?;
    }
    Ok(sites)
}

/// The expressions that the bytes declare as a file of this form, in the file's order, each at its place; of a form that has
/// two names for what declares a license, those of the one before those of the other. Texts that the form's own language makes,
/// as `%{license}` in RPM's, are left out; so are the form's own words for what no expression tells, as Cabal's `NONE`, and all
/// of a Cabal file before version 2.2 of its format, which has other names.
///
/// The bytes may be no text. Linear in them.
///
/// # Errors
///
/// Memory was refused.
pub fn plain_sites(
    alloc: Global,
    form: PlainForm,
    bytes: &[u8],
) -> Result<Vec<PlainSite>, AllocError>
    ensures { IfOk result (λ sites. ArePlainSites form bytes.now sites.items) }
{
    let found = places(alloc, form, bytes)?;
    let declared = Declared {
        bytes,
        places: &found,
    };
    sites_at(alloc, form, &declared)
}

// The texts at these places.
fn texts_at<'b>(
    alloc: Global,
    bytes: &'b [u8],
    places: &[Span],
) -> Result<Vec<&'b [u8]>, AllocError>
    ensures { IfOk result (λ texts. map (λ t. t.now) texts.items ≡ texts_at bytes.now places.now) }
{
    let mut texts = Vec::new(alloc);
    for span in places {
        texts.push(text_at(bytes, *span))?;
    }
    Ok(texts)
}

// A text of a file that becomes another one.
#[derive(Clone, Copy)]
struct Change<'c> {
    bytes: &'c [u8],
    places: &'c [Span],
    number: usize,
    new: &'c [u8],
}

// The bytes with the new text at the place.
fn with_text(alloc: Global, bytes: &[u8], span: Span, new: &[u8]) -> Result<Vec<u8>, AllocError>
    ensures { IfOk result (λ mended. mended.items ≡ with_text bytes.now span new.now) }
{
    let mut mended = Vec::new(alloc);
    mended.extend_from_slice(before(bytes, span.start))?;
    mended.extend_from_slice(new)?;
    mended.extend_from_slice(behind(bytes, span.end))?;
    Ok(mended)
}

// What stands before a place.
fn before(bytes: &[u8], at: usize) -> &[u8]
    ensures { result.now ≡ take at bytes.now }
{
    match bytes.get(..at) {
        Some(before) => before,
        None => bytes,
    }
}

// What stands from a place on.
fn behind(bytes: &[u8], at: usize) -> &[u8]
    ensures { result.now ≡ drop at bytes.now }
{
    match bytes.get(at..) {
        Some(behind) => behind,
        None => &[],
    }
}

// The texts that are to be declared.
fn wanted_texts<'c>(alloc: Global, change: &Change<'c>) -> Result<Vec<&'c [u8]>, AllocError>
    requires { change.now.number < length change.now.places.now }
    ensures { IfOk result (λ texts. map (λ t. t.now) texts.items
        ≡ wanted change.now.bytes.now change.now.places.now change.now.number change.now.new.now) }
{
    let mut texts = texts_at(alloc, change.bytes, change.places)?;
    texts[change.number] = change.new;
    Ok(texts)
}

// Whether the file declares these texts.
fn reads_so(
    alloc: Global,
    form: PlainForm,
    texts: &[&[u8]],
    bytes: &[u8],
) -> Result<bool, AllocError>
    ensures so { IfOk result (λ answer. answer ≡ true →
        ReadsSo form (map (λ t. t.now) texts.now) bytes.now) }
    ensures other { IfOk result (λ answer. answer ≡ false →
        ReadsOther form (map (λ t. t.now) texts.now) bytes.now) }
{
    let found = places(alloc, form, bytes)?;
    let declared = texts_at(alloc, bytes, &found)?;
    Ok(are_texts(&declared, texts))
}

// Whether the texts are these ones.
fn are_texts(texts: &[&[u8]], wanted: &[&[u8]]) -> bool
    ensures same { result ≡ true → map (λ t. t.now) texts.now ≡ map (λ t. t.now) wanted.now }
    ensures other { result ≡ false → map (λ t. t.now) texts.now ≢ map (λ t. t.now) wanted.now }
{
    if texts.len() != wanted.len() {
        return false;
    }
    for index in 0..texts.len() {
        if texts[index] != wanted[index] {
            return false;
        }
    }
    true
}

// The mended bytes, if they declare what is wanted.
fn mended_at(
    alloc: Global,
    form: PlainForm,
    change: &Change<'_>,
    span: Span,
) -> Result<Option<Vec<u8>>, AllocError>
    requires { slice_get change.now.places.now change.now.number ≡ Some span }
    ensures spliced { IfOk result (λ answer. IfSome answer (λ mended.
        mended.items ≡ with_text change.now.bytes.now span change.now.new.now)) }
    ensures reads { IfOk result (λ answer. IfSome answer (λ mended.
        ReadsSo form (wanted change.now.bytes.now change.now.places.now
        change.now.number change.now.new.now) mended.items)) }
    ensures other { IfOk result (λ answer. IfNone answer
        (ReadsOther form (wanted change.now.bytes.now change.now.places.now
        change.now.number change.now.new.now)
        (with_text change.now.bytes.now span change.now.new.now))) }
{
    let mended = with_text(alloc, change.bytes, span, change.new)?;
    let texts = wanted_texts(alloc, change)?;
    if reads_so(alloc, form, &texts, &mended)? {
        Ok(Some(mended))
    } else {
        Ok(None)
    }
}

/// The bytes with another text in place of the declared one of that number. Every other byte stays. What is written is read
/// again: it declares what it declared before, but for that text. `None` exactly where no text has the number, or with the new
/// text in its place as it is the file would declare something else.
///
/// The bytes are read twice. Linear in them.
///
/// # Errors
///
/// Memory was refused.
pub fn with_plain_text(
    alloc: Global,
    form: PlainForm,
    bytes: &[u8],
    number: usize,
    new: &str,
) -> Result<Option<Vec<u8>>, AllocError>
    ensures mends { IfOk result (λ answer. IfSome answer (λ mended.
        MendsPlain form bytes.now number new.now mended.items)) }
    ensures stays { IfOk result (λ answer. IfNone answer
        (StaysPlain form bytes.now number new.now)) }
{
    let found = places(alloc, form, bytes)?;
    let Some(span) = found.get(number) else {
        return Ok(None);
    };
    let change = Change {
        bytes,
        places: &found,
        number,
        new: new.as_bytes(),
    };
    match mended_at(alloc, form, &change, *span)? {
        Some(mended) => Ok(Some(mended)),
        None => Ok(None),
    }
}
