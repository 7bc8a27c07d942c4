// The expressions of a manifest of JSON, each at its place.

ghost use Rattle.std.specs.Prelude.{◌≡◌, ◌≤◌, ◌↔◌, length, ℕ, List, All, IfErr, IfNone, IfOk, IfSome, IsTrue, Some, true, filter, map, option_and_then, option_map, slice_get};
ghost use Rattle.std.specs.List.Sorted.{IsStrictlyIncreasing};
ghost use Rattle.serde_json.specs.Read.{read};
ghost use Rattle.serde_json.specs.View.{view};
ghost use Rattle.json_places.specs.Places.{ArePlaces, Stands, StandsNowhere};
ghost use Rattle.json_places.specs.Paths.{text_at as json_text_at};
ghost use Rattle.manifests.specs.Steps.{json_steps};
ghost use Rattle.manifests.specs.Sites.{AreSitesOfJson, HasNone, IsErrorBy, IsFaultOfJson, IsInJson, LacksSite, is_expression, numbers_of};
ghost use Rattle.manifests.specs.Sites as spec;
ghost use Rattle.json_places.specs.declared.path.Path.{Path};
ghost use Rattle.manifests.specs.declared.form.Form.{Form};
ghost use Rattle.manifests.specs.declared.site.Site.{Site};

use crate::form::Form;
use crate::json_texts::{JsonTexts, license_texts};
use crate::site::{Fault, ManifestError, Reason, Site, no_place, text_of};
use json_places::{Path, places, text_at, with_text};
use serde_json::Value;
use std::alloc::{AllocError, Global};
use text_places::Span;

fn is_word_of_npm(text: &str) -> bool
    ensures { result ≡ spec.is_word_of_npm text.now }
{
    text.as_bytes().starts_with(b"SEE LICENSE IN ") || text == "UNLICENSED"
}

// Whether a text is an expression, and no word of the form's own.
fn is_expression(form: Form, text: &str) -> bool
    ensures { result ≡ spec.is_expression form text.now }
{
    match form {
        Form::Npm => !is_word_of_npm(text),
        Form::Composer => text != "proprietary",
        _ => true,
    }
}

// The one value that the bytes hold.
fn document_in(alloc: Global, bytes: &[u8]) -> Result<Value, ManifestError>
    ensures ok { IfOk result (λ document. read bytes.now ≡ Some (view document)) }
    ensures err { (form : Form) → IfErr result (IsErrorBy (IsFaultOfJson form bytes.now)) }
{
    match Value::from_slice(alloc, bytes) {
        Ok(document) => Ok(document),
        Err(error) if error.is_memory() => Err(ManifestError::NoMemory),
        Err(error) => Err(ManifestError::Refused(Fault {
            reason: Reason::NotJson,
            offset: offset_of(bytes, error.line(), error.column()),
        })),
    }
}

// Where the column of a line begins, both counted from 1; the end where there is no such place.
fn offset_of(bytes: &[u8], line: usize, column: usize) -> usize
    ensures { result ≤ length bytes.now }
{
    let lines = bytes.split(|byte| *byte == b'\n');
    let before = lines.take(line.saturating_sub(1));
    let mut offset = column.saturating_sub(1);
    for line in before {
        offset = offset.saturating_add(line.len()).saturating_add(1);
    }
    offset.min(bytes.len())
}

// A document, with the bytes that it was read of, what it declares, and where that stands.
#[derive(Clone, Copy)]
struct Placed<'p> {
    bytes: &'p [u8],
    document: &'p Value,
    paths: &'p [Path<'static>],
    spans: &'p [Option<Span>],
}

fn path_of<'p>(paths: &'p [Path<'static>], number: usize) -> Option<&'p Path<'static>>
    ensures { option_map (λ path. path.now) result ≡ slice_get paths.now number }
{
    paths.get(number)
}

fn span_of(spans: &[Option<Span>], number: usize) -> Option<Span>
    ensures { result ≡ option_and_then (λ span. span) (slice_get spans.now number) }
{
    match spans.get(number) {
        Some(Some(span)) => Some(*span),
        _ => None,
    }
}

// The path of that number, and the place that was found for it.
fn place_at<'p>(placed: &Placed<'p>, number: usize) -> Option<(&'p Path<'static>, Span)>
    requires { ArePlaces placed.now.bytes.now (view placed.now.document.now)
        placed.now.paths.now placed.now.spans.now }
    ensures path { IfSome result (λ r. slice_get placed.now.paths.now number ≡ Some r.0.now) }
    ensures stands { IfSome result (λ r. Stands placed.now.bytes.now
        (view placed.now.document.now) r.0.now.steps.items r.1) }
    ensures nowhere { IfNone result ((path : Path) →
        slice_get placed.now.paths.now number ≡ Some path →
        StandsNowhere placed.now.bytes.now (view placed.now.document.now) path.steps.items) }
{
    let Some(path) = path_of(placed.paths, number) else {
        return None;
    };
    let Some(span) = span_of(placed.spans, number) else {
        return None;
    };
    Some((path, span))
}

// The site of the text of that number, where its place was found.
fn site_at(
    alloc: Global,
    placed: &Placed<'_>,
    number: usize,
    text: &str,
    texts: &[&str],
) -> Result<Option<Site>, AllocError>
    requires number { slice_get (map (λ t. t.now) texts.now) number ≡ Some text.now }
    requires places { ArePlaces placed.now.bytes.now (view placed.now.document.now)
        placed.now.paths.now placed.now.spans.now }
    ensures text { IfOk result (λ found. IfSome found (λ site. site.text.items ≡ text.now)) }
    ensures number { IfOk result (λ found. IfSome found (λ site. site.number ≡ number)) }
    ensures place { IfOk result (λ found. IfSome found
        (IsInJson placed.now.bytes.now (view placed.now.document.now)
        (map (λ t. t.now) texts.now) (map json_steps placed.now.paths.now))) }
    ensures none { IfOk result (λ found. IfNone found (HasNone
        (IsInJson placed.now.bytes.now (view placed.now.document.now)
        (map (λ t. t.now) texts.now) (map json_steps placed.now.paths.now)) number)) }
{
    let Some((path, span)) = place_at(placed, number) else {
        return Ok(None);
    };
    if !says(placed.document, path, text) {
        return Ok(None);
    }
    let mut bytes = Vec::new(alloc);
    bytes.extend_from_slice(text.as_bytes())?;
    Ok(Some(Site {
        span,
        quotes: 1,
        number,
        text: bytes,
    }))
}

// Whether the document has this text at the path.
fn says(document: &Value, path: &Path<'_>, text: &str) -> bool
    ensures { IsTrue result
        ↔ (json_text_at path.now.steps.items (view document.now) ≡ Some text.now) }
{
    match text_at(document, path) {
        Some(other) => other == text,
        None => false,
    }
}

// The sites of the texts that are expressions; none where one of these has none.
fn sites_of(
    alloc: Global,
    form: Form,
    placed: &Placed<'_>,
    texts: &[&str],
) -> Result<Option<Vec<Site>>, AllocError>
    requires { ArePlaces placed.now.bytes.now (view placed.now.document.now)
        placed.now.paths.now placed.now.spans.now }
    ensures texts { IfOk result (λ found. IfSome found (λ sites.
        map (λ (s : Site). s.text.items) sites.items
        ≡ filter (is_expression form) (map (λ t. t.now) texts.now))) }
    ensures places { IfOk result (λ found. IfSome found (λ sites.
        All (IsInJson placed.now.bytes.now (view placed.now.document.now)
        (map (λ t. t.now) texts.now) (map json_steps placed.now.paths.now)) sites.items)) }
    ensures ascend { IfOk result (λ found. IfSome found (λ sites.
        IsStrictlyIncreasing (numbers_of sites.items))) }
    ensures lacks { IfOk result (λ found. IfNone found (LacksSite
        (IsInJson placed.now.bytes.now (view placed.now.document.now)
        (map (λ t. t.now) texts.now) (map json_steps placed.now.paths.now))
        (is_expression form) (map (λ t. t.now) texts.now))) }
{
    let mut sites = Vec::new(alloc);
    for (number, text) in texts.iter().enumerate() {
        if is_expression(form, *text) {
            let Some(site) = site_at(alloc, placed, number, *text, texts)? else {
                return Ok(None);
            };
            sites.push(site)?;
        }
    }
    Ok(Some(sites))
}

/// The expressions that a manifest of JSON declares, each at its place.
pub(crate) fn json_sites(
    alloc: Global,
    form: Form,
    bytes: &[u8],
) -> Result<Vec<Site>, ManifestError>
    ensures ok { IfOk result (λ sites. AreSitesOfJson form bytes.now sites.items) }
    ensures err { IfErr result (IsErrorBy (IsFaultOfJson form bytes.now)) }
{
    let document = document_in(alloc, bytes)?;
    let found = license_texts(alloc, &document)?;
    let spans = places(alloc, bytes, &document, found.paths.as_slice())?;
    let placed = Placed {
        bytes,
        document: &document,
        paths: found.paths.as_slice(),
        spans: spans.as_slice(),
    };
    match sites_of(alloc, form, &placed, found.texts.as_slice())? {
        Some(sites) => Ok(sites),
        None => Err(no_place()),
    }
}

/// The bytes with another text in place of the declared one of that number, in its literal's place.
pub(crate) fn json_with(
    alloc: Global,
    bytes: &[u8],
    number: usize,
    new: &str,
) -> Result<Option<Vec<u8>>, ManifestError>
    ensures ok { IfOk result (λ answer. IfSome answer (λ mended.
        spec.MendsJson bytes.now number new.now mended.items)) }
    ensures none { IfOk result (λ answer. IfNone answer ((mended : List ℕ) →
        spec.MendsJson bytes.now number new.now mended → ⊥)) }
    ensures err { (form : Form) → IfErr result (IsErrorBy (IsFaultOfJson form bytes.now)) }
{
    let document = document_in(alloc, bytes)?;
    let found = license_texts(alloc, &document)?;
    let spans = places(alloc, bytes, &document, found.paths.as_slice())?;
    let placed = Placed {
        bytes,
        document: &document,
        paths: found.paths.as_slice(),
        spans: spans.as_slice(),
    };
    let Some(old) = text_of(found.texts.as_slice(), number) else {
        return Ok(None);
    };
    Ok(changed_at(alloc, &placed, number, old, new)?)
}

// The bytes with another text in place of the one of that number.
fn changed_at(
    alloc: Global,
    placed: &Placed<'_>,
    number: usize,
    old: &str,
    new: &str,
) -> Result<Option<Vec<u8>>, AllocError>
    requires { ArePlaces placed.now.bytes.now (view placed.now.document.now)
        placed.now.paths.now placed.now.spans.now }
    ensures changed { IfOk result (λ answer. IfSome answer (λ mended.
        spec.ChangesJson placed.now.bytes.now (view placed.now.document.now)
        (slice_get (map json_steps placed.now.paths.now) number)
        old.now new.now mended.items)) }
    ensures none { IfOk result (λ answer. IfNone answer ((mended : List ℕ) →
        spec.ChangesJson placed.now.bytes.now (view placed.now.document.now)
        (slice_get (map json_steps placed.now.paths.now) number)
        old.now new.now mended → ⊥)) }
{
    let Some((path, span)) = place_at(placed, number) else {
        return Ok(None);
    };
    if !says(placed.document, path, old) {
        return Ok(None);
    }
    match with_text(alloc, placed.bytes, placed.document, path, span, new)? {
        Some(mended) => Ok(Some(mended)),
        None => Ok(None),
    }
}
