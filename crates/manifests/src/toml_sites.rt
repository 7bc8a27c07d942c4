// The expressions of a manifest of TOML, each at its place.

ghost use Rattle.std.specs.Prelude.{◌≡◌, ◌↔◌, ℕ, List, All, IfErr, IfNone, IfOk, IfSome, IsTrue, Some, true, map, option_and_then, option_map, slice_get};
ghost use Rattle.std.specs.List.Sorted.{IsStrictlyIncreasing};
ghost use Rattle.toml.specs.Parse.{parse_document};
ghost use Rattle.toml.specs.View.{table_view};
ghost use Rattle.toml_places.specs.Places.{ArePlaces, Stands, StandsNowhere};
ghost use Rattle.toml_places.specs.Paths.{text_at as toml_text_at};
ghost use Rattle.manifests.specs.Steps.{toml_steps};
ghost use Rattle.manifests.specs.Sites.{AreSitesOfToml, HasNone, IsErrorBy, IsFaultOfToml, IsInToml, LacksSite, numbers_of, paths_of_toml, quotes_at, texts_of_toml};
ghost use Rattle.manifests.specs.Sites as spec;
ghost use Rattle.toml_places.specs.declared.path.Path.{Path};
ghost use Rattle.manifests.specs.declared.form.Form.{Form};
ghost use Rattle.manifests.specs.declared.site.Site.{Site};

use crate::form::Form;
use crate::site::{Fault, ManifestError, Reason, Site, no_place, text_of};
use crate::toml_texts::{TomlTexts, cargo_texts, pyproject_texts, reuse_texts};
use std::alloc::{AllocError, Global};
use std::ops::Range;
use text_places::Span;
use toml::Table;
use toml_places::{Path, places, text_at, with_text};

// The text that the bytes are.
fn text_in(bytes: &[u8]) -> Result<&str, ManifestError>
    ensures ok { IfOk result (λ text. text.now ≡ bytes.now) }
    ensures err { (form : Form) → IfErr result (IsErrorBy (IsFaultOfToml form bytes.now)) }
{
    match str::from_utf8(bytes) {
        Ok(text) => Ok(text),
        Err(error) => Err(ManifestError::Refused(Fault {
            reason: Reason::NotUtf8,
            offset: error.valid_up_to(),
        })),
    }
}

// The document that the text is.
fn document_in(alloc: Global, text: &str) -> Result<Table, ManifestError>
    ensures ok { IfOk result (λ document. parse_document text.now ≡ Some (table_view document)) }
    ensures err { (form : Form) → IfErr result (IsErrorBy (IsFaultOfToml form text.now)) }
{
    match toml::table_from_str(alloc, text) {
        Ok(document) => Ok(document),
        Err(error) if error.is_memory() => Err(ManifestError::NoMemory),
        Err(error) => Err(ManifestError::Refused(Fault {
            reason: Reason::NotToml,
            offset: start_of(error.span()),
        })),
    }
}

fn start_of(span: Option<Range<usize>>) -> usize
    ensures some { IfSome span (λ range. result ≡ range.start) }
    ensures none { IfNone span (result ≡ 0) }
{
    match span {
        Some(span) => span.start,
        None => 0,
    }
}

// How many bytes of quotes stand before the text of the literal that starts there.
fn quotes_at(bytes: &[u8], start: usize) -> usize
    ensures { result ≡ quotes_at bytes.now start }
{
    let literal = bytes.get(start..).unwrap_or(&[]);
    if literal.starts_with(b"\"\"\"") || literal.starts_with(b"'''") {
        3
    } else {
        1
    }
}

// A document, with the bytes that it was read of, what it declares, and where that stands.
#[derive(Clone, Copy)]
struct Placed<'p> {
    text: &'p str,
    document: &'p Table,
    paths: &'p [Path<'static>],
    spans: &'p [Option<Span>],
}

fn path_of<'p>(paths: &'p [Path<'static>], number: usize) -> Option<&'p Path<'static>>
    ensures { option_map (λ path. path.now) result ≡ slice_get paths.now number }
{
    paths.get(number)
}

fn span_of(spans: &[Option<Span>], number: usize) -> Option<Span>
    ensures { result ≡ option_and_then (λ span. span) (slice_get spans.now number) }
{
    match spans.get(number) {
        Some(Some(span)) => Some(*span),
        _ => None,
    }
}

// The path of that number, and the place that was found for it.
fn place_at<'p>(placed: &Placed<'p>, number: usize) -> Option<(&'p Path<'static>, Span)>
    requires { ArePlaces placed.now.text.now (table_view placed.now.document.now)
        placed.now.paths.now placed.now.spans.now }
    ensures path { IfSome result (λ r. slice_get placed.now.paths.now number ≡ Some r.0.now) }
    ensures stands { IfSome result (λ r. Stands placed.now.text.now
        (table_view placed.now.document.now) r.0.now.steps.items r.1) }
    ensures nowhere { IfNone result ((path : Path) →
        slice_get placed.now.paths.now number ≡ Some path →
        StandsNowhere placed.now.text.now (table_view placed.now.document.now) path.steps.items) }
{
    let Some(path) = path_of(placed.paths, number) else {
        return None;
    };
    let Some(span) = span_of(placed.spans, number) else {
        return None;
    };
    Some((path, span))
}

// The site of the text of that number, where its place was found.
fn site_at(
    alloc: Global,
    placed: &Placed<'_>,
    number: usize,
    text: &str,
    texts: &[&str],
) -> Result<Option<Site>, AllocError>
    requires number { slice_get (map (λ t. t.now) texts.now) number ≡ Some text.now }
    requires places { ArePlaces placed.now.text.now (table_view placed.now.document.now)
        placed.now.paths.now placed.now.spans.now }
    ensures text { IfOk result (λ found. IfSome found (λ site. site.text.items ≡ text.now)) }
    ensures number { IfOk result (λ found. IfSome found (λ site. site.number ≡ number)) }
    ensures place { IfOk result (λ found. IfSome found
        (IsInToml placed.now.text.now (table_view placed.now.document.now)
        (map (λ t. t.now) texts.now) (map toml_steps placed.now.paths.now))) }
    ensures none { IfOk result (λ found. IfNone found (HasNone
        (IsInToml placed.now.text.now (table_view placed.now.document.now)
        (map (λ t. t.now) texts.now) (map toml_steps placed.now.paths.now)) number)) }
{
    let Some((path, span)) = place_at(placed, number) else {
        return Ok(None);
    };
    if !says(placed.document, path, text) {
        return Ok(None);
    }
    let mut bytes = Vec::new(alloc);
    bytes.extend_from_slice(text.as_bytes())?;
    Ok(Some(Site {
        span,
        quotes: quotes_at(placed.text.as_bytes(), span.start),
        number,
        text: bytes,
    }))
}

// Whether the document has this text at the path.
fn says(document: &Table, path: &Path<'_>, text: &str) -> bool
    ensures { IsTrue result
        ↔ (toml_text_at path.now.steps.items (table_view document.now) ≡ Some text.now) }
{
    match text_at(document, path) {
        Some(other) => other == text,
        None => false,
    }
}

// The sites of the texts; none where one of these has none.
fn sites_of(
    alloc: Global,
    placed: &Placed<'_>,
    texts: &[&str],
) -> Result<Option<Vec<Site>>, AllocError>
    requires { ArePlaces placed.now.text.now (table_view placed.now.document.now)
        placed.now.paths.now placed.now.spans.now }
    ensures texts { IfOk result (λ found. IfSome found (λ sites.
        map (λ (s : Site). s.text.items) sites.items ≡ map (λ t. t.now) texts.now)) }
    ensures places { IfOk result (λ found. IfSome found (λ sites.
        All (IsInToml placed.now.text.now (table_view placed.now.document.now)
        (map (λ t. t.now) texts.now) (map toml_steps placed.now.paths.now)) sites.items)) }
    ensures ascend { IfOk result (λ found. IfSome found (λ sites.
        IsStrictlyIncreasing (numbers_of sites.items))) }
    ensures lacks { IfOk result (λ found. IfNone found (LacksSite
        (IsInToml placed.now.text.now (table_view placed.now.document.now)
        (map (λ t. t.now) texts.now) (map toml_steps placed.now.paths.now))
        (λ text. true) (map (λ t. t.now) texts.now))) }
{
    let mut sites = Vec::new(alloc);
    for (number, text) in texts.iter().enumerate() {
        let Some(site) = site_at(alloc, placed, number, *text, texts)? else {
            return Ok(None);
        };
        sites.push(site)?;
    }
    Ok(Some(sites))
}

// What a document of this form declares.
fn declared_by<'d>(
    alloc: Global,
    form: Form,
    document: &'d Table,
) -> Result<TomlTexts<'d>, AllocError>
    ensures texts { IfOk result (λ found.
        map (λ t. t.now) found.texts.items ≡ texts_of_toml form (table_view document.now)) }
    ensures paths { IfOk result (λ found.
        map toml_steps found.paths.items ≡ paths_of_toml form (table_view document.now)) }
{
    match form {
        Form::Cargo => cargo_texts(alloc, document),
        Form::Pyproject => pyproject_texts(alloc, document),
        _ => reuse_texts(alloc, document),
    }
}

/// The expressions that a manifest of TOML declares, each at its place.
pub(crate) fn toml_sites(
    alloc: Global,
    form: Form,
    bytes: &[u8],
) -> Result<Vec<Site>, ManifestError>
    ensures ok { IfOk result (λ sites. AreSitesOfToml form bytes.now sites.items) }
    ensures err { IfErr result (IsErrorBy (IsFaultOfToml form bytes.now)) }
{
    let text = text_in(bytes)?;
    let document = document_in(alloc, text)?;
    let found = declared_by(alloc, form, &document)?;
    let spans = places(alloc, text, &document, found.paths.as_slice())?;
    let placed = Placed {
        text,
        document: &document,
        paths: found.paths.as_slice(),
        spans: spans.as_slice(),
    };
    match sites_of(alloc, &placed, found.texts.as_slice())? {
        Some(sites) => Ok(sites),
        None => Err(no_place()),
    }
}

/// The bytes with another text in place of the declared one of that number, in its literal's place.
pub(crate) fn toml_with(
    alloc: Global,
    form: Form,
    bytes: &[u8],
    number: usize,
    new: &str,
) -> Result<Option<Vec<u8>>, ManifestError>
    ensures ok { IfOk result (λ answer. IfSome answer (λ mended.
        spec.MendsToml form bytes.now number new.now mended.items)) }
    ensures none { IfOk result (λ answer. IfNone answer ((mended : List ℕ) →
        spec.MendsToml form bytes.now number new.now mended → ⊥)) }
    ensures err { IfErr result (IsErrorBy (IsFaultOfToml form bytes.now)) }
{
    let text = text_in(bytes)?;
    let document = document_in(alloc, text)?;
    let found = declared_by(alloc, form, &document)?;
    let spans = places(alloc, text, &document, found.paths.as_slice())?;
    let placed = Placed {
        text,
        document: &document,
        paths: found.paths.as_slice(),
        spans: spans.as_slice(),
    };
    let Some(old) = text_of(found.texts.as_slice(), number) else {
        return Ok(None);
    };
    Ok(changed_at(alloc, &placed, number, old, new)?)
}

// The bytes with another text in place of the one of that number.
fn changed_at(
    alloc: Global,
    placed: &Placed<'_>,
    number: usize,
    old: &str,
    new: &str,
) -> Result<Option<Vec<u8>>, AllocError>
    requires { ArePlaces placed.now.text.now (table_view placed.now.document.now)
        placed.now.paths.now placed.now.spans.now }
    ensures changed { IfOk result (λ answer. IfSome answer (λ mended.
        spec.ChangesToml placed.now.text.now (table_view placed.now.document.now)
        (slice_get (map toml_steps placed.now.paths.now) number)
        old.now new.now mended.items)) }
    ensures none { IfOk result (λ answer. IfNone answer ((mended : List ℕ) →
        spec.ChangesToml placed.now.text.now (table_view placed.now.document.now)
        (slice_get (map toml_steps placed.now.paths.now) number)
        old.now new.now mended → ⊥)) }
{
    let Some((path, span)) = place_at(placed, number) else {
        return Ok(None);
    };
    if !says(placed.document, path, old) {
        return Ok(None);
    }
    match with_text(alloc, placed.text, placed.document, path, span, new)? {
        Some(mended) => Ok(Some(mended.into_bytes())),
        None => Ok(None),
    }
}
