// The places of texts, certified by the reader.

ghost use Rattle.std.specs.Prelude.{◌≡◌, ◌≢◌, ◌↔◌, ℕ, ◌^◌, ◌<◌, Some, None, IsTrue, IsUtf8, IfOk, IfSome, IfNone, length, slice_get};
ghost use Rattle.toml.specs.Data.{string};
ghost use Rattle.toml.specs.Parse.{parse_document, parse_value};
ghost use Rattle.toml.specs.View.{view, table_view};
ghost use Rattle.toml_places.specs.Literals.{literals};
ghost use Rattle.toml_places.specs.Paths as spec;
ghost use Rattle.toml_places.specs.Places.{IsLiteral, IsPlace, ArePlaces};
ghost use Rattle.text_places.specs.Marks.{mark_text, marked};
ghost use Rattle.text_places.specs.Order.{AreInOrder};

use crate::literals::literals;
use crate::path::{Path, text_at};
use std::alloc::{AllocError, Global};
use text_places::Span;
use text_places::marks::{marked, number_of};
use toml::{Table, Value};

fn span_at(spans: &[Span], number: usize) -> Option<Span>
    ensures { result ≡ slice_get spans.now number }
{
    spans.get(number).copied()
}

// The bytes are a literal of the text.
fn is_literal(alloc: Global, bytes: &[u8], text: &str) -> Result<bool, AllocError>
    ensures { IfOk result (λ found. IsTrue found
        ↔ (IsUtf8 bytes.now × (parse_value bytes.now ≡ Some (string text.now)))) }
{
    let Ok(literal) = std::str::from_utf8(bytes) else {
        return Ok(false);
    };
    match Value::from_str(alloc, literal) {
        Ok(value) => Ok(value.as_str() == Some(text)),
        Err(error) if error.is_memory() => Err(AllocError),
        Err(_) => Ok(false),
    }
}

/// Whether the span is a literal of the text at the path.
pub(crate) fn is_literal_at(
    alloc: Global,
    text: &str,
    span: Span,
    document: &Table,
    path: &Path<'_>,
) -> Result<bool, AllocError>
    ensures { IfOk result (λ found. IsTrue found
        ↔ IsLiteral text.now (table_view document.now) path.now.steps.items span) }
{
    let Some(value) = text_at(document, path) else {
        return Ok(false);
    };
    if span.start > span.end || span.end > text.len() {
        return Ok(false);
    }
    is_literal(alloc, &text.as_bytes()[span.start..span.end], value)
}

// The document that the text with marks is, if it is one.
fn marked_document(alloc: Global, text: &str, spans: &[Span]) -> Result<Option<Table>, AllocError>
    requires in_order { AreInOrder 0 spans.now (length text.now) }
    requires spans { spans.now ≡ literals text.now }
    ensures is_text { IfOk result (λ found. IfSome found (λ _.
        IsUtf8 (marked text.now (literals text.now)))) }
    ensures reads { IfOk result (λ found. IfSome found (λ marks.
        parse_document (marked text.now (literals text.now)) ≡ Some (table_view marks))) }
    ensures unread { IfOk result (λ found. IfNone found (
        IsUtf8 (marked text.now (literals text.now))
        → parse_document (marked text.now (literals text.now)) ≡ None)) }
{
    let bytes = marked(alloc, text.as_bytes(), spans)?;
    match toml::table_from_slice(alloc, bytes.as_slice()) {
        Ok(document) => Ok(Some(document)),
        Err(error) if error.is_memory() => Err(AllocError),
        Err(_) => Ok(None),
    }
}

// The number whose mark stands at the path of the document with marks, and not of the document itself.
fn number_at(
    alloc: Global,
    document: &Table,
    marks: &Table,
    path: &Path<'_>,
) -> Result<Option<usize>, AllocError>
    ensures after { IfOk result (λ found. IfSome found (λ number.
        spec.text_at path.now.steps.items (table_view marks.now) ≡ Some (mark_text number))) }
    ensures before { IfOk result (λ found. IfSome found (λ number.
        spec.text_at path.now.steps.items (table_view document.now)
        ≢ Some (mark_text number))) }
    ensures none { IfOk result (λ found. IfNone found ((number : ℕ) → number < 2 ^ 64
        → spec.text_at path.now.steps.items (table_view marks.now) ≡ Some (mark_text number)
        → spec.text_at path.now.steps.items (table_view document.now)
        ≡ Some (mark_text number))) }
{
    let Some(mark) = text_at(marks, path) else {
        return Ok(None);
    };
    if text_at(document, path) == Some(mark) {
        return Ok(None);
    }
    number_of(alloc, mark)
}

// The literal that a path means, whose number stands at the path of the marked document.
fn place(
    alloc: Global,
    text: &str,
    document: &Table,
    spans: &[Span],
    marks: &Option<Table>,
    path: &Path<'_>,
) -> Result<Option<Span>, AllocError>
    requires spans { spans.now ≡ literals text.now }
    requires is_text { IfSome marks.now (λ _. IsUtf8 (marked text.now (literals text.now))) }
    requires reads { IfSome marks.now (λ marks.
        parse_document (marked text.now (literals text.now)) ≡ Some (table_view marks)) }
    requires unread { IfNone marks.now (IsUtf8 (marked text.now (literals text.now))
        → parse_document (marked text.now (literals text.now)) ≡ None) }
    ensures { IfOk result (IsPlace text.now (table_view document.now) path.now.steps.items) }
{
    let Some(marks) = marks else {
        return Ok(None);
    };
    let Some(number) = number_at(alloc, document, marks, path)? else {
        return Ok(None);
    };
    let Some(span) = span_at(spans, number) else {
        return Ok(None);
    };
    let is_there = is_literal_at(alloc, text, span, document, path)?;
    Ok(if is_there { Some(span) } else { None })
}

// The places at the paths, one after the other.
fn places_among(
    alloc: Global,
    text: &str,
    document: &Table,
    spans: &[Span],
    marks: &Option<Table>,
    paths: &[Path<'_>],
) -> Result<Vec<Option<Span>>, AllocError>
    requires spans { spans.now ≡ literals text.now }
    requires is_text { IfSome marks.now (λ _. IsUtf8 (marked text.now (literals text.now))) }
    requires reads { IfSome marks.now (λ marks.
        parse_document (marked text.now (literals text.now)) ≡ Some (table_view marks)) }
    requires unread { IfNone marks.now (IsUtf8 (marked text.now (literals text.now))
        → parse_document (marked text.now (literals text.now)) ≡ None) }
    ensures { IfOk result (λ found.
        ArePlaces text.now (table_view document.now) paths.now found.items) }
{
    let mut found = Vec::with_capacity(alloc, paths.len())?;
    for path in paths {
        found.push(place(alloc, text, document, spans, marks, path)?)?;
    }
    Ok(found)
}

/// Where the texts at these paths stand, one answer a path, in order: the bytes of the literal, with its quotes. `None`
/// where no literal stands there: where the document has no text at the path, or the scan and the reader disagree, or the
/// text is itself a mark, as `#7`. `document` is what `text` is read as. It reads the text once more, with a mark in place
/// of each literal, and is linear in the text and the paths.
///
/// # Errors
///
/// Memory was refused.
pub fn places(
    alloc: Global,
    text: &str,
    document: &Table,
    paths: &[Path<'_>],
) -> Result<Vec<Option<Span>>, AllocError>
    ensures { IfOk result (λ found.
        ArePlaces text.now (table_view document.now) paths.now found.items) }
{
    let spans = literals(alloc, text.as_bytes())?;
    let spans = spans.as_slice();
    let marks = marked_document(alloc, text, spans)?;
    places_among(alloc, text, document, spans, &marks, paths)
}
