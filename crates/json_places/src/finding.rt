// The places of texts, certified by the reader.

ghost use Rattle.std.specs.Prelude.{◌≡◌, ◌≢◌, ◌↔◌, ◌<◌, ◌≤◌, ◌^◌, ℕ, Some, IsTrue, IfOk, IfSome, IfNone, length, slice_get, slice_range};
ghost use Rattle.serde_json.specs.Data.{Data, string};
ghost use Rattle.serde_json.specs.View.{view};
ghost use Rattle.json_places.specs.Literals.{literals};
ghost use Rattle.json_places.specs.Paths.{text_at as path_text};
ghost use Rattle.json_places.specs.Places.{ArePlaces, IsPlace, IsRead};
ghost use Rattle.text_places.specs.Marks.{mark_text, marked};
ghost use Rattle.text_places.specs.Order.{AreInOrder};

use crate::literals::literals;
use crate::path::{Path, text_at};
use serde_json::Value;
use std::alloc::{AllocError, Global};
use text_places::Span;
use text_places::marks::{marked, number_of};

fn is_same_text(one: &str, other: &str) -> bool
    ensures { IsTrue result ↔ (one.now ≡ other.now) }
{
    one == other
}

fn span_at(spans: &[Span], number: usize) -> Option<Span>
    ensures { result ≡ slice_get spans.now number }
{
    spans.get(number).copied()
}

/// Whether the literal of a text stands there.
pub(crate) fn is_literal(
    alloc: Global,
    bytes: &[u8],
    span: Span,
    text: &str,
) -> Result<bool, AllocError>
    requires ordered { span.start ≤ span.end }
    requires within { span.end ≤ length bytes.now }
    ensures { IfOk result (λ found. IsTrue found
        ↔ IsRead (slice_range bytes.now span.start span.end) (string text.now)) }
{
    match Value::from_slice(alloc, &bytes[span.start..span.end]) {
        Ok(value) => Ok(value.as_str() == Some(text)),
        Err(error) if error.is_memory() => Err(AllocError),
        Err(_) => Ok(false),
    }
}

// The document that the text with marks is, if it is one.
fn marked_document(alloc: Global, bytes: &[u8], spans: &[Span]) -> Result<Option<Value>, AllocError>
    requires { AreInOrder 0 spans.now (length bytes.now) }
    ensures some { IfOk result (λ found. IfSome found (λ marks.
        IsRead (marked bytes.now spans.now) (view marks))) }
    ensures none { IfOk result (λ found. IfNone found
        ((marks : Data) → ¬ IsRead (marked bytes.now spans.now) marks)) }
{
    let marks = marked(alloc, bytes, spans)?;
    match Value::from_slice(alloc, marks.as_slice()) {
        Ok(document) => Ok(Some(document)),
        Err(error) if error.is_memory() => Err(AllocError),
        Err(_) => Ok(None),
    }
}

// The number of the mark that stands at a path in place of this text.
fn number_at(
    alloc: Global,
    text: &str,
    marks: &Value,
    path: &Path<'_>,
) -> Result<Option<usize>, AllocError>
    ensures marked { IfOk result (λ found. IfSome found (λ n.
        path_text path.now.steps.items (view marks.now) ≡ Some (mark_text n))) }
    ensures other { IfOk result (λ found. IfSome found (λ n. text.now ≢ mark_text n)) }
    ensures none { IfOk result (λ found. IfNone found ((n : ℕ) → n < 2 ^ 64
        → path_text path.now.steps.items (view marks.now) ≡ Some (mark_text n)
        → text.now ≡ mark_text n)) }
{
    let Some(mark) = text_at(marks, path) else {
        return Ok(None);
    };
    if is_same_text(text, mark) {
        return Ok(None);
    }
    number_of(alloc, mark)
}

// The literal that a path means, whose number stands at the path of the marked document.
fn place(
    alloc: Global,
    bytes: &[u8],
    document: &Value,
    spans: &[Span],
    marks: &Option<Value>,
    path: &Path<'_>,
) -> Result<Option<Span>, AllocError>
    requires literals { spans.now ≡ literals bytes.now }
    requires some { IfSome marks.now (λ marks.
        IsRead (marked bytes.now (literals bytes.now)) (view marks)) }
    requires none { IfNone marks.now
        ((marks : Data) → ¬ IsRead (marked bytes.now (literals bytes.now)) marks) }
    ensures { IfOk result (IsPlace bytes.now (view document.now) path.now.steps.items) }
{
    let (Some(marks), Some(text)) = (marks, text_at(document, path)) else {
        return Ok(None);
    };
    let Some(number) = number_at(alloc, text, marks, path)? else {
        return Ok(None);
    };
    let Some(span) = span_at(spans, number) else {
        return Ok(None);
    };
    let is_same = is_literal(alloc, bytes, span, text)?;
    Ok(if is_same { Some(span) } else { None })
}

// The places at the paths, one after the other.
fn places_among(
    alloc: Global,
    bytes: &[u8],
    document: &Value,
    spans: &[Span],
    marks: &Option<Value>,
    paths: &[Path<'_>],
) -> Result<Vec<Option<Span>>, AllocError>
    requires literals { spans.now ≡ literals bytes.now }
    requires some { IfSome marks.now (λ marks.
        IsRead (marked bytes.now (literals bytes.now)) (view marks)) }
    requires none { IfNone marks.now
        ((marks : Data) → ¬ IsRead (marked bytes.now (literals bytes.now)) marks) }
    ensures { IfOk result (λ found.
        ArePlaces bytes.now (view document.now) paths.now found.items) }
{
    let mut found = Vec::with_capacity(alloc, paths.len())?;
    for path in paths {
        found.push(place(alloc, bytes, document, spans, marks, path)?)?;
    }
    Ok(found)
}

/// Where the texts at these paths stand, one answer a path, in order: the bytes of the literal, with its quotes. `None`
/// where no literal stands there: the document has no text at the path, or that text is a mark itself, as `#7`, or the
/// scan and the reader disagree. `document` is what the bytes are read as.
///
/// It reads the bytes once more, with a mark in place of each literal, and is linear in the bytes and the paths.
///
/// # Errors
///
/// Memory was refused.
pub fn places(
    alloc: Global,
    bytes: &[u8],
    document: &Value,
    paths: &[Path<'_>],
) -> Result<Vec<Option<Span>>, AllocError>
    ensures { IfOk result (λ found.
        ArePlaces bytes.now (view document.now) paths.now found.items) }
{
    let spans = literals(alloc, bytes)?;
    let spans = spans.as_slice();
    let marks = marked_document(alloc, bytes, spans)?;
    places_among(alloc, bytes, document, spans, &marks, paths)
}
