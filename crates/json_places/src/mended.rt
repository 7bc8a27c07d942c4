// A text with another literal in it, certified by the reader.

ghost use Rattle.std.specs.Prelude.{◌≡◌, ◌↔◌, ◌≤◌, IfNone, IfOk, IfSome, IsTrue, length};
ghost use Rattle.serde_json.specs.View.{view};
ghost use Rattle.json_places.specs.Mended.{with_literal, IsMended};
ghost use Rattle.json_places.specs.Places.{IsLiteral};

use crate::changes::is_changed_document;
use crate::finding::is_literal;
use crate::path::{Path, text_at};
use serde_json::Value;
use std::alloc::{AllocError, Global};
use text_places::Span;

// The span is within the text, and a literal of the text at the path.
fn is_there(
    alloc: Global,
    bytes: &[u8],
    document: &Value,
    path: &Path<'_>,
    span: Span,
) -> Result<bool, AllocError>
    ensures { IfOk result (λ found. IsTrue found
        ↔ IsLiteral bytes.now (view document.now) path.now.steps.items span) }
{
    let Some(old) = text_at(document, path) else {
        return Ok(false);
    };
    if span.start > span.end || span.end > bytes.len() {
        return Ok(false);
    }
    is_literal(alloc, bytes, span, old)
}

// The bytes with a literal in place of the span.
fn with_literal(alloc: Global, bytes: &[u8], span: Span, new: &[u8]) -> Result<Vec<u8>, AllocError>
    requires ordered { span.start ≤ span.end }
    requires within { span.end ≤ length bytes.now }
    ensures { IfOk result (λ answer. answer.items ≡ with_literal bytes.now span new.now) }
{
    let mut answer = Vec::with_capacity(alloc, bytes.len())?;
    answer.extend_from_slice(&bytes[..span.start])?;
    answer.push(b'"')?;
    answer.extend_from_slice(new)?;
    answer.push(b'"')?;
    answer.extend_from_slice(&bytes[span.end..])?;
    Ok(answer)
}

/// The bytes with `new` in place of the literal at a span, in quotes. The literal has to be of the text at the path, and the answer is read as the old document with `new`
/// there and no other change. `None` exactly where that can't be: where `new` would need an escape or has a control character,
/// or where the document has no text at the path, or not that one at the span. `document` is what the bytes are read as.
/// Linear in the bytes and in `new`.
///
/// # Errors
///
/// Memory was refused.
pub fn with_text(
    alloc: Global,
    bytes: &[u8],
    document: &Value,
    path: &Path<'_>,
    span: Span,
    new: &str,
) -> Result<Option<Vec<u8>>, AllocError>
    ensures mended { IfOk result (λ answer. IfSome answer (λ answer.
        IsMended bytes.now (view document.now) path.now.steps.items span new.now
        answer.items)) }
    ensures refused { IfOk result (λ answer. IfNone answer (¬
        IsMended bytes.now (view document.now) path.now.steps.items span new.now
        (with_literal bytes.now span new.now))) }
{
    if !is_there(alloc, bytes, document, path, span)? {
        return Ok(None);
    }
    let answer = with_literal(alloc, bytes, span, new.as_bytes())?;
    match Value::from_slice(alloc, answer.as_slice()) {
        Ok(read) if is_changed_document(document, &read, path, new) => Ok(Some(answer)),
        Err(error) if error.is_memory() => Err(AllocError),
        _ => Ok(None),
    }
}
