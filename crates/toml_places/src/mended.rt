// A text with another literal in it, certified by the reader.

ghost use Rattle.std.specs.Prelude.{◌≡◌, ◌≤◌, IfOk, IfSome, IfNone, length, string_bytes};
ghost use Rattle.toml.specs.View.{table_view};
ghost use Rattle.toml_places.specs.Mended.{quote_of, with_literal, IsMended};

use crate::changes::is_changed_document;
use crate::finding::is_literal_at;
use crate::path::Path;
use std::alloc::{AllocError, Global};
use text_places::Span;
use toml::Table;

// The quote for a literal in place of one that begins so.
fn quote_of(first: u8) -> u8
    ensures { result ≡ quote_of first }
{
    if first == b'\'' { b'\'' } else { b'"' }
}

// The bytes with a literal in place of the span.
fn with_literal(alloc: Global, bytes: &[u8], span: Span, new: &[u8]) -> Result<Vec<u8>, AllocError>
    requires ordered { span.start ≤ span.end }
    requires within { span.end ≤ length bytes.now }
    ensures { IfOk result (λ answer. answer.items ≡ with_literal bytes.now span new.now) }
{
    let quote = quote_of(bytes.get(span.start).copied().unwrap_or(0));
    let mut answer = Vec::with_capacity(alloc, bytes.len())?;
    answer.extend_from_slice(&bytes[..span.start])?;
    answer.push(quote)?;
    answer.extend_from_slice(new)?;
    answer.push(quote)?;
    answer.extend_from_slice(&bytes[span.end..])?;
    Ok(answer)
}

/// The text with `new` in place of the literal at a span, in quotes of the kind that it had (`'` stays `'`, all others
/// become `"`). The literal has to be of the text at the path, and the answer is read as the old document with `new`
/// there and no other change. `None` exactly where that can't be: where `new` would need an escape or has a control
/// character, or where the document has no text at the path, or not that one at the span. `document` is what `text` is
/// read as. Linear in the text and in `new`.
///
/// # Errors
///
/// Memory was refused.
pub fn with_text(
    alloc: Global,
    text: &str,
    document: &Table,
    path: &Path<'_>,
    span: Span,
    new: &str,
) -> Result<Option<String>, AllocError>
    ensures mended { IfOk result (λ answer. IfSome answer (λ answer.
        IsMended text.now (table_view document.now) path.now.steps.items span new.now
        (string_bytes answer))) }
    ensures refused { IfOk result (λ answer. IfNone answer (¬
        IsMended text.now (table_view document.now) path.now.steps.items span new.now
        (with_literal text.now span new.now))) }
{
    if !is_literal_at(alloc, text, span, document, path)? {
        return Ok(None);
    }
    let bytes = with_literal(alloc, text.as_bytes(), span, new.as_bytes())?;
    let Ok(answer) = String::from_utf8(bytes) else {
        return Ok(None);
    };
    match toml::table_from_str(alloc, answer.as_str()) {
        Ok(read) if is_changed_document(document, &read, path, new) => Ok(Some(answer)),
        Err(error) if error.is_memory() => Err(AllocError),
        _ => Ok(None),
    }
}
