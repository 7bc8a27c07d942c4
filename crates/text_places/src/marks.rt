//! A text with marks in place of its literals, by which it is told where each of them went when the text is read again.

ghost use Rattle.std.specs.Prelude.{◌≡◌, ◌≢◌, ℕ, ◌^◌, ◌<◌, ◌≤◌, ◌++◌, IfOk, OnOk, IfSome, IfNone, length, slice_range, string_bytes};
ghost use Rattle.text_places.specs.Marks.{mark, mark_text, marked};
ghost use Rattle.text_places.specs.Order.{AreInOrder};

use crate::Span;
use std::alloc::{AllocError, Global};

// The literal that marks a number.
fn mark(alloc: Global, number: usize) -> Result<String, AllocError>
    ensures { IfOk result (λ text. string_bytes text ≡ mark number) }
{
    format!(in alloc; "\"#{number}\"")
}

// Puts the bytes before a span behind a text, and the mark of its number.
fn put(
    text: &mut Vec<u8>,
    bytes: &[u8],
    offset: usize,
    start: usize,
    mark: &str,
) -> Result<(), AllocError>
    requires ordered { offset ≤ start }
    requires within { start ≤ length bytes.now }
    ensures { OnOk result (text.new.items
        ≡ text.old.items ++ (slice_range bytes.now offset start ++ mark.now)) }
{
    text.extend_from_slice(&bytes[offset..start])?;
    text.extend_from_slice(mark.as_bytes())
}

/// The text with each span replaced by the mark of its own number, `"#7"`. Linear.
///
/// # Errors
///
/// Memory was refused.
pub fn marked(alloc: Global, bytes: &[u8], spans: &[Span]) -> Result<Vec<u8>, AllocError>
    requires { AreInOrder 0 spans.now (length bytes.now) }
    ensures { IfOk result (λ text. text.items ≡ marked bytes.now spans.now) }
{
    let mut text = Vec::with_capacity(alloc, bytes.len())?;
    let mut offset = 0;
    for (number, span) in spans.iter().enumerate() {
        let mark = mark(alloc, number)?;
        put(&mut text, bytes, offset, span.start, mark.as_str())?;
        offset = span.end;
    }
    text.extend_from_slice(&bytes[offset..])?;
    Ok(text)
}

/// The number that a text marks, `#7`, if it marks one.
///
/// # Errors
///
/// Memory was refused.
pub fn number_of(alloc: Global, text: &str) -> Result<Option<usize>, AllocError>
    ensures some { IfOk result (λ found. IfSome found (λ number. text.now ≡ mark_text number)) }
    ensures none { IfOk result (λ found. IfNone found
        ((number : ℕ) → number < 2 ^ 64 → text.now ≢ mark_text number)) }
{
    let Some(digits) = text.strip_prefix("#") else {
        return Ok(None);
    };
    let Ok(number) = digits.parse::<usize>() else {
        return Ok(None);
    };
    let mark = format!(in alloc; "#{number}")?;
    Ok(if mark.as_str() == text {
        Some(number)
    } else {
        None
    })
}
