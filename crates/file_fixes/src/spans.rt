// Where the expressions of a text stand.

ghost use Rattle.std.specs.Prelude.{◌≡◌, ◌++◌, ◌∷◌, ◌+◌, ◌<◌, ◌≤◌, ◌^◌, IfOk, OnOk, length, drop, take};
ghost use Rattle.line_engine.specs.Lines.{lines_of};
ghost use Rattle.file_fixes.specs.Mending.{AreInOrder};
ghost use Rattle.spdx_check.specs.Checking.{is_blank};
ghost use Rattle.file_fixes.specs.Spans.{line_span, line_spans, span_of, tag_spans};

use crate::Span;
use check_sources::is_binary;
use license_tags::{Tag, comment_of, tags};
use memchr::memchr;
use spdx_check::expression_of;
use std::alloc::{AllocError, Global};

// How many bytes stand before the first newline.
fn line_len(bytes: &[u8]) -> usize
    ensures lines { 0 < length bytes.now →
        lines_of bytes.now ≡ take result bytes.now ∷ lines_of (drop (result + 1) bytes.now) }
    ensures within { result ≤ length bytes.now }
{
    memchr(b'\n', bytes).unwrap_or(bytes.len())
}

// What stands behind the first bytes and one more.
fn behind(bytes: &[u8], len: usize) -> &[u8]
    ensures { result.now ≡ drop (len + 1) bytes.now }
{
    match bytes.get(len..) {
        Some([_, rest @ ..]) => rest,
        _ => &[],
    }
}

// Whether it is nothing but ASCII white space.
fn is_blank(expression: &[u8]) -> bool
    ensures { result ≡ is_blank expression.now }
{
    expression.iter().all(|byte| byte.is_ascii_whitespace())
}

// Appends the place of the expression of a line that begins at this offset, unless it is blank.
fn put_span(spans: &mut Vec<Span>, offset: usize, line: &[u8]) -> Result<(), AllocError>
    requires { offset + length line.now < 2 ^ 64 }
    ensures { OnOk result
        (spans.new.items ≡ spans.old.items ++ line_span offset line.now) }
{
    let expression = expression_of(line);
    if !is_blank(expression) {
        spans.push(Span {
            start: offset,
            end: offset + expression.len(),
        })?;
    }
    Ok(())
}

/// Where the expressions of the lines stand; a blank line has none.
pub(crate) fn line_spans(alloc: Global, bytes: &[u8]) -> Result<Vec<Span>, AllocError>
    ensures value { IfOk result (λ spans. spans.items ≡ line_spans bytes.now) }
    ensures in_order { IfOk result (λ spans. AreInOrder 0 spans.items (length bytes.now)) }
{
    let mut spans = Vec::new(alloc);
    let mut rest = bytes;
    let mut offset = 0;
    while !rest.is_empty() {
        let len = line_len(rest);
        put_span(&mut spans, offset, &rest[..len])?;
        rest = behind(rest, len);
        offset += len + 1;
    }
    Ok(spans)
}

fn span_of(tag: Tag) -> Span
    ensures { result ≡ span_of tag }
{
    Span {
        start: tag.start,
        end: tag.end,
    }
}

/// Where the expressions behind the license tags of a file of this path stand; bytes that are no text have none.
pub(crate) fn tag_spans(alloc: Global, path: &str, bytes: &[u8]) -> Result<Vec<Span>, AllocError>
    ensures value { IfOk result (λ spans. spans.items ≡ tag_spans path.now bytes.now) }
    ensures in_order { IfOk result (λ spans. AreInOrder 0 spans.items (length bytes.now)) }
{
    let mut spans = Vec::new(alloc);
    if is_binary(bytes) {
        return Ok(spans);
    }
    for tag in tags(alloc, bytes, comment_of(path))? {
        spans.push(span_of(tag))?;
    }
    Ok(spans)
}
