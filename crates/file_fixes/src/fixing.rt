// The expressions of a text, replaced by their fixes.

ghost use Rattle.std.specs.Prelude.{◌≡◌, IfOk, true, false, All, Any, length};
ghost use Rattle.spdx_lexer.specs.Modes.{strict};
ghost use Rattle.spdx_canonical.specs.Fix.{Reads};
ghost use Rattle.file_fixes.specs.Mending.{AreInOrder, marked};
ghost use Rattle.file_fixes.specs.Spans.{line_spans, tag_spans};
ghost use Rattle.file_fixes.specs.Fixing.{FixLaws, IsFixed, IsRead, IsRefused, text_at, texts_in};

use crate::mending::fix_all;
use crate::spans::{line_spans, tag_spans};
use crate::{FixedText, Span};
use spdx_catalogue::Catalogue;
use spdx_lexer::{Failure, ParseMode};
use spdx_parser::parse_nodes;
use std::alloc::{AllocError, Global};

// Whether strict reading accepts the text.
fn reads(alloc: Global, catalogue: &Catalogue, text: &str) -> Result<bool, AllocError>
    ensures yes { IfOk result (λ is. is ≡ true → Reads catalogue.now strict text.now) }
    ensures no { IfOk result (λ is. is ≡ false → Reads catalogue.now strict text.now → ⊥) }
{
    match parse_nodes(alloc, catalogue, text, ParseMode::STRICT) {
        Ok(_) => Ok(true),
        Err(Failure::Refused(_)) => Ok(false),
        Err(Failure::Memory(error)) => Err(error),
    }
}

// Whether strict reading accepts the bytes.
fn is_read(alloc: Global, catalogue: &Catalogue, bytes: &[u8]) -> Result<bool, AllocError>
    ensures yes { IfOk result (λ is. is ≡ true → IsRead catalogue.now bytes.now) }
    ensures no { IfOk result (λ is. is ≡ false → IsRefused catalogue.now bytes.now) }
{
    match str::from_utf8(bytes) {
        Ok(text) => reads(alloc, catalogue, text),
        Err(_) => Ok(false),
    }
}

// The bytes at a span; one past the end counts as the end.
fn text_at(bytes: &[u8], span: Span) -> &[u8]
    ensures { result.now ≡ text_at bytes.now span }
{
    let behind = &bytes[span.start.min(bytes.len())..];
    &behind[..span.end.saturating_sub(span.start).min(behind.len())]
}

// Whether strict reading refuses one of the expressions that stand at these spans.
fn is_refused(
    alloc: Global,
    catalogue: &Catalogue,
    bytes: &[u8],
    spans: &[Span],
) -> Result<bool, AllocError>
    ensures yes { IfOk result (λ is. is ≡ true
        → Any (IsRefused catalogue.now) (texts_in (marked bytes.now spans.now))) }
    ensures no { IfOk result (λ is. is ≡ false
        → All (IsRead catalogue.now) (texts_in (marked bytes.now spans.now))) }
{
    for span in spans {
        if !is_read(alloc, catalogue, text_at(bytes, *span))? {
            return Ok(true);
        }
    }
    Ok(false)
}

// What becomes of a text whose expressions stand at these spans.
fn fix_at(
    alloc: Global,
    catalogue: &Catalogue,
    bytes: &[u8],
    spans: &[Span],
) -> Result<FixedText, AllocError>
    requires { AreInOrder 0 spans.now (length bytes.now) }
    ensures fixed { IfOk result (IsFixed catalogue.now (marked bytes.now spans.now)) }
    ensures laws { IfOk result (FixLaws catalogue.now (marked bytes.now spans.now)) }
{
    let Some(mended) = fix_all(alloc, catalogue, bytes, spans)? else {
        unreachable!()
    };
    let is_left = is_refused(alloc, catalogue, &mended.bytes, &mended.spans)?;
    let bytes = if mended.count > 0 {
        Some(mended.bytes)
    } else {
        None
    };
    Ok(FixedText { bytes, is_left })
}

/// The text, with the expression of each line that has a fix (`spdx_canonical::fix`) replaced by it, and no other byte changed. The
/// expression of a line is the line without its newline and a carriage return before that (`spdx_check::expression_of`); a
/// line of nothing but ASCII white space has none. What strict reading accepts stays, and so does what has no fix or is no
/// UTF-8. Fixed again, with its expressions where they stand then, the text stays.
///
/// `bytes` is `None` where nothing is replaced, and `is_left` says whether an expression is refused that stands there then.
///
/// Linear in the bytes, besides the reading of the expressions.
///
/// # Errors
///
/// Memory was refused.
pub fn fix_lines(
    alloc: Global,
    catalogue: &Catalogue,
    bytes: &[u8],
) -> Result<FixedText, AllocError>
    ensures fixed { IfOk result (IsFixed catalogue.now
        (marked bytes.now (line_spans bytes.now))) }
    ensures laws { IfOk result (FixLaws catalogue.now
        (marked bytes.now (line_spans bytes.now))) }
{
    let spans = line_spans(alloc, bytes)?;
    fix_at(alloc, catalogue, bytes, &spans)
}

/// As `fix_lines`, of the expressions behind the license tags of a file of this path, which `license_tags::tags` gives. Bytes
/// that are no text, for a byte 0 stands among the first 8,192, have no tags.
///
/// Linear in the bytes, besides the reading of the expressions.
///
/// # Errors
///
/// Memory was refused.
pub fn fix_tags(
    alloc: Global,
    catalogue: &Catalogue,
    path: &str,
    bytes: &[u8],
) -> Result<FixedText, AllocError>
    ensures fixed { IfOk result (IsFixed catalogue.now
        (marked bytes.now (tag_spans path.now bytes.now))) }
    ensures laws { IfOk result (FixLaws catalogue.now
        (marked bytes.now (tag_spans path.now bytes.now))) }
{
    let spans = tag_spans(alloc, path, bytes)?;
    fix_at(alloc, catalogue, bytes, &spans)
}
