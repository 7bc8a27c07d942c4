// The mended text, piece by piece.

ghost use Rattle.std.specs.Prelude.{◌≡◌, ◌+◌, ◌≤◌, ◌<◌, ◌^◌, ◌++◌, ◌∷◌, [], IfOk, OnOk, IfSome, OnSome, IsNone, is_some, option_map, unwrap_or, length, string_bytes, if◌then◌else◌};
ghost use Rattle.file_fixes.specs.Mending.{marked, IsFixOfBytes, AreInOrder, Mends, IsSettled};

use crate::{MendedText, Span};
use spdx_canonical::fix;
use spdx_catalogue::Catalogue;
use std::alloc::{AllocError, Global};

// The fix of bytes, which are no text perhaps.
fn fix_bytes(
    alloc: Global,
    catalogue: &Catalogue,
    bytes: &[u8],
) -> Result<Option<String>, AllocError>
    ensures { IfOk result (λ fix.
        IsFixOfBytes catalogue.now bytes.now (option_map string_bytes fix)) }
{
    match str::from_utf8(bytes) {
        Ok(text) => fix(alloc, catalogue, text),
        Err(_) => Ok(None),
    }
}

// Puts an expression behind what is mended: its fix, or itself where it has none.
fn put(mended: &mut MendedText, text: &[u8], fix: Option<String>) -> Result<(), AllocError>
    requires { mended.old.count + 1 < 2 ^ 64 }
    ensures bytes { OnOk result (mended.new.bytes.items
        ≡ mended.old.bytes.items ++ unwrap_or (option_map string_bytes fix) text.now) }
    ensures spans { OnOk result (mended.new.spans.items ≡ mended.old.spans.items
        ++ record {
          start = length mended.old.bytes.items;
          end = length mended.new.bytes.items;
        } ∷ []) }
    ensures count { OnOk result (mended.new.count
        ≡ mended.old.count + (if is_some fix then 1 else 0)) }
{
    let start = mended.bytes.len();
    match fix {
        Some(fix) => {
            mended.bytes.extend_from_slice(fix.as_bytes())?;
            mended.count += 1;
        }
        None => mended.bytes.extend_from_slice(text)?,
    }
    mended.spans.push(Span {
        start,
        end: mended.bytes.len(),
    })?;
    Ok(())
}

/// The text with each expression that has a fix (`spdx_canonical::fix`) replaced by it, and nothing else changed: `spans` says
/// where its expressions stand. An expression whose bytes are no UTF-8 has no fix. `None` where the spans aren't in order,
/// apart from one another and within the bytes; two may touch. Mended again, with the new spans, the text stays as it is.
///
/// Linear in the bytes, besides the reading of the expressions.
///
/// # Errors
///
/// Memory was refused.
pub fn fix_all(
    alloc: Global,
    catalogue: &Catalogue,
    bytes: &[u8],
    spans: &[Span],
) -> Result<Option<MendedText>, AllocError>
    ensures mends { IfOk result (λ answer. IfSome answer (λ mended.
        Mends catalogue.now (marked bytes.now spans.now)
        (marked mended.bytes.items mended.spans.items) mended.count)) }
    ensures settled { IfOk result (λ answer. IfSome answer (λ mended.
        IsSettled catalogue.now (marked mended.bytes.items mended.spans.items))) }
    ensures none { IfOk result (λ answer. IsNone answer →
        AreInOrder 0 spans.now (length bytes.now) → ⊥) }
    ensures in_order { IfOk result (λ answer. OnSome answer (
        AreInOrder 0 spans.now (length bytes.now))) }
{
    let mut mended = MendedText {
        bytes: Vec::new(alloc),
        spans: Vec::new(alloc),
        count: 0,
    };
    let mut at = 0;
    for span in spans {
        if span.start < at || span.end < span.start || bytes.len() < span.end {
            return Ok(None);
        }
        let text = &bytes[span.start..span.end];
        mended.bytes.extend_from_slice(&bytes[at..span.start])?;
        put(&mut mended, text, fix_bytes(alloc, catalogue, text)?)?;
        at = span.end;
    }
    mended.bytes.extend_from_slice(&bytes[at..])?;
    Ok(Some(mended))
}
