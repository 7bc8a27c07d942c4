// What a source file has as text.

ghost use Rattle.std.specs.Prelude.{◌≡◌, IfOk, option_map, string_bytes};
ghost use Rattle.check_sources.specs.Decoding as spec;

use std::alloc::{AllocError, Global};

/// The text of a file in UTF-16, which a byte order mark at its beginning tells; none of other files.
///
/// # Errors
///
/// Memory was refused.
pub fn utf16_text(alloc: Global, bytes: &[u8]) -> Result<Option<String>, AllocError>
    ensures { IfOk result (λ text. option_map string_bytes text ≡ spec.utf16_text bytes.now) }
{
    if bytes.starts_with(b"\xff\xfe") {
        return Ok(Some(text_of_pairs(alloc, true, &bytes[2..])?));
    }
    if bytes.starts_with(b"\xfe\xff") {
        return Ok(Some(text_of_pairs(alloc, false, &bytes[2..])?));
    }
    Ok(None)
}

fn text_of_pairs(alloc: Global, is_little: bool, bytes: &[u8]) -> Result<String, AllocError>
    ensures { IfOk result (λ text. string_bytes text ≡ spec.text_of_pairs is_little bytes.now) }
{
    let units = units_in(alloc, is_little, bytes)?;
    String::from_utf16_lossy(alloc, &units)
}

// The units of two bytes each; an odd byte at the end is none.
fn units_in(alloc: Global, is_little: bool, bytes: &[u8]) -> Result<Vec<u16>, AllocError>
    ensures { IfOk result (λ units. units.items ≡ spec.units_in is_little bytes.now) }
{
    let mut units = Vec::new(alloc);
    let mut rest = bytes;
    while let [one, other, behind @ ..] = rest {
        units.push(unit_of(is_little, *one, *other))?;
        rest = behind;
    }
    Ok(units)
}

fn unit_of(is_little: bool, one: u8, other: u8) -> u16
    ensures { result ≡ spec.unit_of is_little one other }
{
    if is_little {
        u16::from(other) * 256 + u16::from(one)
    } else {
        u16::from(one) * 256 + u16::from(other)
    }
}

/// The bytes behind a byte order mark of UTF-8 at their beginning.
pub fn without_mark(bytes: &[u8]) -> &[u8]
    ensures { result.now ≡ spec.without_mark bytes.now }
{
    if bytes.starts_with(b"\xef\xbb\xbf") {
        return &bytes[3..];
    }
    bytes
}

/// The bytes of a file as UTF-8 where they were decoded, else as they are, without a byte order mark.
pub fn bytes_or<'b>(text: &'b Option<String>, bytes: &'b [u8]) -> &'b [u8]
    ensures { option_map string_bytes text.now ≡ spec.utf16_text bytes.now →
        result.now ≡ spec.source_bytes bytes.now }
{
    match text {
        Some(text) => text.as_bytes(),
        None => without_mark(bytes),
    }
}
