// The references of a license's text.

ghost use Rattle.std.specs.Prelude.{◌≡◌, ◌≤◌, IfOk, length, map, take_while};
ghost use Rattle.std.specs.List.{prefix_len};
ghost use Rattle.package_files.specs.Texts as spec;

use std::alloc::{AllocError, Global};
use std::str::from_utf8;

// Whether a name may have the byte.
fn is_name_byte(byte: u8) -> bool
    ensures { result ≡ spec.is_name_byte byte }
{
    byte.is_ascii_alphanumeric() || byte == b'.' || byte == b'-'
}

// Whether a reference begins where the text goes on so, behind that byte.
fn begins_behind(before: u8, text: &[u8]) -> bool
    ensures { result ≡ spec.begins_behind before text.now }
{
    text.starts_with(b"LicenseRef-") && !is_name_byte(before) && before != b':'
}

// How many bytes the name has that the text goes on with.
fn name_len(text: &[u8]) -> usize
    ensures value { result ≡ prefix_len spec.is_name_byte text.now }
    ensures within { result ≤ length text.now }
{
    text.iter().take_while(|byte| is_name_byte(**byte)).count()
}

// The name that the text goes on with.
fn name_at(text: &[u8]) -> &str
    ensures { result.now ≡ take_while spec.is_name_byte text.now }
{
    match from_utf8(&text[..name_len(text)]) {
        Ok(name) => name,
        Err(_) => unreachable!(),
    }
}

/// The references of a text, in their order.
pub(crate) fn references_in(alloc: Global, text: &str) -> Result<Vec<&str>, AllocError>
    ensures { IfOk result (λ v. map (λ t. t.now) v.items ≡ spec.references_in text.now) }
{
    let mut references = Vec::new(alloc);
    let mut before = b' ';
    let mut rest = text.as_bytes();
    while let [byte, more @ ..] = rest {
        if begins_behind(before, rest) {
            references.push(name_at(rest))?;
        }
        before = *byte;
        rest = more;
    }
    Ok(references)
}
