// Texts as they are shown.

ghost use Rattle.std.specs.Prelude.{◌≡◌, ◌++◌, IfOk, OnOk, Option};
ghost use Rattle.std.specs.Option.{option_copied};
ghost use Rattle.owed_texts.specs.Plain as spec;
ghost use Rattle.owed_texts.specs.Plain.{piece_of, plain_if, spaced};

use foreign_text::{Sink, text_for};
use std::alloc::{AllocError, Global};

/// The text as it is, or plain: without what a terminal obeys but newlines: a tab as blanks, what turns the page left out, and
/// any other such character by its number.
///
/// # Errors
///
/// Memory was refused.
pub fn plain_if(alloc: Global, is_plain: bool, bytes: Vec<u8>) -> Result<Vec<u8>, AllocError>
    ensures { IfOk result (λ text. text.items ≡ plain_if is_plain bytes.items) }
{
    if is_plain {
        plain(alloc, &bytes)
    } else {
        Ok(bytes)
    }
}

fn plain(alloc: Global, bytes: &[u8]) -> Result<Vec<u8>, AllocError>
    ensures { IfOk result (λ text. text.items ≡ spec.plain bytes.now) }
{
    let read = String::from_utf8_lossy(alloc, bytes)?;
    let spaced = spaced(alloc, read.as_bytes())?;
    let again = String::from_utf8_lossy(alloc, &spaced)?;
    let text = text_for(alloc, Sink::Lines, again.as_str())?;
    Ok(text.into_bytes())
}

fn spaced(alloc: Global, bytes: &[u8]) -> Result<Vec<u8>, AllocError>
    ensures { IfOk result (λ text. text.items ≡ spaced bytes.now) }
{
    let mut text = Vec::new(alloc);
    for (place, byte) in bytes.iter().enumerate() {
        text.extend_from_slice(piece_of(byte, bytes.get(place + 1)))?;
    }
    Ok(text)
}

// What stands in the place of a byte, by the one behind it.
fn piece_of<'b>(byte: &'b u8, next: Option<&u8>) -> &'b [u8]
    ensures { result.now ≡ piece_of byte.now (option_copied next.entry) }
{
    match (*byte, next) {
        (b'\r', Some(b'\n')) | (0x0c, _) => &[],
        (b'\t', _) => b"    ",
        _ => std::slice::from_ref(byte),
    }
}
