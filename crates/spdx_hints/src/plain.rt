// A phrase without the link behind it, and without the dots of initials.

ghost use Rattle.std.specs.Prelude.{◌≡◌, ◌≤◌, IfOk, drop, length};
ghost use Rattle.spdx_hints.specs.Phrase.{trimmed};
ghost use Rattle.spdx_hints.specs.Plain as spec;

use std::alloc::{AllocError, Global};

fn begins_link(text: &[u8]) -> bool
    ensures { result ≡ spec.begins_link text.now }
{
    text.starts_with(b"http://") || text.starts_with(b"https://") || text.starts_with(b"www.")
}

fn has_link(text: &[u8], at: usize) -> bool
    requires { at ≤ length text.now }
    ensures { result ≡ spec.begins_link (drop at text.now) }
{
    begins_link(&text[at..])
}

fn link_place(text: &[u8]) -> usize
    ensures value { result ≡ spec.link_from text.now 0 }
    ensures within { result ≤ length text.now }
{
    for at in 0..text.len() {
        if has_link(text, at) {
            return at;
        }
    }
    text.len()
}

fn trimmed(text: &[u8]) -> &[u8]
    ensures { result.now ≡ trimmed text.now }
{
    text.trim_ascii()
}

// What stands before the first link of the text, without the blanks round about; the text itself
// where nothing does.
fn before_link(text: &[u8]) -> &[u8]
    ensures { result.now ≡ spec.before_link text.now }
{
    let front = trimmed(&text[..link_place(text)]);
    if front.is_empty() { text } else { front }
}

fn undotted(alloc: Global, text: &[u8]) -> Result<Vec<u8>, AllocError>
    ensures { IfOk result (λ plain. plain.items ≡ spec.undotted text.now) }
{
    let mut plain = Vec::new(alloc);
    let mut is_letter = false;
    let mut is_lone = false;
    for byte in text {
        if is_lone && *byte == b'.' {
            is_letter = false;
            is_lone = false;
        } else {
            plain.push(*byte)?;
            is_lone = byte.is_ascii_alphabetic() && !is_letter;
            is_letter = byte.is_ascii_alphabetic();
        }
    }
    Ok(plain)
}

/// What stands before the first link, its initials without dots: `M.I.T.` as `MIT`.
pub(crate) fn plain_of(alloc: Global, phrase: &[u8]) -> Result<Vec<u8>, AllocError>
    ensures { IfOk result (λ plain. plain.items ≡ spec.plain_of phrase.now) }
{
    undotted(alloc, before_link(phrase))
}
