// The literals of a JSON text that are values and no keys, found by a scan.

ghost use Rattle.std.specs.Prelude.{◌≡◌, ◌+◌, ◌<◌, ◌≤◌, ◌==◌, ◌++◌, ◌&&◌, IfOk, OnOk, drop, false, length, not};
ghost use Rattle.std.specs.Option.{option_to_list};
ghost use Rattle.text_places.specs.Order.{AreInOrder};
ghost use Rattle.json_places.specs.Literals as spec;

use std::alloc::{AllocError, Global};
use text_places::Span;

// A quote ends a literal, but behind a backslash.
fn is_end(is_escaped: bool, byte: u8) -> bool
    ensures { result ≡ (not is_escaped && byte == 34) }
{
    !is_escaped && byte == b'"'
}

// A backslash escapes what follows, but behind another.
fn is_escape(is_escaped: bool, byte: u8) -> bool
    ensures { result ≡ (not is_escaped && byte == 92) }
{
    !is_escaped && byte == b'\\'
}

// How many bytes stand before the end of a literal, with the quote that ends it.
fn quoted_len(bytes: &[u8]) -> usize
    ensures value { result ≡ spec.quoted_len false bytes.now }
    ensures within { result ≤ length bytes.now }
{
    let mut is_escaped = false;
    for (at, byte) in bytes.iter().enumerate() {
        if is_end(is_escaped, *byte) {
            return at + 1;
        }
        is_escaped = is_escape(is_escaped, *byte);
    }
    bytes.len()
}

// The length of the literal or the byte at the front.
fn piece_len(bytes: &[u8]) -> usize
    requires { 0 < length bytes.now }
    ensures value { result ≡ spec.piece_len bytes.now }
    ensures some { 0 < result }
    ensures within { result ≤ length bytes.now }
{
    match bytes[0] {
        b'"' => 1 + quoted_len(&bytes[1..]),
        _ => 1,
    }
}

fn is_blank(byte: u8) -> bool
    ensures { result ≡ spec.is_blank byte }
{
    byte == b' ' || byte == b'\t' || byte == b'\n' || byte == b'\r'
}

// A literal before these bytes is a key.
fn begins_colon(bytes: &[u8]) -> bool
    ensures { result ≡ spec.begins_colon bytes.now }
{
    for byte in bytes {
        if !is_blank(*byte) {
            return *byte == b':';
        }
    }
    false
}

// The literal of the piece between two places, where it is one and no key.
fn value_at(bytes: &[u8], at: usize, end: usize) -> Option<Span>
    requires within { at < length bytes.now }
    requires behind { end ≤ length bytes.now }
    requires end { end ≡ at + spec.piece_len (drop at bytes.now) }
    ensures { option_to_list result ≡ spec.value_at at (drop at bytes.now) }
{
    if bytes[at] == b'"' && !begins_colon(&bytes[end..]) {
        Some(Span { start: at, end })
    } else {
        None
    }
}

fn push_some(found: &mut Vec<Span>, span: Option<Span>) -> Result<(), AllocError>
    ensures { OnOk result (found.new.items ≡ found.old.items ++ option_to_list span) }
{
    if let Some(span) = span {
        found.push(span)?;
    }
    Ok(())
}

/// The literals of texts that are values and no keys, as far as a scan can tell. Linear, for bytes that are JSON.
pub(crate) fn literals(alloc: Global, bytes: &[u8]) -> Result<Vec<Span>, AllocError>
    ensures value { IfOk result (λ found. found.items ≡ spec.literals bytes.now) }
    ensures in_order { IfOk result (λ found. AreInOrder 0 found.items (length bytes.now)) }
{
    let mut found = Vec::new(alloc);
    let mut at = 0;
    while at < bytes.len() {
        let end = at + piece_len(&bytes[at..]);
        push_some(&mut found, value_at(bytes, at, end))?;
        at = end;
    }
    Ok(found)
}
