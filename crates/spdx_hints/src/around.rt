// The phrase round a place of a text.

ghost use Rattle.std.specs.Prelude.{◌≡◌, ◌+◌, ◌<◌, ◌≤◌, length};
ghost use Rattle.std.specs.Option.{option_copied, option_map_or};
ghost use Rattle.spdx_hints.specs.Phrase as spec;

use crate::words::same;

/// The phrase at a place of an expression's text: from behind the last operator word or
/// parenthesis before it up to the next one or the text's end, without the blanks round about.
/// `AND`, `OR` and `WITH` are operator words in any case. Places are byte offsets; one behind the
/// text counts as its end. Takes no memory.
pub fn phrase(text: &[u8], start: usize) -> &[u8]
    ensures { result.now ≡ spec.phrase_of text.now start }
{
    let start = start.min(text.len());
    let begin = begin_of(text, start);
    let end = end_from(text, begin.max(start));
    text[begin..end].trim_ascii()
}

fn is_parenthesis(byte: u8) -> bool
    ensures { result ≡ spec.is_parenthesis byte }
{
    byte == b'(' || byte == b')'
}

fn is_gap(byte: u8) -> bool
    ensures { result ≡ spec.is_gap byte }
{
    byte.is_ascii_whitespace() || is_parenthesis(byte)
}

fn has_gap(text: &[u8], at: usize) -> bool
    ensures { result ≡ spec.has_gap text.now at }
{
    match text.get(at) {
        Some(byte) => is_gap(*byte),
        None => true,
    }
}

fn has_parenthesis(text: &[u8], at: usize) -> bool
    ensures { result ≡ spec.has_parenthesis text.now at }
{
    match text.get(at) {
        Some(byte) => is_parenthesis(*byte),
        None => false,
    }
}

fn begins_with_word(word: &[u8], text: &[u8]) -> bool
    ensures { result ≡ spec.begins_with_word word.now text.now }
{
    word.len() <= text.len() && same(&text[..word.len()], word) && has_gap(text, word.len())
}

fn operator_len(text: &[u8]) -> usize
    ensures value { result ≡ spec.operator_len text.now }
    ensures within { result ≤ length text.now }
{
    if begins_with_word(b"AND", text) {
        3
    } else if begins_with_word(b"OR", text) {
        2
    } else if begins_with_word(b"WITH", text) {
        4
    } else {
        0
    }
}

fn begins_word(text: &[u8], at: usize) -> bool
    ensures { result ≡ spec.begins_word text.now at }
{
    at == 0 || has_gap(text, at - 1)
}

// The length of the parenthesis or the operator word there, and 0 if none is.
fn break_len(text: &[u8], at: usize) -> usize
    requires { at < length text.now }
    ensures value { result ≡ spec.break_len text.now at }
    ensures within { at + result ≤ length text.now }
{
    if has_parenthesis(text, at) {
        1
    } else if begins_word(text, at) {
        operator_len(&text[at..])
    } else {
        0
    }
}

fn begin_of(text: &[u8], start: usize) -> usize
    requires { start ≤ length text.now }
    ensures value { result ≡ spec.last_break text.now start }
    ensures within { result ≤ length text.now }
{
    let mut at = start;
    while at > 0 {
        at -= 1;
        let len = break_len(text, at);
        if len > 0 {
            return at + len;
        }
    }
    0
}

fn end_from(text: &[u8], from: usize) -> usize
    requires { from ≤ length text.now }
    ensures value { result ≡ spec.end_from text.now from }
    ensures behind { from ≤ result }
    ensures within { result ≤ length text.now }
{
    for at in from..text.len() {
        if break_len(text, at) > 0 {
            return at;
        }
    }
    text.len()
}
