// The values in the text behind a separator, and in lists.

ghost use Rattle.std.specs.Prelude.{◌≡◌, ◌+◌, ◌<◌, ◌≤◌, ◌^◌, ◌++◌, IfOk, IfSome, length};
ghost use Rattle.text_places.specs.Texts.{
  closing,
  opening,
  has_quotes,
  is_plain,
  ends_plain,
  plain_len,
  trimmed_len,
  quoted_len,
  quoted,
  plain,
  scalar,
  passes_over,
  next_piece,
  span_at,
  listed,
  IsWithin,
  IsPieceWithin,
};

use crate::Span;
use crate::field_lines::{Grammar, Notation};
use crate::names::begins_comment;
use std::alloc::AllocError;

/// A value at the front of a text: so many bytes stand before it, so many are its own, and so many are read with it.
#[derive(Clone, Copy, PartialEq, Eq, Debug)]
pub struct Extent {
    pub before: usize,
    pub len: usize,
    pub read: usize,
}

/// What stands at the front of a list's text.
#[derive(Clone, Copy, PartialEq, Eq, Debug)]
pub enum Piece {
    /// A byte that means nothing, as a blank or a comma.
    Gap,
    Value(Extent),
    /// No value stands behind it on the line; the list goes on in the next one, or not.
    End(bool),
}

/// What a list begins with.
pub fn opening(notation: Notation) -> u8
    ensures { result ≡ opening notation }
{
    match notation {
        Notation::Shell => b'(',
        _ => b'[',
    }
}

fn closing(notation: Notation) -> u8
    ensures { result ≡ closing notation }
{
    match notation {
        Notation::Shell => b')',
        _ => b']',
    }
}

/// Whether quotes and brackets mean anything.
pub fn has_quotes(notation: Notation) -> bool
    ensures { result ≡ has_quotes notation }
{
    !matches!(notation, Notation::Line)
}

fn is_plain(notation: Notation, byte: u8) -> bool
    ensures { result ≡ is_plain notation byte }
{
    match notation {
        Notation::Line | Notation::Shell => true,
        Notation::Yaml => !matches!(byte, b'|' | b'>' | b'&' | b'*' | b'!' | b'{' | b'['),
        Notation::Quoted => false,
    }
}

fn ends_plain(grammar: &Grammar<'_>, is_listed: bool, byte: u8, behind: &[u8]) -> bool
    ensures { result ≡
        ends_plain grammar.now.notation grammar.now.comment.now is_listed byte behind.now }
{
    match grammar.notation {
        Notation::Line | Notation::Quoted => false,
        Notation::Yaml => {
            (is_listed && (byte == b',' || byte == b']'))
                || (byte.is_ascii_whitespace() && begins_comment(grammar.comment, behind))
        }
        Notation::Shell => {
            byte.is_ascii_whitespace() || byte == b')' || byte == b';' || byte == b'\\'
        }
    }
}

// How many bytes a plain value has behind its first one.
fn plain_len(grammar: &Grammar<'_>, is_listed: bool, text: &[u8]) -> usize
    ensures value { result ≡ plain_len grammar.now is_listed text.now }
    ensures within { result ≤ length text.now }
{
    for i in 0..text.len() {
        if ends_plain(grammar, is_listed, text[i], &text[i + 1..]) {
            return i;
        }
    }
    text.len()
}

// How long it is without the blanks at its end.
fn trimmed_len(text: &[u8]) -> usize
    ensures value { result ≡ trimmed_len text.now }
    ensures within { result ≤ length text.now }
{
    text.trim_ascii_end().len()
}

// How many bytes stand before the first such quote or backslash.
fn quoted_len(quote: u8, behind: &[u8]) -> usize
    ensures value { result ≡ quoted_len quote behind.now }
    ensures within { result ≤ length behind.now }
{
    behind
        .iter()
        .take_while(|byte| **byte != quote && **byte != b'\\')
        .count()
}

fn quoted(quote: u8, behind: &[u8]) -> Option<Extent>
    ensures value { result ≡ quoted quote behind.now }
    ensures within { IfSome result (IsWithin (1 + length behind.now)) }
{
    let len = quoted_len(quote, behind);
    if !behind[len..].starts_with(&[quote]) {
        return None;
    }
    Some(Extent {
        before: 1,
        len,
        read: len + 2,
    })
}

fn plain(grammar: &Grammar<'_>, is_listed: bool, text: &[u8], behind: &[u8]) -> Extent
    requires { length text.now ≡ 1 + length behind.now }
    ensures value { result ≡ plain grammar.now is_listed text.now behind.now }
    ensures within { IsWithin (length text.now) result }
{
    let read = 1 + plain_len(grammar, is_listed, behind);
    Extent {
        before: 0,
        len: trimmed_len(&text[..read]),
        read,
    }
}

/// The value at the front of a text, in a list or not.
pub fn scalar(grammar: &Grammar<'_>, is_listed: bool, text: &[u8]) -> Option<Extent>
    ensures value { result ≡ scalar grammar.now is_listed text.now }
    ensures within { IfSome result (IsWithin (length text.now)) }
{
    let [first, behind @ ..] = text else {
        return None;
    };
    if has_quotes(grammar.notation) && (*first == b'"' || *first == b'\'') {
        quoted(*first, behind)
    } else if is_plain(grammar.notation, *first) && !begins_comment(grammar.comment, text) {
        Some(plain(grammar, is_listed, text, behind))
    } else {
        None
    }
}

// Whether a byte of a list that begins no value means nothing, as in `"MIT".freeze`.
fn passes_over(notation: Notation, byte: u8) -> bool
    ensures { result ≡ passes_over notation byte }
{
    matches!(notation, Notation::Quoted) && byte != b'"' && byte != b'\''
}

fn next_piece(grammar: &Grammar<'_>, first: u8, text: &[u8]) -> Piece
    ensures value { result ≡ next_piece grammar.now first text.now }
    ensures within { IsPieceWithin (length text.now) result }
{
    if first.is_ascii_whitespace() || first == b',' {
        Piece::Gap
    } else if begins_comment(grammar.comment, text) {
        Piece::End(true)
    } else if first == closing(grammar.notation) {
        Piece::End(false)
    } else {
        match scalar(grammar, true, text) {
            Some(value) => Piece::Value(value),
            None if passes_over(grammar.notation, first) => Piece::Gap,
            None => Piece::End(false),
        }
    }
}

/// Where the value at the front of a text that begins there stands.
pub fn span_at(start: usize, scalar: Extent) -> Span
    requires { start + (scalar.before + scalar.len) < 2 ^ 64 }
    ensures { result ≡ span_at start scalar }
{
    Span {
        start: start + scalar.before,
        end: start + (scalar.before + scalar.len),
    }
}

/// Appends the places of the values that stand in the text of a list, which ends at `end`, and says whether the list
/// goes on in the next line.
pub fn push_listed(
    grammar: &Grammar<'_>,
    end: usize,
    text: &[u8],
    found: &mut Vec<Span>,
) -> Result<bool, AllocError>
    requires { length text.now ≤ end }
    ensures items { IfOk result (λ _.
        found.new.items ≡ found.old.items ++ (listed grammar.now end 0 text.now).values) }
    ensures is_open { IfOk result (λ is_open.
        is_open ≡ (listed grammar.now end 0 text.now).is_open) }
{
    let mut rest = text;
    while let [first, behind @ ..] = rest {
        match next_piece(grammar, *first, rest) {
            Piece::Gap => rest = behind,
            Piece::End(is_open) => return Ok(is_open),
            Piece::Value(scalar) => {
                found.push(span_at(end - rest.len(), scalar))?;
                rest = &rest[scalar.read..];
            }
        }
    }
    Ok(true)
}
