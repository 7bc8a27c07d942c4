// The literals of a TOML text that are values, found by a scan that knows quotes, comments, headers and keys.

ghost use Rattle.std.specs.Prelude.{◌≡◌, ◌+◌, ◌^◌, ◌<◌, ◌≤◌, IfOk, false, length};
ghost use Rattle.text_places.specs.Order.{AreInOrder};
ghost use Rattle.toml_places.specs.Literals as spec;

use std::alloc::{AllocError, Global};
use text_places::Span;

fn is_quote(byte: u8) -> bool
    ensures { result ≡ spec.is_quote byte }
{
    byte == b'"' || byte == b'\''
}

fn is_escape(byte: u8, quotes: &[u8]) -> bool
    ensures { result ≡ spec.is_escape quotes.now byte }
{
    byte == b'\\' && quotes.starts_with(b"\"")
}

// How many bytes stand before the end of a literal, with the quotes that end it. A backslash escapes in double quotes.
fn quoted_len(bytes: &[u8], quotes: &[u8]) -> usize
    ensures value { result ≡ spec.quoted_len quotes.now false bytes.now }
    ensures within { result ≤ length bytes.now }
{
    let mut is_escaped = false;
    for (at, byte) in bytes.iter().enumerate() {
        if is_escaped {
            is_escaped = false;
        } else if bytes[at..].starts_with(quotes) {
            return at + quotes.len();
        } else {
            is_escaped = is_escape(*byte, quotes);
        }
    }
    bytes.len()
}

// How many of the quotes at the front belong to a text of several lines that closes before them.
fn more_quotes(bytes: &[u8], quote: u8) -> usize
    ensures value { result ≡ spec.more_quotes quote bytes.now }
    ensures within { result ≤ length bytes.now }
{
    bytes
        .iter()
        .take(2)
        .take_while(|byte| **byte == quote)
        .count()
}

// The length of the literal at the front, which begins with this quote.
fn literal_len(bytes: &[u8], quote: u8) -> usize
    requires { 0 < length bytes.now }
    ensures value { result ≡ spec.literal_len quote bytes.now }
    ensures some { 0 < result }
    ensures within { result ≤ length bytes.now }
{
    let three = [quote, quote, quote];
    if bytes.starts_with(&three) {
        let len = 3 + quoted_len(&bytes[3..], &three);
        len + more_quotes(&bytes[len..], quote)
    } else {
        1 + quoted_len(&bytes[1..], &[quote])
    }
}

// The length of the comment at the front.
fn comment_len(bytes: &[u8]) -> usize
    ensures value { result ≡ spec.comment_len bytes.now }
    ensures within { result ≤ length bytes.now }
{
    bytes.iter().take_while(|byte| **byte != b'\n').count()
}

// The length of the literal, the comment or the byte at the front.
fn piece_len(bytes: &[u8]) -> usize
    requires { 0 < length bytes.now }
    ensures value { result ≡ spec.piece_len bytes.now }
    ensures some { 0 < result }
    ensures within { result ≤ length bytes.now }
{
    let first = bytes[0];
    if is_quote(first) {
        literal_len(bytes, first)
    } else if first == b'#' {
        comment_len(bytes)
    } else {
        1
    }
}

fn is_blank(byte: u8) -> bool
    ensures { result ≡ spec.is_blank byte }
{
    byte == b' ' || byte == b'\t'
}

// What stands before these bytes is a key.
fn is_behind_key(bytes: &[u8]) -> bool
    ensures { result ≡ spec.is_behind_key bytes.now }
{
    for byte in bytes {
        if !is_blank(*byte) {
            return *byte == b'=' || *byte == b'.';
        }
    }
    false
}

// Where the scan is: how many brackets are open, whether only blanks stand before it in its line, and whether that
// line is a header, whose literals are keys.
#[derive(Clone, Copy)]
struct Line {
    depth: usize,
    is_fresh: bool,
    is_header: bool,
}

// How many brackets are open behind this byte.
fn depth_behind(depth: usize, byte: u8) -> usize
    requires { depth + 1 < 2 ^ 64 }
    ensures value { result ≡ spec.depth_behind depth byte }
    ensures within { result ≤ depth + 1 }
{
    match byte {
        b'[' => depth + 1,
        b']' => depth.saturating_sub(1),
        _ => depth,
    }
}

fn opens_header(line: Line, byte: u8) -> bool
    ensures { result ≡ spec.opens_header line byte }
{
    byte == b'[' && line.is_fresh && line.depth == 0
}

// Behind a piece that begins with this byte.
fn line_behind(line: Line, byte: u8) -> Line
    requires { line.depth + 1 < 2 ^ 64 }
    ensures value { result ≡ spec.line_behind line byte }
    ensures within { result.depth ≤ line.depth + 1 }
{
    if is_blank(byte) || byte == b'\r' {
        return line;
    }
    if byte == b'\n' {
        return Line {
            is_fresh: true,
            is_header: false,
            ..line
        };
    }
    if line.is_header || opens_header(line, byte) {
        return Line {
            is_fresh: false,
            is_header: true,
            ..line
        };
    }
    Line {
        depth: depth_behind(line.depth, byte),
        is_fresh: false,
        is_header: false,
    }
}

// The piece of this length at the front is a literal and no key.
fn is_value(line: Line, bytes: &[u8], len: usize) -> bool
    requires some { 0 < length bytes.now }
    requires len { len ≡ spec.piece_len bytes.now }
    requires within { len ≤ length bytes.now }
    ensures { result ≡ spec.is_value line bytes.now }
{
    is_quote(bytes[0]) && !line.is_header && !is_behind_key(&bytes[len..])
}

/// The literals of texts that are values and no keys, as far as a scan can tell. Linear.
pub(crate) fn literals(alloc: Global, bytes: &[u8]) -> Result<Vec<Span>, AllocError>
    ensures value { IfOk result (λ found. found.items ≡ spec.literals bytes.now) }
    ensures in_order { IfOk result (λ found. AreInOrder 0 found.items (length bytes.now)) }
{
    let mut found = Vec::new(alloc);
    let mut at = 0;
    let mut line = Line {
        depth: 0,
        is_fresh: true,
        is_header: false,
    };
    while at < bytes.len() {
        let rest = &bytes[at..];
        let len = piece_len(rest);
        let end = at + len;
        if is_value(line, rest, len) {
            found.push(Span { start: at, end })?;
        }
        line = line_behind(line, bytes[at]);
        at = end;
    }
    Ok(found)
}
