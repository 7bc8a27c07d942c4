//! Where the licence expressions stand behind the `SPDX-License-Identifier:` tags of a source file.
//!
//! It reads no expression: it gives their places, and whoever asked reads them.
//!
//! ```rust
//! // crates/file_fixes/src/spans.rt
//! for tag in tags(alloc, bytes, comment_of(path))? {
//! ```
//!
//! It stands on `line_engine` and `memchr`.
#![tactic(auto)]

ghost use Rattle.std.specs.Prelude.{◌≡◌, ◌≢◌, ℕ, ◌∷◌, ◌+◌, ◌<◌, ◌≤◌, ◌^◌, IfOk, length, drop, take, slice_index};
ghost use Rattle.std.specs.List.{prefix_len, suffix_len};
ghost use Rattle.std.specs.Char.{is_ascii_whitespace};
ghost use Rattle.line_engine.specs.Lines.{lines_of};
ghost use Rattle.license_tags.specs.Tags.{
  tag_text,
  start_text,
  end_text,
  holds,
  is_inside,
  is_open_behind,
  is_quote,
  is_opening,
  opening_len,
  ends_text,
  ends_comment,
  ends_starred_comment,
  ends_script_comment,
  closes,
  closing_place,
  trimmed_len,
  expression_len,
  tag_at,
  tags_of,
  AreInOrder,
};

mod comment;

use crate::comment::begins_comment;
pub use crate::comment::{Comment, comment_of};
use memchr::memchr;
use memchr::memmem::Finder;
use std::alloc::{AllocError, Global};

// What stands before an expression.
const TAG: &[u8; 24] = b"SPDX-License-Identifier:";

// What stands in the first line of an ignored block, and what in its last.
const START: &[u8; 17] = b"REUSE-IgnoreStart";

const END: &[u8; 15] = b"REUSE-IgnoreEnd";

fn finder() -> Finder<'static>
    ensures { result ≡ tag_text }
{
    Finder::new(TAG)
}

fn start_finder() -> Finder<'static>
    ensures { result ≡ start_text }
{
    Finder::new(START)
}

fn end_finder() -> Finder<'static>
    ensures { result ≡ end_text }
{
    Finder::new(END)
}

fn holds(mark: &Finder<'static>, line: &[u8]) -> bool
    requires { 0 < length mark.now }
    ensures { result ≡ holds mark.now line.now }
{
    mark.find(line).is_some()
}

// Whether a line belongs to an ignored block, where one is open before it or not.
fn is_inside(start: &Finder<'static>, opened: bool, line: &[u8]) -> bool
    requires { start.now ≡ start_text }
    ensures { result ≡ is_inside opened line.now }
{
    opened || holds(start, line)
}

// Whether a block is open behind a line that belongs to it or to none.
fn is_open_behind(end: &Finder<'static>, inside: bool, line: &[u8]) -> bool
    requires { end.now ≡ end_text }
    ensures { result ≡ is_open_behind inside line.now }
{
    inside && !holds(end, line)
}

fn is_opening(byte: u8) -> bool
    ensures { result ≡ is_opening byte }
{
    byte.is_ascii_whitespace() || byte == b'"' || byte == b'\'' || byte == b'`'
}

// How many blanks and quotes stand at the front.
fn blank_len(bytes: &[u8]) -> usize
    ensures value { result ≡ prefix_len is_opening bytes.now }
    ensures within { result ≤ length bytes.now }
{
    bytes.iter().take_while(|byte| is_opening(**byte)).count()
}

// How many bytes stand before an expression.
fn opening_len(bytes: &[u8]) -> usize
    ensures value { result ≡ opening_len bytes.now }
    ensures within { result ≤ length bytes.now }
{
    if !bytes.is_empty() && bytes[0].is_ascii_whitespace() {
        blank_len(bytes)
    } else {
        0
    }
}

#[tactic(auto, unfolding(crate::specs::Tags::ends_text))]
fn ends_text(bytes: &[u8]) -> bool
    ensures { result ≡ ends_text bytes.now }
{
    bytes.starts_with(b"\"")
        || bytes.starts_with(b"'")
        || bytes.starts_with(b"`")
        || bytes.starts_with(b"\\")
        || bytes.starts_with(b"<")
}

#[tactic(auto, unfolding(crate::specs::Tags::ends_comment))]
fn ends_comment(bytes: &[u8]) -> bool
    ensures { result ≡ ends_comment bytes.now }
{
    bytes.starts_with(b"*/")
        || bytes.starts_with(b"*)")
        || bytes.starts_with(b"-->")
        || bytes.starts_with(b"-}")
        || bytes.starts_with(b"#}")
        || bytes.starts_with(b"]]")
        || bytes.starts_with(b"?>")
}

#[tactic(auto, unfolding(crate::specs::Tags::ends_starred_comment))]
fn ends_starred_comment(bytes: &[u8]) -> bool
    ensures { result ≡ ends_starred_comment bytes.now }
{
    bytes.starts_with(b"**/")
        || bytes.starts_with(b"*|")
        || bytes.starts_with(b"*@")
        || bytes.starts_with(b"*#")
}

#[tactic(auto, unfolding(crate::specs::Tags::ends_script_comment))]
fn ends_script_comment(bytes: &[u8]) -> bool
    ensures { result ≡ ends_script_comment bytes.now }
{
    bytes.starts_with(b"--%>")
        || bytes.starts_with(b"%>")
        || bytes.starts_with(b"--}}")
        || bytes.starts_with(b"|#")
        || bytes.starts_with(b"#>")
        || bytes.starts_with(b"%}")
        || bytes.starts_with(b"=#")
        || bytes.starts_with(b"]#")
}

fn closes(comment: Comment, bytes: &[u8]) -> bool
    ensures { result ≡ closes comment bytes.now }
{
    ends_text(bytes)
        || ends_comment(bytes)
        || ends_starred_comment(bytes)
        || ends_script_comment(bytes)
        || begins_comment(comment, bytes)
}

// How many bytes stand before the first closing.
fn closing_place(comment: Comment, bytes: &[u8]) -> usize
    ensures value { result ≡ closing_place comment bytes.now }
    ensures within { result ≤ length bytes.now }
{
    for i in 0..bytes.len() {
        if closes(comment, &bytes[i..]) {
            return i;
        }
    }
    bytes.len()
}

// How long they are without the blanks at their end.
fn trimmed_len(bytes: &[u8]) -> usize
    ensures value { result ≡ trimmed_len bytes.now }
    ensures within { result ≤ length bytes.now }
{
    let mut end = bytes.len();
    while end > 0 && bytes[end - 1].is_ascii_whitespace() {
        end -= 1;
    }
    end
}

fn expression_len(comment: Comment, bytes: &[u8]) -> usize
    ensures value { result ≡ expression_len comment bytes.now }
    ensures within { result ≤ length bytes.now }
{
    trimmed_len(&bytes[..closing_place(comment, bytes)])
}

/// Where the expression behind a tag stands: from `start` up to `end`, in bytes from the beginning of the file. `line` is
/// the number of its line, counted from 1. An empty expression has `start == end`.
#[derive(Clone, Copy, PartialEq, Eq, Debug)]
pub struct Tag {
    pub line: usize,
    pub start: usize,
    pub end: usize,
}

#[tactic(auto, unfolding(crate::specs::Tags::tag_text))]
fn tag_in(comment: Comment, number: usize, offset: usize, line: &[u8], place: usize) -> Tag
    requires fits { offset + length line.now < 2 ^ 64 }
    requires stands { place + length tag_text ≤ length line.now }
    ensures value { result ≡ tag_at comment number offset line.now place }
    ensures low { offset ≤ result.start }
    ensures ordered { result.start ≤ result.end }
    ensures high { result.end ≤ offset + length line.now }
{
    let behind = place + TAG.len();
    let start = behind + opening_len(&line[behind..]);
    let end = start + expression_len(comment, &line[start..]);
    Tag {
        line: number,
        start: offset + start,
        end: offset + end,
    }
}

// How many bytes stand before the first newline.
fn line_len(bytes: &[u8]) -> usize
    ensures lines { 0 < length bytes.now →
        lines_of bytes.now ≡ take result bytes.now ∷ lines_of (drop (result + 1) bytes.now) }
    ensures within { result ≤ length bytes.now }
    ensures before { (k : ℕ) → k < result → slice_index bytes.now k ≢ 10 }
    ensures newline { result < length bytes.now → slice_index bytes.now result ≡ 10 }
{
    memchr(b'\n', bytes).unwrap_or(bytes.len())
}

// What stands behind the first bytes and one more.
fn behind(bytes: &[u8], len: usize) -> &[u8]
    ensures { result.now ≡ drop (len + 1) bytes.now }
{
    match bytes.get(len..) {
        Some([_, rest @ ..]) => rest,
        _ => &[],
    }
}

/// The places of the expressions behind the tags `SPDX-License-Identifier:` of a file, whose bytes may be no text. In
/// each line the first tag counts. Its expression stands behind blanks, and quotes behind a blank. It goes up to the
/// first quote, backslash, `<`, end of a comment (`*/`, `*)`, `-->`, `-}`, `#}`, `]]`, `?>`, `--%>`, `|#`, `#>`, `%}`,
/// `=#`), or beginning of one in this kind of file, or to the end of the line, less blanks.
///
/// Tags in an ignored block are not given. It goes from a line that holds `REUSE-IgnoreStart` through the next line
/// that holds `REUSE-IgnoreEnd`, which may be the same line, or to the end of the file. The lines of both marks belong
/// to it.
///
/// Linear. A file without tags is searched once, and its blocks are not looked for.
///
/// # Errors
///
/// Memory was refused.
pub fn tags(alloc: Global, bytes: &[u8], comment: Comment) -> Result<Vec<Tag>, AllocError>
    ensures value { IfOk result (λ found. found.items ≡ tags_of comment bytes.now) }
    ensures in_order { IfOk result (λ found. AreInOrder 0 found.items (length bytes.now)) }
{
    let (finder, start, end) = (finder(), start_finder(), end_finder());
    let mut found = Vec::new(alloc);
    let mut rest = bytes;
    let mut offset = 0;
    let mut number = 1;
    let mut opened = false;
    let mut next = finder.find(rest);
    while let Some(place) = next {
        let len = line_len(rest);
        let line = &rest[..len];
        let inside = is_inside(&start, opened, line);
        opened = is_open_behind(&end, inside, line);
        rest = behind(rest, len);
        if place < len {
            next = finder.find(rest);
            if !inside {
                found.push(tag_in(comment, number, offset, line, place))?;
            }
        } else {
            next = Some(place - (len + 1));
        }
        offset += len + 1;
        number += 1;
    }
    Ok(found)
}
