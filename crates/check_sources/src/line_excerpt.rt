// What is shown of a line.

ghost use Rattle.std.specs.Prelude.{◌≡◌, ◌≤◌, IfOk, length, min, not, take};
ghost use Rattle.std.specs.Char.{is_ascii_whitespace};
ghost use Rattle.std.specs.List.{prefix_len};
ghost use Rattle.finding_forms.specs.Finding.{seen_of};
ghost use Rattle.check_sources.specs.Lines.{ends_line, front_of, last_of, line_at, most, rest_of, seen_at, unindented};
ghost use Rattle.check_sources.specs.Shown.{seen_in};

use crate::cursor::Cursor;
use finding_forms::Sight;
use std::alloc::{AllocError, Global};

// So many bytes of a line are shown before a place, and so many from it on, at most.
const MOST: usize = 200;

/// What is shown of the line that a part of a file begins in, and where the part stands in what is shown.
#[derive(Drop, Debug)]
pub struct LineExcerpt {
    line: u64,
    column: u64,
    text: String,
    start: usize,
    end: usize,
}

impl LineExcerpt {
    /// The line as a finding has it.
    pub fn sight(&self) -> Sight<'_>
        ensures { seen_of result ≡ seen_in self.now }
    {
        Sight {
            line: self.line,
            column: self.column,
            text: self.text.as_str(),
            start: self.start,
            end: self.end,
        }
    }
}

impl Cursor<'_> {
    /// What is shown of the line round the part of the file that begins at the place and has so many bytes: of the line
    /// before it, without the white space at its front, the last 200 bytes; from the place on the first 200 bytes of the
    /// line, which ends before a newline or a carriage return. U+FFFD is shown for each sequence that is no UTF-8.
    ///
    /// # Errors
    ///
    /// Memory was refused.
    pub fn excerpt(&self, alloc: Global, len: usize) -> Result<LineExcerpt, AllocError>
        ensures { IfOk result (λ shown.
            seen_in shown ≡ seen_at self.now.bytes.now self.now.at len) }
    {
        let rest = self.rest();
        let end = len.min(rest.len());
        let front = String::from_utf8_lossy(alloc, self.front())?;
        let marked = String::from_utf8_lossy(alloc, &rest[..end])?;
        let tail = String::from_utf8_lossy(alloc, &rest[end..])?;
        let start = front.len();
        let end = start + marked.len();
        let mut text = front;
        text.push_str(marked.as_str())?;
        text.push_str(tail.as_str())?;
        Ok(LineExcerpt {
            line: self.line(),
            column: self.column(),
            text,
            start,
            end,
        })
    }

    // What is shown of the line before the place.
    fn front(&self) -> &[u8]
        ensures { result.now ≡ front_of self.now.bytes.now self.now.at }
    {
        last_of(unindented(self.line_before()), MOST)
    }

    // What is shown of it from the place on.
    fn rest(&self) -> &[u8]
        ensures { result.now ≡ rest_of self.now.bytes.now self.now.at }
    {
        rest_at(&self.bytes[self.at..])
    }
}

// Without the white space at their front.
fn unindented(bytes: &[u8]) -> &[u8]
    ensures { result.now ≡ unindented bytes.now }
{
    &bytes[indent_len(bytes)..]
}

// How much white space stands at their front.
fn indent_len(bytes: &[u8]) -> usize
    ensures value { result ≡ prefix_len is_ascii_whitespace bytes.now }
    ensures within { result ≤ length bytes.now }
{
    bytes
        .iter()
        .take_while(|byte| byte.is_ascii_whitespace())
        .count()
}

// The last of these, so many at most.
fn last_of(bytes: &[u8], most: usize) -> &[u8]
    ensures { result.now ≡ last_of most bytes.now }
{
    &bytes[bytes.len().saturating_sub(most)..]
}

// What is shown of their first line.
fn rest_at(bytes: &[u8]) -> &[u8]
    ensures { result.now ≡ line_at (take (min (length bytes.now) most) bytes.now) }
{
    let near = &bytes[..bytes.len().min(MOST)];
    &near[..line_len(near)]
}

// How many bytes their first line has.
fn line_len(bytes: &[u8]) -> usize
    ensures value { result ≡ prefix_len (λ b. not (ends_line b)) bytes.now }
    ensures within { result ≤ length bytes.now }
{
    bytes.iter().take_while(|byte| !ends_line(**byte)).count()
}

// Whether a line ends before it.
fn ends_line(byte: u8) -> bool
    ensures { result ≡ ends_line byte }
{
    byte == b'\n' || byte == b'\r'
}
