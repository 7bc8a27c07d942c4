// A place that moves through a file.

ghost use Rattle.std.specs.Prelude.{◌≡◌, ◌+◌, ◌-◌, ◌≤◌, drop, length, take};
ghost use Rattle.text_places.specs.Places.{character_count, column_of, last_line_len, line_before};
ghost use Rattle.check_sources.specs.Lines.{line_of, within};

use text_places::{character_count, last_line_len, newline_count};

/// A place in a file, in bytes from its beginning, with its line and its column. It is moved from one place to the next, so
/// that many places cost one pass over the file.
#[derive(Clone, Copy, Debug)]
pub struct Cursor<'b> {
    pub(crate) bytes: &'b [u8],
    pub(crate) at: usize,
    // where its line begins
    pub(crate) start: usize,
    line: u64,
    column: u64,
    ghost within: { at ≤ length bytes.now },
    ghost begins: { start ≡ at - last_line_len (take at bytes.now) },
    ghost line_is: { line ≡ line_of bytes.now at },
    ghost column_is: { column ≡ column_of bytes.now at },
}

impl<'b> Cursor<'b> {
    /// The beginning of a file.
    pub fn new(bytes: &'b [u8]) -> Cursor<'b>
        ensures bytes { result.bytes.now ≡ bytes.now }
        ensures at { result.at ≡ 0 }
    {
        Cursor {
            bytes,
            at: 0,
            start: 0,
            line: 1,
            column: 1,
        }
    }

    /// Another place of the file; one past the end counts as the end. Linear in the bytes between the two places; for a place
    /// that stands before the last one, in those before it.
    pub fn move_to(&mut self, at: usize)
        ensures bytes { self.new.bytes.now ≡ self.old.bytes.now }
        ensures at { self.new.at ≡ within self.old.bytes.now at }
    {
        let at = at.min(self.bytes.len());
        if at < self.at {
            *self = Cursor::new(self.bytes);
        }
        *self = self.further(at);
    }

    // A place further on.
    fn further(&self, at: usize) -> Cursor<'b>
        requires further { self.now.at ≤ at }
        requires within { at ≤ length self.now.bytes.now }
        ensures bytes { result.bytes.now ≡ self.now.bytes.now }
        ensures at { result.at ≡ at }
    {
        let skipped = &self.bytes[self.at..at];
        let last = last_line_len(skipped);
        let line = self.line + newline_count(skipped) as u64;
        if last == skipped.len() {
            return Cursor {
                bytes: self.bytes,
                at,
                start: self.start,
                line,
                column: self.column + character_count(skipped) as u64,
            };
        }
        Cursor {
            bytes: self.bytes,
            at,
            start: at - last,
            line,
            column: character_count(last_line(skipped)) as u64 + 1,
        }
    }

    /// The number of its line, from 1.
    pub fn line(&self) -> u64
        ensures { result ≡ line_of self.now.bytes.now self.now.at }
    {
        self.line
    }

    /// Its column: how many characters stand before it in its line, and one.
    pub fn column(&self) -> u64
        ensures { result ≡ column_of self.now.bytes.now self.now.at }
    {
        self.column
    }

    // Its line, as far as it stands before the place.
    pub(crate) fn line_before(&self) -> &'b [u8]
        ensures { result.now ≡ line_before self.now.bytes.now self.now.at }
    {
        &self.bytes[self.start..self.at]
    }
}

// What stands behind the last newline.
fn last_line(bytes: &[u8]) -> &[u8]
    ensures { result.now ≡ drop (length bytes.now - last_line_len bytes.now) bytes.now }
{
    &bytes[bytes.len() - last_line_len(bytes)..]
}
