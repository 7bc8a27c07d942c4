// An expression that is written in a file.

ghost use Rattle.std.specs.Prelude.{◌≡◌, ◌++◌, ◌-◌, IfOk, OnErr, OnOk, is_some, option_map};
ghost use Rattle.spdx_check.specs.Checking.{replacements_in, spot_of};
ghost use Rattle.spdx_check.specs.Found.{finding_of};
ghost use Rattle.spdx_check.specs.Refusals.{wrong_of};
ghost use Rattle.check_sources.specs.Findings.{found_text};
ghost use Rattle.check_sources.specs.Stood.{part_of, source_of, stood};
ghost use Rattle.check_sources.specs.Written.{
  fault_in,
  marked_part,
  part_seen,
  raw_of,
  slice_in,
  spot_in,
  whole_of,
};
ghost use Rattle.check_sources.specs.Shown.{seen_in};

use crate::cursor::Cursor;
use crate::findings::Source;
use crate::line_excerpt::LineExcerpt;
use finding_forms::{Place, put_finding};
use spdx_check::{Check, Refusal, refusal_of};
use std::alloc::{AllocError, Global};

/// An expression, and where it is written, in bytes from the file's beginning: as it is, or with escapes.
#[derive(Clone, Copy, Debug)]
pub(crate) struct Written<'w> {
    pub(crate) start: usize,
    pub(crate) end: usize,
    pub(crate) text: &'w [u8],
}

// A part of a file: where it begins, and how many bytes it has.
#[derive(Clone, Copy)]
pub(crate) struct Part {
    pub(crate) from: usize,
    pub(crate) len: usize,
}

impl Written<'_> {
    fn size(&self) -> usize
        ensures { result ≡ self.now.end - self.now.start }
    {
        self.end.saturating_sub(self.start)
    }

    // The bytes of the file that write it.
    fn raw<'b>(&self, bytes: &'b [u8]) -> &'b [u8]
        ensures { result.now ≡ raw_of bytes.now (stood self.now) }
    {
        slice_in(bytes, self.start, self.end)
    }

    // The part of the file that is marked of a refusal.
    fn marked(&self, bytes: &[u8], refusal: &Refusal<'_>) -> Part
        ensures { part_of result ≡
            marked_part bytes.now (stood self.now) (wrong_of refusal.now).place }
    {
        if self.raw(bytes) == self.text {
            let from = refusal.start().min(self.size());
            return Part {
                from: self.start + from,
                len: refusal.end().min(self.size()).saturating_sub(from),
            };
        }
        Part {
            from: self.start,
            len: self.size(),
        }
    }
}

/// The bytes between two places; one past the end counts as the end.
pub fn slice_in(bytes: &[u8], start: usize, end: usize) -> &[u8]
    ensures { result.now ≡ slice_in bytes.now start end }
{
    let behind = &bytes[start.min(bytes.len())..];
    &behind[..end.saturating_sub(start).min(behind.len())]
}

/// How a part of the file of the cursor is seen.
pub(crate) fn part_excerpt(
    alloc: Global,
    cursor: Cursor<'_>,
    part: Part,
) -> Result<LineExcerpt, AllocError>
    ensures { IfOk result (λ shown.
        seen_in shown ≡ part_seen cursor.entry.bytes.now (part_of part)) }
{
    let mut cursor = cursor;
    cursor.move_to(part.from);
    cursor.excerpt(alloc, part.len)
}

/// Appends the finding of an expression of the file, if it has one, and says whether it has. The cursor is one of the file,
/// and is moved to the expression.
pub(crate) fn put_written<'f>(
    alloc: Global,
    check: &Check<'_>,
    is_first: bool,
    source: Source<'f>,
    cursor: &mut Cursor<'f>,
    written: Written<'_>,
    text: &mut Vec<u8>,
) -> Result<bool, AllocError>
    requires { cursor.old.bytes.now ≡ source.bytes.now }
    ensures text { IfOk result (λ _. text.new.items ≡ text.old.items ++
        found_text check.now.format is_first (source_of source.entry) (stood written.entry)
        (finding_of check.now.catalogue.now (replacements_in check.now) check.now.mode
        written.entry.text.now)) }
    ensures refuses { IfOk result (λ is_refused. is_refused ≡ is_some
        (finding_of check.now.catalogue.now (replacements_in check.now) check.now.mode
        written.entry.text.now)) }
    ensures same_file { cursor.new.bytes.now ≡ source.entry.bytes.now }
{
    let Some(refusal) = refusal_of(alloc, check, written.text)? else {
        return Ok(false);
    };
    cursor.move_to(written.start);
    let place = Place {
        file: source.path,
        line: cursor.line(),
        column: cursor.column(),
    };
    let shown = part_excerpt(alloc, *cursor, written.marked(source.bytes, &refusal))?;
    let finding = refusal.finding(place, Some(shown.sight()));
    put_finding(alloc, text, check.format, is_first, &finding)?;
    Ok(true)
}
