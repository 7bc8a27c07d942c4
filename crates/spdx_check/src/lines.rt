// The lines of a file.

ghost use Rattle.std.specs.Prelude.{◌≡◌, ◌++◌, IfErr, IfOk, OnOk, is_some, length};
ghost use Rattle.line_engine.specs.Device.{devices};
ghost use Rattle.line_engine.specs.Output.{capped};
ghost use Rattle.spdx_check.specs.Checking.{ChecksLines, FailsIfBroken, blank_count, expression_of, found_text, have_finding, is_blank, refused_count, replacements_in};
ghost use Rattle.spdx_check.specs.Found.{finding_of, rule_of};
ghost use Rattle.spdx_check.specs.Known.{AreHeld, spot_in};

use crate::check::Check;
use crate::known::{known_of, put_known};
use crate::refusals::refusal_in;
use crate::remembered::Remembered;
use finding_forms::Place;
use line_engine::device::{Sink, Source};
use line_engine::lines::{RunFault, Summary, run};
use line_engine::verdicts::Verdicts;
use std::alloc::{AllocError, Global};

/// The expression of a line: the line without a carriage return at its end, as the lines of some systems have it.
pub fn expression_of(line: &[u8]) -> &[u8]
    ensures { result.now ≡ expression_of line.now }
{
    match line.split_last() {
        Some((b'\r', front)) => front,
        _ => line,
    }
}

// Whether it is nothing but ASCII white space.
fn is_blank(expression: &[u8]) -> bool
    ensures { result ≡ is_blank expression.now }
{
    expression.iter().all(|byte| byte.is_ascii_whitespace())
}

/// What was counted in a file.
#[derive(Clone, Copy)]
pub struct Checked {
    /// The lines, and those that were refused.
    pub summary: Summary,
    /// How many of the lines are nothing but ASCII white space, and so no expressions. A count at `u64::MAX` stays there.
    pub blanks: u64,
}

/// Why the lines of a file weren't all checked.
#[derive(Clone, Copy)]
pub enum LinesFault {
    /// The input has failed: what was counted in the lines that were read whole.
    Read(Checked),
    /// The output has failed.
    Write,
    /// Memory was refused.
    Memory,
}

// A file whose lines are checked one after the other.
#[derive(Drop)]
struct File<'f, 'c> {
    check: &'f Check<'c>,
    name: &'f str,
    is_first: bool,
    // How many lines are checked, how many of them are blank and how many are refused, and whether one was.
    lines: u64,
    blanks: u64,
    refused: u64,
    has_finding: bool,
    remembered: Remembered<'c>,
    ghost known: { AreHeld check.now name.now remembered.slots.items },
}

// Appends what is found of an expression that is this line of the file, and says whether anything is. One that came lately
// is looked up among those that are remembered.
fn put_line<'c>(
    alloc: Global,
    check: &Check<'c>,
    remembered: &mut Remembered<'c>,
    is_first: bool,
    file: &str,
    line: u64,
    expression: &[u8],
    text: &mut Vec<u8>,
) -> Result<bool, AllocError>
    ensures text { AreHeld check.now file.now remembered.old.slots.items →
        OnOk result (text.new.items ≡ text.old.items ++
        found_text check.now.format is_first (spot_in file.now line)
        (finding_of check.now.catalogue.now (replacements_in check.now) check.now.mode
        expression.now)) }
    ensures refuses { AreHeld check.now file.now remembered.old.slots.items →
        IfOk result (λ is_refused. is_refused ≡
        is_some (finding_of check.now.catalogue.now (replacements_in check.now) check.now.mode
        expression.now)) }
    ensures known { AreHeld check.now file.now remembered.old.slots.items →
        AreHeld check.now file.now remembered.new.slots.items }
{
    let place = Place {
        file,
        line,
        column: 1,
    };
    if let Some(known) = remembered.find(expression) {
        return put_known(alloc, check.format, is_first, place, known, text);
    }
    let found = refusal_in(alloc, check, expression)?;
    let known = known_of(alloc, check.format, file, found)?;
    let is_refused = put_known(alloc, check.format, is_first, place, &known, text)?;
    remembered.keep(alloc, expression, known);
    Ok(is_refused)
}

impl Verdicts for File<'_, '_> {
    ghost rule = { λ file. rule_of file.check.now file.is_first file.name.now };

    ghost HasAnswered = { λ file lines. (file.lines ≡ capped (length lines))
        × (file.blanks ≡ capped (blank_count lines))
        × (file.refused ≡ capped (refused_count (finding_of file.check.now.catalogue.now
        (replacements_in file.check.now) file.check.now.mode) lines))
        × (file.has_finding ≡
        have_finding (finding_of file.check.now.catalogue.now (replacements_in file.check.now)
        file.check.now.mode) lines) };

    ghost HasClosed = { λ file lines. file.blanks ≡ capped (blank_count lines) };

    fn answer(
        &mut self,
        alloc: Global,
        line: &[u8],
        text: &mut Vec<u8>,
    ) -> Result<bool, AllocError> {
        let number = self.lines.saturating_add(1);
        let expression = expression_of(line);
        if is_blank(expression) {
            self.lines = number;
            self.blanks = self.blanks.saturating_add(1);
            return Ok(false);
        }
        let is_first = self.is_first && !self.has_finding;
        let is_refused = put_line(
            alloc,
            self.check,
            &mut self.remembered,
            is_first,
            self.name,
            number,
            expression,
            text,
        )?;
        self.lines = number;
        if is_refused {
            self.refused = self.refused.saturating_add(1);
            self.has_finding = true;
        }
        Ok(is_refused)
    }

    fn close(&mut self, _alloc: Global, _text: &mut Vec<u8>) -> Result<(), AllocError> {
        Ok(())
    }
}

impl File<'_, '_> {
    // What is counted in the lines that are checked.
    fn counted(&self) -> Checked
        ensures lines { result.summary.lines ≡ self.now.lines }
        ensures refused { result.summary.refused ≡ self.now.refused }
        ensures blanks { result.blanks ≡ self.now.blanks }
    {
        Checked {
            summary: Summary {
                lines: self.lines,
                refused: self.refused,
            },
            blanks: self.blanks,
        }
    }
}

/// Writes the finding of each line of the input that is refused, and counts the lines and the refused ones: what
/// `refusal_of` says of each line's expression, which begins in the first column. A newline is not part of its line, and a carriage return
/// at its end is not part of its expression; a last line without a newline is a line if it is not empty. A blank line,
/// which is nothing but ASCII white space, is counted among the lines and has no finding: put anywhere between, it leaves
/// the findings of the other lines as they are, but for their numbers. `file` names the input; `is_first` says that no
/// finding was written before.
///
/// The input is read by pieces of 16,384 bytes, and the findings of the lines that end in a piece are written together
/// before the input is read on; the output is flushed once, at the end. `Read` comes exactly where the input has failed,
/// and `Write` only where the output has. After a fault, also one of memory, what was written is a beginning of the
/// findings of the lines that were read whole; after `Read` it is all of them, and these lines are counted.
pub fn check_lines<I: Source, O: Sink>(
    alloc: Global,
    check: &Check<'_>,
    is_first: bool,
    file: &str,
    input: &mut I,
    output: &mut O,
) -> Result<Checked, LinesFault>
    ensures checks { ChecksLines check.now is_first file.now
        (devices (I.told input.old) (I.told input.new) (O.told output.old) (O.told output.new))
        result }
    ensures fails { IfErr result (FailsIfBroken (I.MayFail input.old)) }
{
    let mut lines = File {
        check,
        name: file,
        is_first,
        lines: 0,
        blanks: 0,
        refused: 0,
        has_finding: false,
        remembered: Remembered::new(alloc),
    };
    match run(alloc, &mut lines, input, output) {
        Ok(summary) => Ok(Checked {
            summary,
            blanks: lines.blanks,
        }),
        Err(RunFault::Read) => Err(LinesFault::Read(lines.counted())),
        Err(RunFault::Write) => Err(LinesFault::Write),
        Err(RunFault::Memory) => Err(LinesFault::Memory),
    }
}
