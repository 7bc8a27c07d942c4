// Lines of expressions in, their verdicts out.

ghost use Rattle.std.specs.Prelude.{◌≡◌, ◌<◌, length};
ghost use Rattle.line_engine.specs.Device.{devices};
ghost use Rattle.spdx_lines.specs.Lines.{RunsByLine, RunsForAll};
ghost use Rattle.spdx_lines.specs.Verdict as spec;

use crate::all_lines::AllLines;
use crate::each_line::EachLine;
use line_engine::device::{Sink, Source};
use line_engine::lines as engine;
use line_engine::lines::{RunFault, Summary};
use spdx::{Catalogue, Licensee, ParseMode};
use std::alloc::Global;

/// How the lines are read.
#[derive(Clone, Copy, PartialEq, Eq, Debug)]
pub enum LineMode {
    /// By `ParseMode::STRICT`.
    Strict,
    /// By `ParseMode::LAX`.
    Lax,
    /// By `ParseMode::STRICT`, and the second column is the normal text in place of the canonical one.
    Normal,
}

impl LineMode {
    pub(crate) fn parse_mode(self) -> ParseMode
        ensures { result ≡ spec.parse_mode self }
    {
        match self {
            LineMode::Strict | LineMode::Normal => ParseMode::STRICT,
            LineMode::Lax => ParseMode::LAX,
        }
    }
}

/// Reads lines, and writes for each what it is, and a newline: `accepted`, a tab, its canonical text, a tab and the
/// least choice among the accepted licensees (their requirements joined by `, `, or `unmet`, or `too-many N`);
/// `refused`, the place of its fault in bytes as `S..E`, and the fault; or `bad-utf8`, which counts as refused. A newline
/// is not part of its line, a carriage return is; a last line without a newline is a line if it is not empty.
///
/// The input is read by pieces as long as the buffer; the answers to the lines that end in a piece are written together
/// before the input is read on, and the output is flushed once, at the end. `Read` comes only where the input has
/// failed, and `Write` only where the output has. After a fault, also one of memory, what was written is a beginning of
/// the answers to the lines that were read whole; after `Read` it is all of them. An input that is cut behind newlines
/// is answered piece by piece.
pub fn run_in<'c, I: Source, O: Sink>(
    alloc: Global,
    catalogue: &'c Catalogue,
    mode: LineMode,
    accepted: &[Licensee<'c>],
    input: &mut I,
    output: &mut O,
    buffer: &mut [u8],
) -> Result<Summary, RunFault>
    requires room { 0 < length buffer.old }
    ensures { RunsByLine catalogue.now mode accepted.now
        (devices (I.told input.old) (I.told input.new) (O.told output.old) (O.told output.new))
        result }
{
    let mut each = EachLine::new(alloc, catalogue, mode, accepted);
    engine::run_in(alloc, &mut each, input, output, buffer)
}

/// `run_in` with a buffer of 16,384 bytes, which is let go at the end. Where no memory is found for it, nothing is
/// read: that is `Memory`, unless the input has failed before.
pub fn run<'c, I: Source, O: Sink>(
    alloc: Global,
    catalogue: &'c Catalogue,
    mode: LineMode,
    accepted: &[Licensee<'c>],
    input: &mut I,
    output: &mut O,
) -> Result<Summary, RunFault>
    ensures { RunsByLine catalogue.now mode accepted.now
        (devices (I.told input.old) (I.told input.new) (O.told output.old) (O.told output.new))
        result }
{
    let mut each = EachLine::new(alloc, catalogue, mode, accepted);
    engine::run(alloc, &mut each, input, output)
}

/// As `run_in`, but an accepted line is written without its choice and the tab before it; at the end of the input one
/// more line follows, `all`, a tab and the least choice that makes all accepted lines true at once (nothing behind the
/// tab where it is empty). It is not counted, and written only where the end of the input was met.
///
/// Each different expression is kept once, so the memory follows them and not the lines; their choice is that of all
/// lines, since doubles change none. A line costs its own reading and one look among the kept ones, by a text of its
/// tree.
pub fn run_all_in<'c, I: Source, O: Sink>(
    alloc: Global,
    catalogue: &'c Catalogue,
    mode: LineMode,
    accepted: &[Licensee<'c>],
    input: &mut I,
    output: &mut O,
    buffer: &mut [u8],
) -> Result<Summary, RunFault>
    requires room { 0 < length buffer.old }
    ensures { RunsForAll catalogue.now mode accepted.now
        (devices (I.told input.old) (I.told input.new) (O.told output.old) (O.told output.new))
        result }
{
    let mut all = AllLines::new(alloc, catalogue, mode, accepted);
    engine::run_in(alloc, &mut all, input, output, buffer)
}

/// `run_all_in` with a buffer of 16,384 bytes, which is let go at the end. Where no memory is found for it, nothing is
/// read: that is `Memory`, unless the input has failed before.
pub fn run_all<'c, I: Source, O: Sink>(
    alloc: Global,
    catalogue: &'c Catalogue,
    mode: LineMode,
    accepted: &[Licensee<'c>],
    input: &mut I,
    output: &mut O,
) -> Result<Summary, RunFault>
    ensures { RunsForAll catalogue.now mode accepted.now
        (devices (I.told input.old) (I.told input.new) (O.told output.old) (O.told output.new))
        result }
{
    let mut all = AllLines::new(alloc, catalogue, mode, accepted);
    engine::run(alloc, &mut all, input, output)
}
