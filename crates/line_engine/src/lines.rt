// Lines in, answers out, a piece of the input at a time.

ghost use Rattle.std.specs.Prelude.{◌≡◌, ℕ, ◌<◌, ◌++◌, ◌∷◌, [], List, length, true, false, IfSome, IsNone, IfOk, Option, OnOk, OnErr, IsErrOf, if◌then◌else◌};
ghost use Rattle.std.specs.Io.KnownBytes.{Appends};
ghost use Rattle.line_engine.specs.Lines.{lines_of, HasNoNewline};
ghost use Rattle.line_engine.specs.Device.{devices};
ghost use Rattle.line_engine.specs.Output.{count_line};
ghost use Rattle.line_engine.specs.Progress.{AppendsBeginning, state, HasPut, HasPutAll, HasKept, HasEnded, HasRunBehind, HasWrittenBehind};
ghost use Rattle.line_engine.specs.Runs.{Runs};
ghost use Rattle.line_engine.specs.declared.lines.RunFault.TheVariants.{Memory as MemoryFault};

use crate::device::{Failed, Sink, Source};
use crate::verdicts::Verdicts;
use memchr::memchr;
use std::alloc::{AllocError, AllocFailed, Global};

#[cfg(test)]
mod tests;

// How long a piece of the input is in bytes: a short input needs no more room, and a long one few reads.
const PIECE: usize = 16_384;

/// How many lines were read, and how many of them were refused. A count at `u64::MAX` stays there.
#[derive(Clone, Copy, PartialEq, Eq, Debug)]
pub struct Summary {
    pub lines: u64,
    pub refused: u64,
}

/// Why a run ended before its input did.
#[derive(Clone, Copy, PartialEq, Eq, Debug)]
pub enum RunFault {
    /// The input has failed.
    Read,
    /// The output has failed.
    Write,
    /// No memory was found for a line or its answer.
    Memory,
}

impl From<AllocError> for RunFault {
    ghost from_gives = { λ _ fault. fault ≡ MemoryFault };

    fn from(_error: AllocError) -> RunFault {
        RunFault::Memory
    }
}

impl<T: Drop> From<AllocFailed<T>> for RunFault {
    ghost from_gives = { λ _ fault. fault ≡ MemoryFault };

    fn from(_error: AllocFailed<T>) -> RunFault {
        RunFault::Memory
    }
}

impl Summary {
    fn count(&mut self, is_refused: bool)
        ensures { self.new ≡ count_line self.old is_refused }
    {
        self.lines = self.lines.saturating_add(1);
        if is_refused {
            self.refused = self.refused.saturating_add(1);
        }
    }
}

// The answers that are not yet written, and the counts of the lines that are answered.
#[derive(Drop)]
struct Tally {
    answers: Vec<u8>,
    summary: Summary,
}

// The line that is not yet complete, and the tally of those before it.
#[derive(Drop)]
struct Kept {
    line: Vec<u8>,
    tally: Tally,
}

/// Writes all of the bytes, in as many writes as it takes. After `Err` a beginning of them was written.
pub fn write_all<O: Sink>(output: &mut O, bytes: &[u8]) -> Result<(), Failed>
    ensures all { OnOk result (
        Appends (O.told output.old).bytes (O.told output.new).bytes bytes.now) }
    ensures begun { OnErr result (
        AppendsBeginning (O.told output.old).bytes (O.told output.new).bytes bytes.now) }
    ensures failed { OnErr result ((O.told output.new).has_failed ≡ true) }
{
    let mut at = 0;
    while at < bytes.len() {
        at += output.write(&bytes[at..])?;
    }
    Ok(())
}

// The bytes before the first newline, and those behind it.
fn split_line(bytes: &[u8]) -> Option<(&[u8], &[u8])>
    ensures some { IfSome result (λ parts.
        (bytes.now ≡ parts.0.now ++ 10 ∷ parts.1.now) × HasNoNewline parts.0.now) }
    ensures none { IsNone result → HasNoNewline bytes.now }
{
    let end = memchr(b'\n', bytes)?;
    Some((&bytes[..end], &bytes[end + 1..]))
}

// Writes the answers, and keeps none of them.
fn write_out<O: Sink>(output: &mut O, answers: &mut Vec<u8>) -> Result<(), RunFault>
    ensures all { OnOk result (
        Appends (O.told output.old).bytes (O.told output.new).bytes answers.old.items) }
    ensures emptied { OnOk result (answers.new.items ≡ []) }
    ensures begun { OnErr result (
        AppendsBeginning (O.told output.old).bytes (O.told output.new).bytes answers.old.items) }
    ensures no_read { IsErrOf result RunFault.Read → ⊥ }
    ensures write { IsErrOf result RunFault.Write → (O.told output.new).has_failed ≡ true }
{
    match write_all(output, answers) {
        Ok(()) => {
            answers.clear();
            Ok(())
        }
        Err(Failed) => Err(RunFault::Write),
    }
}

// Answers a line, behind the answers that are not yet written.
fn put_line<V: Verdicts>(
    alloc: Global,
    verdicts: &mut V,
    tally: &mut Tally,
    line: &[u8],
) -> Result<(), AllocError>
    ensures put { OnOk result (HasPut (V.rule verdicts.old) line.now
        (state (V.HasAnswered verdicts.old) tally.old.answers.items tally.old.summary)
        (state (V.HasAnswered verdicts.new) tally.new.answers.items tally.new.summary)) }
    ensures rule { V.rule verdicts.new ≡ V.rule verdicts.old }
{
    let is_refused = verdicts.answer(alloc, line, &mut tally.answers)?;
    tally.summary.count(is_refused);
    Ok(())
}

// Takes the end of a line. A line that is whole in one piece is answered where it lies.
fn end_line<V: Verdicts>(
    alloc: Global,
    verdicts: &mut V,
    kept: &mut Kept,
    end: &[u8],
) -> Result<(), AllocError>
    ensures put { OnOk result (HasPut (V.rule verdicts.old) (kept.old.line.items ++ end.now)
        (state (V.HasAnswered verdicts.old) kept.old.tally.answers.items kept.old.tally.summary)
        (state (V.HasAnswered verdicts.new) kept.new.tally.answers.items kept.new.tally.summary)) }
    ensures emptied { OnOk result (kept.new.line.items ≡ []) }
    ensures rule { V.rule verdicts.new ≡ V.rule verdicts.old }
{
    if kept.line.is_empty() {
        return put_line(alloc, verdicts, &mut kept.tally, end);
    }
    kept.line.extend_from_slice(end)?;
    put_line(alloc, verdicts, &mut kept.tally, &kept.line)?;
    kept.line.clear();
    Ok(())
}

// Answers the lines that end in the next piece of the input, and keeps what stands behind them.
fn take_piece<V: Verdicts>(
    alloc: Global,
    verdicts: &mut V,
    kept: &mut Kept,
    piece: &[u8],
) -> Result<(), AllocError>
    ensures ok { OnOk result ((bytes written : List ℕ) →
        HasKept (V.rule verdicts.old) bytes written kept.old.line.items
        (state (V.HasAnswered verdicts.old) kept.old.tally.answers.items kept.old.tally.summary) →
        HasKept (V.rule verdicts.old) (bytes ++ piece.now) written kept.new.line.items
        (state (V.HasAnswered verdicts.new) kept.new.tally.answers.items kept.new.tally.summary)) }
    ensures rule { V.rule verdicts.new ≡ V.rule verdicts.old }
{
    let mut rest = piece;
    while let Some((end, behind)) = split_line(rest) {
        end_line(alloc, verdicts, kept, end)?;
        rest = behind;
    }
    kept.line.extend_from_slice(rest)?;
    Ok(())
}

// Answers what is kept as the last line, if it is one, and puts behind it what stands behind all answers.
fn put_end<V: Verdicts>(alloc: Global, verdicts: &mut V, kept: &mut Kept) -> Result<(), AllocError>
    ensures ok { OnOk result ((bytes written : List ℕ) →
        HasKept (V.rule verdicts.old) bytes written kept.old.line.items
        (state (V.HasAnswered verdicts.old) kept.old.tally.answers.items kept.old.tally.summary) →
        HasEnded (V.rule verdicts.old) bytes written
        kept.new.tally.answers.items kept.new.tally.summary) }
    ensures rule { V.rule verdicts.new ≡ V.rule verdicts.old }
    ensures closed { OnOk result ((bytes written : List ℕ) →
        HasKept (V.rule verdicts.old) bytes written kept.old.line.items
        (state (V.HasAnswered verdicts.old) kept.old.tally.answers.items kept.old.tally.summary) →
        V.HasClosed verdicts.new (lines_of bytes)) }
{
    put_last(alloc, verdicts, kept)?;
    verdicts.close(alloc, &mut kept.tally.answers)
}

// Answers what is kept as the last line, if it is one.
fn put_last<V: Verdicts>(alloc: Global, verdicts: &mut V, kept: &mut Kept) -> Result<(), AllocError>
    ensures ok { OnOk result ((bytes written : List ℕ) →
        HasKept (V.rule verdicts.old) bytes written kept.old.line.items
        (state (V.HasAnswered verdicts.old) kept.old.tally.answers.items kept.old.tally.summary) →
        HasPutAll (V.rule verdicts.old) (lines_of bytes) written
        (state (V.HasAnswered verdicts.new) kept.new.tally.answers.items kept.new.tally.summary)) }
    ensures rule { V.rule verdicts.new ≡ V.rule verdicts.old }
{
    if kept.line.is_empty() {
        Ok(())
    } else {
        put_line(alloc, verdicts, &mut kept.tally, &kept.line)
    }
}

/// Answers each line of the input, and at last flushes the output. The input is read by pieces as long as the buffer,
/// and cut after each newline; a last piece without one is a line if it is not empty. The answers to the lines that end
/// in a piece are written together, in one write if the output takes it, before the input is read on.
///
/// `Read` comes exactly where the input has failed, and `Write` only where the output has. After a fault, also one of
/// memory, what was written is a beginning of the answers to the lines that were read whole; after `Read` it is all of
/// them. At Ok what the answerer says of itself behind its lines is known of the lines of the input; after `Read` what it
/// says of the lines that it has answered is known of those that were read whole.
pub fn run_in<V: Verdicts, I: Source, O: Sink>(
    alloc: Global,
    verdicts: &mut V,
    input: &mut I,
    output: &mut O,
    buffer: &mut [u8],
) -> Result<Summary, RunFault>
    requires room { 0 < length buffer.old }
    requires fresh { V.HasAnswered verdicts.old [] }
    ensures runs { Runs (V.rule verdicts.old)
        (devices (I.told input.old) (I.told input.new) (O.told output.old) (O.told output.new))
        result }
    ensures rule { V.rule verdicts.new ≡ V.rule verdicts.old }
    ensures closed { IfOk result (HasRunBehind (V.rule verdicts.old) (V.HasClosed verdicts.new)
        (devices (I.told input.old) (I.told input.new) (O.told output.old) (O.told output.new))) }
    ensures broken { IsErrOf result RunFault.Read →
        HasWrittenBehind (V.rule verdicts.old) (V.HasAnswered verdicts.new)
        (devices (I.told input.old) (I.told input.new) (O.told output.old) (O.told output.new)) }
    ensures fails { IsErrOf result RunFault.Read → I.MayFail input.old }
{
    let mut kept = Kept {
        line: Vec::new(alloc),
        tally: Tally {
            answers: Vec::new(alloc),
            summary: Summary {
                lines: 0,
                refused: 0,
            },
        },
    };
    loop {
        match input.read(buffer) {
            Err(Failed) => return Err(RunFault::Read),
            Ok(0) => break,
            Ok(count) => {
                take_piece(alloc, verdicts, &mut kept, &buffer[..count])?;
                write_out(output, &mut kept.tally.answers)?;
            }
        }
    }
    put_end(alloc, verdicts, &mut kept)?;
    write_out(output, &mut kept.tally.answers)?;
    match output.flush() {
        Ok(()) => Ok(kept.tally.summary),
        Err(Failed) => Err(RunFault::Write),
    }
}

// Room for a piece of the input.
fn room(alloc: Global) -> Result<Vec<u8>, AllocError>
    ensures { IfOk result (λ buffer. 0 < length buffer.items) }
{
    vec![in alloc; 0u8; PIECE]
}

// The fault of a run that found no such room: `Read` has to come if the input has failed before.
fn unread<I: Source>(input: &I) -> RunFault
    ensures fault { result ≡
        (if (I.told input.now).has_failed then RunFault.Read else RunFault.Memory) }
    ensures fails { result ≡ RunFault.Read → I.MayFail input.now }
{
    if input.failed() {
        RunFault::Read
    } else {
        RunFault::Memory
    }
}

/// `run_in` with a buffer of 16,384 bytes, which is let go at the end. Where no memory is found for it, nothing is read:
/// that is `Memory`, unless the input has failed before.
pub fn run<V: Verdicts, I: Source, O: Sink>(
    alloc: Global,
    verdicts: &mut V,
    input: &mut I,
    output: &mut O,
) -> Result<Summary, RunFault>
    requires fresh { V.HasAnswered verdicts.old [] }
    ensures runs { Runs (V.rule verdicts.old)
        (devices (I.told input.old) (I.told input.new) (O.told output.old) (O.told output.new))
        result }
    ensures rule { V.rule verdicts.new ≡ V.rule verdicts.old }
    ensures closed { IfOk result (HasRunBehind (V.rule verdicts.old) (V.HasClosed verdicts.new)
        (devices (I.told input.old) (I.told input.new) (O.told output.old) (O.told output.new))) }
    ensures broken { IsErrOf result RunFault.Read →
        HasWrittenBehind (V.rule verdicts.old) (V.HasAnswered verdicts.new)
        (devices (I.told input.old) (I.told input.new) (O.told output.old) (O.told output.new)) }
    ensures fails { IsErrOf result RunFault.Read → I.MayFail input.old }
{
    let Ok(mut buffer) = room(alloc) else {
        return Err(unread(input));
    };
    run_in(alloc, verdicts, input, output, &mut buffer)
}
