//! The texts of expressions, and the verdicts of lines.

ghost use Rattle.std.specs.Prelude.{◌≡◌, OnErr, IfOk, IfErr};
ghost use Rattle.spdx_calls.specs.Answers.{PutsCanonical, PutsFix, PutsNormal, PutsLines};
ghost use Rattle.spdx_calls.specs.Faults.{IsTextFault, IsCanonicalFault, IsFixFault, IsLinesFault};

use crate::buffer::{Put, put_text};
use crate::fault::{CallFault, refused_at};
use crate::licensees::read_licensees;
use crate::reading::read;
use spdx::{Catalogue, Expression, Failure, ParseMode};
use spdx_lines::{Input, LineMode, Output, Summary, run};
use std::alloc::Global;

/// Puts the canonical text of an expression that this mode reads into the buffer.
///
/// # Errors
///
/// Those of `check`. Nothing is written then.
pub fn canonical(
    alloc: Global,
    catalogue: &Catalogue,
    mode: ParseMode,
    text: &[u8],
    out: &mut [u8],
) -> Result<Put, CallFault>
    ensures ok { IfOk result (PutsCanonical catalogue.now mode text.now out.old out.new) }
    ensures err { IfErr result (IsCanonicalFault catalogue.now mode text.now) }
    ensures unwritten { OnErr result (out.new ≡ out.old) }
{
    let expression = read(alloc, catalogue, mode, text)?;
    match Expression::canonicalize(alloc, catalogue, expression.text()) {
        Ok(None) => Ok(put_text(text, out)),
        Ok(Some(canonical)) => Ok(put_text(canonical.as_bytes(), out)),
        Err(Failure::Refused(error)) => Err(CallFault::Refused(refused_at(&error))),
        Err(Failure::Memory(_)) => Err(CallFault::Memory),
    }
}

/// Puts the fix of a text that strict parsing refuses into the buffer. `None` where it has no fix, or needs none; nothing
/// is written then.
///
/// # Errors
///
/// `NotText` or `Memory`. Nothing is written then.
pub fn fix(
    alloc: Global,
    catalogue: &Catalogue,
    text: &[u8],
    out: &mut [u8],
) -> Result<Option<Put>, CallFault>
    ensures ok { IfOk result (PutsFix catalogue.now text.now out.old out.new) }
    ensures err { IfErr result (IsFixFault text.now) }
    ensures unwritten { OnErr result (out.new ≡ out.old) }
{
    let Ok(text) = str::from_utf8(text) else {
        return Err(CallFault::NotText);
    };
    match Expression::fix(alloc, catalogue, text) {
        Ok(Some(mended)) => Ok(Some(put_text(mended.as_bytes(), out))),
        Ok(None) => Ok(None),
        Err(_) => Err(CallFault::Memory),
    }
}

/// Puts the normal text of an expression that this mode reads into the buffer.
///
/// # Errors
///
/// Those of `check`. Nothing is written then.
pub fn normal(
    alloc: Global,
    catalogue: &Catalogue,
    mode: ParseMode,
    text: &[u8],
    out: &mut [u8],
) -> Result<Put, CallFault>
    ensures ok { IfOk result (PutsNormal catalogue.now mode text.now out.old out.new) }
    ensures err { IfErr result (IsTextFault catalogue.now mode text.now) }
    ensures unwritten { OnErr result (out.new ≡ out.old) }
{
    let expression = read(alloc, catalogue, mode, text)?;
    match expression.normal_text(alloc) {
        Ok(normal) => Ok(put_text(normal.as_bytes(), out)),
        Err(_) => Err(CallFault::Memory),
    }
}

/// How the verdicts went into the buffer, and how many lines there were.
#[derive(Clone, Copy, PartialEq, Eq, Debug)]
pub struct Answered {
    pub put: Put,
    pub summary: Summary,
}

/// Puts the verdicts of all lines of the input into the buffer: what `spdx_lines::run` writes, with these licensees, one
/// on each line. The lines are answered also where the buffer is too short for the verdicts.
///
/// # Errors
///
/// The first licensee that is refused, or `Memory`. Nothing is written then.
pub fn lines(
    alloc: Global,
    catalogue: &Catalogue,
    mode: LineMode,
    licensees: &[u8],
    input: &[u8],
    out: &mut [u8],
) -> Result<Answered, CallFault>
    ensures ok { IfOk result (
        PutsLines catalogue.now mode licensees.now input.now out.old out.new) }
    ensures err { IfErr result (IsLinesFault catalogue.now licensees.now) }
    ensures unwritten { OnErr result (out.new ≡ out.old) }
{
    let accepted = read_licensees(alloc, catalogue, licensees)?;
    let mut source = Input::new(input);
    let mut sink = Output::new(Vec::new(alloc));
    match run(alloc, catalogue, mode, &accepted, &mut source, &mut sink) {
        Ok(summary) => {
            let verdicts = sink.into_inner();
            let put = put_text(&verdicts, out);
            Ok(Answered { put, summary })
        }
        Err(_) => Err(CallFault::Memory),
    }
}
