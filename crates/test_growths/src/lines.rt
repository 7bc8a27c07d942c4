// Runs over lines.

use crate::end::{Answer, End};
use crate::lent::licensees;
use spdx::Catalogue;
use spdx_lines::{Input, LineMode, Output, RunFault, Summary};
use std::alloc::Global;

// The worked lines.
const INPUT: &[u8] = b"MIT OR Apache-2.0\napache2\nmit/Zlib\n\nZlib\nMIT AND Apache-2.0\n\xff";

const ACCEPTED: [&str; 2] = ["Apache-2.0", "MIT"];

// Their answers by `run`.
const EACH: &[u8] = b"\
accepted\tMIT OR Apache-2.0\tApache-2.0
refused 6..7 unknown term
accepted\tMIT OR Zlib\tMIT
refused 0..0 empty expression
accepted\tZlib\tunmet
accepted\tMIT AND Apache-2.0\tApache-2.0, MIT
bad-utf8
";

// Their answers by `run_all`.
const ALL: &[u8] = b"\
accepted\tMIT OR Apache-2.0
refused 6..7 unknown term
accepted\tMIT OR Zlib
refused 0..0 empty expression
accepted\tZlib
accepted\tMIT AND Apache-2.0
bad-utf8
all\tunmet
";

// The output has its room beforehand, so that it takes no memory in the run.
fn room(alloc: Global) -> Result<Output<Vec<u8>>, End> {
    Ok(Output::new(Vec::with_capacity(alloc, 4096)?))
}

// What the run answers, of which this is the whole output.
fn told(alloc: Global, outcome: Result<Summary, RunFault>, written: &[u8], whole: &[u8]) -> Answer {
    match outcome {
        Ok(_) if written != whole => Err(End::Otherwise("another output")),
        Ok(summary) => {
            let (lines, refused) = (summary.lines, summary.refused);
            Ok(format!(in alloc; "{lines} lines, {refused} refused")?)
        }
        Err(RunFault::Memory) if whole.starts_with(written) => Err(End::InTheCall),
        Err(RunFault::Memory) => Err(End::Otherwise("no beginning of the output")),
        Err(RunFault::Read | RunFault::Write) => Err(End::Otherwise("another fault")),
    }
}

/// Answers the worked lines.
pub(crate) fn run(alloc: Global, catalogue: &Catalogue) -> Answer {
    let accepted = licensees(alloc, catalogue, &ACCEPTED)?;
    let mut input = Input::new(INPUT);
    let mut output = room(alloc)?;
    let result = spdx_lines::run(
        alloc,
        catalogue,
        LineMode::Lax,
        accepted.as_slice(),
        &mut input,
        &mut output,
    );
    let written = output.into_inner();
    told(alloc, result, written.as_slice(), EACH)
}

/// Answers the worked lines with one choice for all.
pub(crate) fn run_all(alloc: Global, catalogue: &Catalogue) -> Answer {
    let accepted = licensees(alloc, catalogue, &ACCEPTED)?;
    let mut input = Input::new(INPUT);
    let mut output = room(alloc)?;
    let result = spdx_lines::run_all(
        alloc,
        catalogue,
        LineMode::Lax,
        accepted.as_slice(),
        &mut input,
        &mut output,
    );
    let written = output.into_inner();
    told(alloc, result, written.as_slice(), ALL)
}
