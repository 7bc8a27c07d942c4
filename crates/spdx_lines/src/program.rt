// The program, apart from its arguments and files.

ghost use Rattle.std.specs.Prelude.{◌≡◌, ◌++◌, if◌then◌else◌, IfOk, IfErr, OnOk, Ok, is_some};
ghost use Rattle.line_engine.specs.Device.{devices};
ghost use Rattle.line_engine.specs.Runs.{Runs};
ghost use Rattle.spdx_lexer.specs.Code.{span_of};
ghost use Rattle.spdx_lexer.specs.Faults.{fault_of};
ghost use Rattle.spdx_lines.specs.Found.{found, rule_of, rule_of_all};
ghost use Rattle.spdx_lines.specs.Program.{NoCatalogue, NoLicensee, texts_of, task_in, licensees_from, planned, plan_of, refusal_line};
ghost use Rattle.spdx_lines.specs.Ending.{EndsBy, Serves, StopsAt, stop_status, stop_line};

use crate::all_lines::AllLines;
use crate::each_line::EachLine;
use crate::lines::LineMode;
use crate::text::put_refusal;
use line_engine::device::{Sink, Source};
use line_engine::lines as engine;
use line_engine::lines::{RunFault, Summary, write_all};
use line_engine::stream::Output;
use spdx::{Catalogue, Failure, Licensee, ParseError, ReadFault};
use std::alloc::{AllocError, AllocFailed, Global};
use std::io::Write;

const USAGE: &[u8] =
    b"usage: spdx_lines CATALOGUE strict|lax|strict-all|lax-all|normal [LICENSEE]..\n";

const OUT_OF_MEMORY: &[u8] = b"out of memory\n";

// How the lines are read, and whether one choice is for all of them.
#[derive(Drop)]
struct Task {
    mode: LineMode,
    is_joint: bool,
}

impl Task {
    fn new(mode: LineMode, is_joint: bool) -> Task
        ensures mode { result.mode ≡ mode }
        ensures is_joint { result.is_joint ≡ is_joint }
    {
        Task { mode, is_joint }
    }
}

// Why the program did not come to the end of its input.
#[derive(Drop)]
enum Stop<'w> {
    Usage,
    Unreadable,
    Catalogue(ReadFault),
    // Counted from 1.
    Licensee(usize, ParseError<'w>),
    Run(RunFault),
}

impl From<AllocError> for Stop<'_> {
    ghost use Rattle.spdx_lines.specs.declared.program.Stop.TheVariants as stop;
    ghost use Rattle.line_engine.specs.declared.lines.RunFault.TheVariants.{Memory};

    ghost from_gives = { λ _ s. s ≡ stop.Run Memory };

    fn from(_error: AllocError) -> Self {
        Stop::Run(RunFault::Memory)
    }
}

impl<'w, T: Drop> From<AllocFailed<T>> for Stop<'w> {
    ghost use Rattle.spdx_lines.specs.declared.program.Stop.TheVariants as stop;
    ghost use Rattle.line_engine.specs.declared.lines.RunFault.TheVariants.{Memory};

    ghost from_gives = { λ _ s. s ≡ stop.Run Memory };

    fn from(_failed: AllocFailed<T>) -> Self {
        Stop::Run(RunFault::Memory)
    }
}

// What the second word asks for.
fn task_of(words: &[&str]) -> Option<Task>
    ensures { result ≡ task_in (texts_of words.now) }
{
    let word = words.get(1)?;
    if *word == "strict" {
        Some(Task::new(LineMode::Strict, false))
    } else if *word == "lax" {
        Some(Task::new(LineMode::Lax, false))
    } else if *word == "strict-all" {
        Some(Task::new(LineMode::Strict, true))
    } else if *word == "lax-all" {
        Some(Task::new(LineMode::Lax, true))
    } else if *word == "normal" {
        Some(Task::new(LineMode::Normal, false))
    } else {
        None
    }
}

// The licensees that the words name.
fn read_licensees<'c, 'w>(
    alloc: Global,
    catalogue: &'c Catalogue,
    words: &[&'w str],
) -> Result<Vec<Licensee<'c>>, Stop<'w>>
    ensures ok { IfOk result (λ licensees.
        licensees_from found catalogue.now 1 (texts_of words.now) ≡ Ok licensees.items) }
    ensures err { IfErr result (λ stop.
        StopsAt (licensees_from found catalogue.now 1 (texts_of words.now)) stop) }
{
    let mut licensees = Vec::new(alloc);
    for (place, word) in words.iter().enumerate() {
        match Licensee::parse(alloc, catalogue, *word) {
            Ok(licensee) => licensees.push(licensee)?,
            Err(Failure::Refused(error)) => return Err(Stop::Licensee(place + 1, error)),
            Err(Failure::Memory(error)) => return Err(Stop::from(error)),
        }
    }
    Ok(licensees)
}

// What is asked for, under this catalogue.
fn run_with<'w, I: Source, O: Sink>(
    alloc: Global,
    catalogue: &Catalogue,
    task: Task,
    licensees: &[&'w str],
    input: &mut I,
    output: &mut O,
) -> Result<Summary, Stop<'w>>
    ensures { EndsBy (planned found catalogue.now task (texts_of licensees.now))
        (devices (I.told input.old) (I.told input.new) (O.told output.old) (O.told output.new))
        result }
{
    let accepted = read_licensees(alloc, catalogue, licensees)?;
    match run_task(alloc, catalogue, &task, &accepted, input, output) {
        Ok(summary) => Ok(summary),
        Err(fault) => Err(Stop::Run(fault)),
    }
}

fn run_task<'c, I: Source, O: Sink>(
    alloc: Global,
    catalogue: &'c Catalogue,
    task: &Task,
    accepted: &[Licensee<'c>],
    input: &mut I,
    output: &mut O,
) -> Result<Summary, RunFault>
    ensures { Runs (if task.now.is_joint then rule_of_all catalogue.now task.now.mode accepted.now
        else rule_of catalogue.now task.now.mode accepted.now)
        (devices (I.told input.old) (I.told input.new) (O.told output.old) (O.told output.new))
        result }
{
    if task.is_joint {
        let mut all = AllLines::new(alloc, catalogue, task.mode, accepted);
        engine::run(alloc, &mut all, input, output)
    } else {
        let mut each = EachLine::new(alloc, catalogue, task.mode, accepted);
        engine::run(alloc, &mut each, input, output)
    }
}

// The run that the words and the bytes ask for.
fn run_by<'w, I: Source, O: Sink>(
    alloc: Global,
    words: Option<&[&'w str]>,
    catalogue: Option<&[u8]>,
    input: &mut I,
    output: &mut O,
) -> Result<Summary, Stop<'w>>
    ensures { EndsBy (plan_of found words.entry catalogue.entry)
        (devices (I.told input.old) (I.told input.new) (O.told output.old) (O.told output.new))
        result }
{
    let Some(words) = words else {
        return Err(Stop::Usage);
    };
    let Some(task) = task_of(words) else {
        return Err(Stop::Usage);
    };
    let Some(bytes) = catalogue else {
        return Err(Stop::Unreadable);
    };
    match Catalogue::from_json(alloc, bytes) {
        Ok(catalogue) => run_with(alloc, &catalogue, task, &words[2..], input, output),
        Err(Failure::Refused(fault)) => Err(Stop::Catalogue(fault)),
        Err(Failure::Memory(error)) => Err(Stop::from(error)),
    }
}

// The line that tells why there was no run, or why it broke off.
fn line_of(alloc: Global, stop: &Stop<'_>) -> Result<Vec<u8>, AllocError>
    ensures { IfOk result (λ text. text.items ≡ stop_line stop.now) }
{
    let mut text = Vec::new(alloc);
    match stop {
        Stop::Usage => text.extend_from_slice(USAGE)?,
        Stop::Unreadable => text.extend_from_slice(b"catalogue: unreadable\n")?,
        Stop::Catalogue(fault) => put_catalogue(&mut text, *fault)?,
        Stop::Licensee(place, error) => put_licensee(&mut text, *place, error)?,
        Stop::Run(RunFault::Read) => text.extend_from_slice(b"read fault\n")?,
        Stop::Run(RunFault::Write) => text.extend_from_slice(b"write fault\n")?,
        Stop::Run(RunFault::Memory) => text.extend_from_slice(OUT_OF_MEMORY)?,
    }
    Ok(text)
}

fn put_catalogue(text: &mut Vec<u8>, fault: ReadFault) -> Result<(), AllocError>
    ensures { OnOk result (
        text.new.items ≡ text.old.items ++ refusal_line (NoCatalogue fault)) }
{
    match write!(text, "catalogue: {fault}\n") {
        Ok(()) => Ok(()),
        Err(_) => Err(AllocError),
    }
}

fn put_licensee(text: &mut Vec<u8>, place: usize, error: &ParseError<'_>) -> Result<(), AllocError>
    ensures { OnOk result (text.new.items ≡ text.old.items ++ refusal_line
        (NoLicensee place (fault_of error.now.reason) (span_of error.now.span))) }
{
    match write!(text, "licensee {place}: ") {
        Ok(()) => {}
        Err(_) => return Err(AllocError),
    }
    put_refusal(text, error)?;
    text.push(b'\n')?;
    Ok(())
}

fn status(stop: &Stop<'_>) -> u8
    ensures { result ≡ stop_status stop.now }
{
    match stop {
        Stop::Run(_) => 3,
        _ => 2,
    }
}

/// Whether the words name a catalogue and say how the lines are read. Where they don't, `serve` tells of the usage
/// whatever the catalogue holds, so nobody has to read it.
pub fn are_understood(words: &[&str]) -> bool
    ensures { result ≡ is_some (task_in (texts_of words.now)) }
{
    task_of(words).is_some()
}

/// Serves a program `spdx_lines CATALOGUE strict|lax|strict-all|lax-all|normal [LICENSEE]..`, apart from its arguments and
/// files, and answers its status. `words` are its arguments, or `None` where one is not UTF-8; `catalogue` is what the
/// file of the first one holds, or `None` where it cannot be read.
///
/// `run`, or `run_all` for the words that end in `-all`, answers the input under the catalogue, the mode and the
/// licensees: 0 if no line is refused, else 1, and nothing is written to `faults`. 2 if the words, the catalogue or a
/// licensee are refused, in this order; nothing is read or written then. 3 if the input or the output has failed, or
/// memory was refused. With 2 and 3 a line in `faults` says why; a failure there changes nothing else.
pub fn serve<I: Source, O: Sink, F: Write>(
    alloc: Global,
    words: Option<&[&str]>,
    catalogue: Option<&[u8]>,
    input: &mut I,
    output: &mut O,
    faults: &mut Output<F>,
) -> u8
    ensures { Serves words.entry catalogue.entry
        (devices (I.told input.old) (I.told input.new) (O.told output.old) (O.told output.new))
        (⟦<Output<F> as Sink>⟧.told faults.old) (⟦<Output<F> as Sink>⟧.told faults.new) result }
{
    let stop = match run_by(alloc, words, catalogue, input, output) {
        Ok(summary) => return u8::from(summary.refused != 0),
        Err(stop) => stop,
    };
    match line_of(alloc, &stop) {
        Ok(line) => {
            let _ = write_all(faults, &line);
            status(&stop)
        }
        Err(AllocError) => {
            let _ = write_all(faults, OUT_OF_MEMORY);
            3
        }
    }
}
