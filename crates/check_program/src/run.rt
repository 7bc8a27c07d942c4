// A run over all paths.

ghost use Rattle.std.specs.Prelude.{◌≡◌, ◌<◌, ◌++◌, IfErr, IfOk, OnErr, OnOk};
ghost use Rattle.std.specs.Io.KnownBytes.{Appends};
ghost use Rattle.line_engine.specs.Progress.{AppendsBeginning};
ghost use Rattle.finding_forms.specs.Forms.{beginning, ending};
ghost use Rattle.check_files.specs.Told.{Does, IsBrokenOff};
ghost use Rattle.check_program.specs.Clean.{AreAllClean};
ghost use Rattle.check_program.specs.Logs.{WritesOneLog};
ghost use Rattle.check_program.specs.Runs as spec;
ghost use Rattle.check_program.specs.Runs.{IsNoRun, IsRun, last_lines};

use crate::path::{Ways, check_paths};
use check_files::{CheckFault, Telling};
use check_sources::{Sums, summary_of};
use finding_forms::{Format, put_beginning, put_ending};
use line_engine::device::Sink;
use line_engine::lines::write_all;
use list_program::{Inside as ListInside, ListTrouble, extras_inside, named_list};
use shelves::OpenShelf;
use source_trees::Wanted;
use spdx_check::Check;
use spdx_lexer::token::ParseMode;
use std::alloc::{AllocError, Global};
use std::mem::forget;

/// What the program has inside.
#[derive(Clone, Copy)]
pub struct Inside<'i> {
    /// The list, and what this project says besides SPDX's files.
    pub list: ListInside<'i>,
    /// What to write in place of names: extras of which the other members may be left out.
    pub replacements: &'i [u8],
    /// The version that logs tell.
    pub version: &'i str,
}

/// What is asked of a run.
#[derive(Clone, Copy)]
pub struct Request<'a> {
    /// The path of the list, where one is named.
    pub list: Option<&'a str>,
    /// How expressions are read.
    pub mode: ParseMode,
    /// How findings are written.
    pub format: Format,
    /// Which expressions are checked.
    pub wanted: Wanted<'a>,
    /// The folder of license texts, where one is named.
    pub texts: Option<&'a str>,
    /// Whether files without a license are told.
    pub untagged: bool,
    /// Whether the last lines are written, in the formats that people read.
    pub summary: bool,
    /// The paths of the files and folders; `-` is standard input.
    pub paths: &'a [&'a str],
}

/// Why a run ends before its end.
#[derive(Drop)]
pub enum CheckEnd {
    /// There is no list that expressions are read by, and nothing is written.
    List(ListTrouble),
    /// What is found can't be written.
    Output,
    Memory,
}

impl From<ListTrouble> for CheckEnd {
    ghost use Rattle.std.specs.Prelude.{◌≡◌};
    ghost use Rattle.check_program.specs.declared.run.CheckEnd.TheVariants.{List};

    ghost from_gives = { λ list end. end ≡ List list };

    fn from(trouble: ListTrouble) -> CheckEnd {
        CheckEnd::List(trouble)
    }
}

impl From<CheckFault> for CheckEnd {
    ghost use Rattle.check_program.specs.Runs.{IsEndOf};

    ghost from_gives = { IsEndOf };

    fn from(fault: CheckFault) -> CheckEnd {
        match fault {
            CheckFault::Output => CheckEnd::Output,
            CheckFault::Memory => CheckEnd::Memory,
        }
    }
}

/// Checks each path in turn, by the list that is named or else inside, writes what is found and tells what is passed over; and
/// answers the status: 2 where something was passed over, else 1 where something was found, else 0. Findings are written as
/// they are found. So where the status is 0, all is read, and each expression is accepted. In SARIF a run writes one log, whatever
/// files there are.
///
/// # Errors
///
/// The list isn't had, and nothing is written; what is found can't be written; or memory was refused. Of a run that breaks off a
/// beginning is written and told: what comes of the paths before, and a beginning of what comes of the next one.
pub fn check<S: OpenShelf, O: Sink, T: Telling>(
    alloc: Global,
    shelf: &S,
    inside: Inside<'_>,
    request: Request<'_>,
    output: &mut O,
    teller: &mut T,
) -> Result<u8, CheckEnd>
    ensures ok { IfOk result (λ status. Does (O.told output.old) (O.told output.new)
        (T.told teller.old) (T.told teller.new) (λ text told. IsRun (S.Shelf.told shelf.now)
        (spec.inside_of inside.entry) request.entry text told status)) }
    ensures err { IfErr result (IsNoRun (S.Shelf.told shelf.now) (spec.inside_of inside.entry)
        request.entry (O.told output.old) (O.told output.new) (T.told teller.old)
        (T.told teller.new)) }
    ensures passes { IfOk result (λ status. status < 1 → AreAllClean (S.Shelf.told shelf.now)
        (spec.inside_of inside.entry) request.entry) }
    ensures log { WritesOneLog (S.Shelf.told shelf.now) (spec.inside_of inside.entry)
        request.entry }
{
    let status = check_all(alloc, shelf, inside, request, output, teller)?;
    Ok(status)
}

// The same, of which nothing is said yet that follows from the status or of the format.
fn check_all<S: OpenShelf, O: Sink, T: Telling>(
    alloc: Global,
    shelf: &S,
    inside: Inside<'_>,
    request: Request<'_>,
    output: &mut O,
    teller: &mut T,
) -> Result<u8, CheckEnd>
    ensures ok { IfOk result (λ status. Does (O.told output.old) (O.told output.new)
        (T.told teller.old) (T.told teller.new) (λ text told. IsRun (S.Shelf.told shelf.now)
        (spec.inside_of inside.entry) request.entry text told status)) }
    ensures err { IfErr result (IsNoRun (S.Shelf.told shelf.now) (spec.inside_of inside.entry)
        request.entry (O.told output.old) (O.told output.new) (T.told teller.old)
        (T.told teller.new)) }
{
    let catalogue = named_list(alloc, shelf, inside.list, request.list)?;
    let extras = extras_inside(alloc, inside.replacements)?;
    let check = Check {
        catalogue: &catalogue,
        replacements: extras.instead.as_slice(),
        mode: request.mode,
        format: request.format,
    };
    let status = check_by(
        alloc,
        shelf,
        &check,
        inside.version,
        request,
        output,
        teller,
    )?;
    // The program ends here; to give back each row would take a tenth of a short run.
    forget(catalogue);
    Ok(status)
}

// The same by what is known of the list.
fn check_by<S: OpenShelf, O: Sink, T: Telling>(
    alloc: Global,
    shelf: &S,
    check: &Check<'_>,
    version: &str,
    request: Request<'_>,
    output: &mut O,
    teller: &mut T,
) -> Result<u8, CheckFault>
    ensures ok { IfOk result (λ status. Does (O.told output.old) (O.told output.new)
        (T.told teller.old) (T.told teller.new) (λ text told.
        spec.IsRunBy (S.Shelf.told shelf.now) check.now version.now request.entry text told
        status)) }
    ensures err { IfErr result (IsBrokenOff (O.told output.new)) }
    ensures begun { OnErr result (Does (O.told output.old) (O.told output.new)
        (T.told teller.old) (T.told teller.new) (λ text told.
        spec.IsRunBegun (S.Shelf.told shelf.now) check.now version.now request.entry text
        told)) }
{
    let mut sums = Sums::new(alloc);
    put_first(alloc, check.format, version, output)?;
    let ways = Ways {
        wanted: request.wanted,
        texts: request.texts,
        untagged: request.untagged,
    };
    check_paths(
        alloc,
        shelf,
        check,
        ways,
        request.paths,
        &mut sums,
        output,
        teller,
    )?;
    put_last(alloc, check.format, request.summary, &sums, output)?;
    Ok(sums.status())
}

// Writes what stands before all findings.
fn put_first<O: Sink>(
    alloc: Global,
    format: Format,
    version: &str,
    output: &mut O,
) -> Result<(), CheckFault>
    ensures ok { OnOk result (Appends (O.told output.old).bytes (O.told output.new).bytes
        (beginning format version.now)) }
    ensures err { IfErr result (IsBrokenOff (O.told output.new)) }
    ensures begun { OnErr result (AppendsBeginning (O.told output.old).bytes
        (O.told output.new).bytes (beginning format version.now)) }
{
    let mut text = Vec::new(alloc);
    put_beginning(alloc, &mut text, format, version)?;
    write_all(output, &text)?;
    Ok(())
}

// Writes what stands behind all findings.
fn put_last<O: Sink>(
    alloc: Global,
    format: Format,
    summary: bool,
    sums: &Sums,
    output: &mut O,
) -> Result<(), CheckFault>
    ensures ok { OnOk result (Appends (O.told output.old).bytes (O.told output.new).bytes
        (ending format ++ last_lines summary format sums.now)) }
    ensures err { IfErr result (IsBrokenOff (O.told output.new)) }
    ensures begun { OnErr result (AppendsBeginning (O.told output.old).bytes
        (O.told output.new).bytes (ending format ++ last_lines summary format sums.now)) }
{
    let mut text = Vec::new(alloc);
    put_ending(&mut text, format)?;
    put_summary(alloc, format, summary, sums, &mut text)?;
    write_all(output, &text)?;
    Ok(())
}

fn put_summary(
    alloc: Global,
    format: Format,
    summary: bool,
    sums: &Sums,
    text: &mut Vec<u8>,
) -> Result<(), AllocError>
    ensures { OnOk result (text.new.items
        ≡ text.old.items ++ last_lines summary format sums.now) }
{
    if summary && is_read(format) {
        let mut lines = summary_of(alloc, sums)?;
        text.append(&mut lines)?;
    }
    Ok(())
}

// Whether people read it.
fn is_read(format: Format) -> bool
    ensures { result ≡ spec.is_read format }
{
    matches!(format, Format::Human(_) | Format::Short)
}
