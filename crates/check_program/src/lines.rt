// A file, or standard input, that has an expression a line.

ghost use Rattle.std.specs.Prelude.{◌≡◌, ◌∷◌, [], IfErr, OnErr, OnOk, codes, string_bytes};
ghost use Rattle.check_files.specs.Tally.{tally_of, with_lines};
ghost use Rattle.check_files.specs.Told.{Does, IsBrokenOff};
ghost use Rattle.check_files.specs.declared.trouble.CheckFault.TheVariants.{Memory};
ghost use Rattle.shelves.specs.AtPath.{told_path};
ghost use Rattle.shelves.specs.Opened.{MayHave};
ghost use Rattle.check_program.specs.Begun.{IsLinesStepBegun};
ghost use Rattle.check_program.specs.Lines.{AreRead, Gives, IsLinesStep, IsLinesStepOf, of_file, of_input, opened};
ghost use Rattle.check_program.specs.Unread.{PassesBroken, PassesUnread};

use check_files::{CheckFault, CheckTrouble, Telling, pass_over};
use check_sources::Sums;
use line_engine::device::{Sink, Source};
use shelves::{OpenShelf, is_input};
use spdx_check::{Check, Checked, LinesFault, check_lines};
use std::alloc::Global;
use std::io;

/// Writes the findings of the lines of the file, or of standard input, and counts them. Where it can't be opened, or what is read
/// breaks off behind these lines, that is told and it is passed over.
///
/// # Errors
///
/// What is found can't be written, or memory was refused.
pub(crate) fn check_list<S: OpenShelf, O: Sink, T: Telling>(
    alloc: Global,
    shelf: &S,
    check: &Check<'_>,
    path: &str,
    sums: &mut Sums,
    output: &mut O,
    teller: &mut T,
) -> Result<(), CheckFault>
    ensures ok { OnOk result (Does (O.told output.old) (O.told output.new) (T.told teller.old)
        (T.told teller.new) (λ text told. IsLinesStep (S.Shelf.told shelf.now) check.now path.now
        (tally_of sums.old) text told (tally_of sums.new))) }
    ensures err { IfErr result (IsBrokenOff (O.told output.new)) }
    ensures begun { OnErr result (Does (O.told output.old) (O.told output.new)
        (T.told teller.old) (T.told teller.new) (λ text told. IsLinesStepBegun
        (Gives (S.Shelf.told shelf.now) path.now) check.now (told_path path.now)
        (tally_of sums.old) text told)) }
{
    if is_input(path) {
        check_input(alloc, shelf, check, sums, output, teller)
    } else {
        check_file(alloc, shelf, check, path, sums, output, teller)
    }
}

fn check_input<S: OpenShelf, O: Sink, T: Telling>(
    alloc: Global,
    shelf: &S,
    check: &Check<'_>,
    sums: &mut Sums,
    output: &mut O,
    teller: &mut T,
) -> Result<(), CheckFault>
    ensures ok { OnOk result (Does (O.told output.old) (O.told output.new) (T.told teller.old)
        (T.told teller.new) (λ text told. IsLinesStepOf (of_input (S.Shelf.told shelf.now))
        check.now (codes "<stdin>") (tally_of sums.old) text told (tally_of sums.new))) }
    ensures err { IfErr result (IsBrokenOff (O.told output.new)) }
    ensures begun { OnErr result (Does (O.told output.old) (O.told output.new)
        (T.told teller.old) (T.told teller.new) (λ text told. IsLinesStepBegun
        (S.Shelf.told shelf.now).IsInput check.now (codes "<stdin>") (tally_of sums.old) text
        told)) }
{
    match shelf.open_input(alloc) {
        Ok(input) => check_stream(alloc, check, "<stdin>", input, sums, output, teller),
        Err(error) => pass_unread(alloc, "<stdin>", error, sums, teller),
    }
}

fn check_file<S: OpenShelf, O: Sink, T: Telling>(
    alloc: Global,
    shelf: &S,
    check: &Check<'_>,
    path: &str,
    sums: &mut Sums,
    output: &mut O,
    teller: &mut T,
) -> Result<(), CheckFault>
    ensures ok { OnOk result (Does (O.told output.old) (O.told output.new) (T.told teller.old)
        (T.told teller.new) (λ text told. IsLinesStepOf
        (of_file (S.Shelf.told shelf.now) path.now) check.now path.now (tally_of sums.old) text told
        (tally_of sums.new))) }
    ensures err { IfErr result (IsBrokenOff (O.told output.new)) }
    ensures begun { OnErr result (Does (O.told output.old) (O.told output.new)
        (T.told teller.old) (T.told teller.new) (λ text told. IsLinesStepBegun
        ((S.Shelf.told shelf.now).Holds path.now) check.now path.now (tally_of sums.old) text
        told)) }
{
    match shelf.open(alloc, path) {
        Ok(file) => check_stream(alloc, check, path, file, sums, output, teller),
        Err(error) => pass_unread(alloc, path, error, sums, teller),
    }
}

// What can't be opened or read is told by this name and passed over.
pub(crate) fn pass_unread<T: Telling>(
    alloc: Global,
    name: &str,
    error: io::Error,
    sums: &mut Sums,
    teller: &mut T,
) -> Result<(), CheckFault>
    ensures ok { OnOk result (PassesUnread name.now error (T.told teller.old)
        (T.told teller.new) (tally_of sums.old) (tally_of sums.new)) }
    ensures err { IfErr result (λ fault. fault ≡ Memory) }
    ensures memory { OnErr result (T.told teller.new ≡ T.told teller.old) }
{
    let name = String::from_str(alloc, name)?;
    pass_over(alloc, CheckTrouble::Unreadable(name, error), sums, teller)
}

fn check_stream<I: Source + Drop, O: Sink, T: Telling>(
    alloc: Global,
    check: &Check<'_>,
    name: &str,
    mut input: I,
    sums: &mut Sums,
    output: &mut O,
    teller: &mut T,
) -> Result<(), CheckFault>
    ensures ok { OnOk result (Does (O.told output.old) (O.told output.new) (T.told teller.old)
        (T.told teller.new) (λ text told. AreRead (opened (I.told input) (I.MayFail input))
        check.now name.now (tally_of sums.old) text told (tally_of sums.new))) }
    ensures err { IfErr result (IsBrokenOff (O.told output.new)) }
    ensures begun { OnErr result (Does (O.told output.old) (O.told output.new)
        (T.told teller.old) (T.told teller.new) (λ text told. IsLinesStepBegun
        (MayHave (I.told input).bytes) check.now name.now (tally_of sums.old) text told)) }
{
    match check_lines(alloc, check, sums.is_clean(), name, &mut input, output) {
        Ok(checked) => {
            count(sums, checked);
            Ok(())
        }
        Err(LinesFault::Read(checked)) => {
            count(sums, checked);
            pass_broken(alloc, name, sums, teller)
        }
        Err(LinesFault::Write) => Err(CheckFault::Output),
        Err(LinesFault::Memory) => Err(CheckFault::Memory),
    }
}

// Counts the lines that aren't blank, and those that are refused.
fn count(sums: &mut Sums, checked: Checked)
    ensures { tally_of sums.new ≡ with_lines checked.summary checked.blanks (tally_of sums.old) }
{
    let Checked { summary, blanks } = checked;
    sums.totals
        .add(summary.lines.saturating_sub(blanks), summary.refused);
}

fn pass_broken<T: Telling>(
    alloc: Global,
    name: &str,
    sums: &mut Sums,
    teller: &mut T,
) -> Result<(), CheckFault>
    ensures ok { OnOk result (PassesBroken name.now (T.told teller.old) (T.told teller.new)
        (tally_of sums.old) (tally_of sums.new)) }
    ensures err { IfErr result (λ fault. fault ≡ Memory) }
    ensures memory { OnErr result (T.told teller.new ≡ T.told teller.old) }
{
    let name = String::from_str(alloc, name)?;
    pass_over(alloc, CheckTrouble::Broken(name), sums, teller)
}
