// A path that is named.

ghost use Rattle.std.specs.Prelude.{◌≡◌, None, Some, IfErr, IfOk, OnErr, OnOk, map};
ghost use Rattle.check_files.specs.Tally.{tally_of};
ghost use Rattle.check_files.specs.Told.{Does, IsBrokenOff, Writes};
ghost use Rattle.check_files.specs.Begun.{IsBeginning};
ghost use Rattle.check_program.specs.Begun.{ArePathsBegun, IsPartStepBegun, IsPartText, IsPathBegun, IsReadBegun};
ghost use Rattle.check_program.specs.Paths as spec;
ghost use Rattle.check_program.specs.Paths.{
  ArePathSteps,
  IsPartChecked,
  IsPartStep,
  IsPathStep,
  IsReadStep,
  path_in,
  ways_of,
};
ghost use Rattle.check_files.specs.declared.trouble.CheckFault.TheVariants.{Memory};
ghost use Rattle.check_program.specs.Trees.{manner_of};

use crate::lines::{check_list, pass_unread};
use crate::tree::{Manner, check_tree};
use check_files::{CheckFault, CheckTrouble, Telling, check_declared, check_tagged, pass_over};
use check_sources::{Source, Sums, bytes_or, utf16_text, without_mark};
use line_engine::device::Sink;
use manifests::Form;
use shelves::{OpenShelf, Shelf, bytes_at, told_path};
use source_trees::{Reading, ReadingFault, Taken, Wanted, reading_of};
use spdx_check::Check;
use std::alloc::Global;

/// What is taken of what is named.
#[derive(Clone, Copy)]
pub(crate) struct Ways<'w> {
    /// Which expressions are wanted.
    pub(crate) wanted: Wanted<'w>,
    /// The folder of license texts that was named.
    pub(crate) texts: Option<&'w str>,
    /// Whether files without a license are told.
    pub(crate) untagged: bool,
}

impl<'w> Ways<'w> {
    fn below(self, taken: Taken) -> Manner<'w>
        ensures { manner_of result ≡ spec.below (ways_of self.entry) taken }
    {
        Manner {
            taken,
            texts: self.texts,
            untagged: self.untagged,
        }
    }
}

/// Checks each path in turn.
///
/// # Errors
///
/// What is found can't be written, or memory was refused. What was written and told is then what comes of the paths before, and
/// a beginning of what comes of the next one.
pub(crate) fn check_paths<S: OpenShelf, O: Sink, T: Telling>(
    alloc: Global,
    shelf: &S,
    check: &Check<'_>,
    ways: Ways<'_>,
    paths: &[&str],
    sums: &mut Sums,
    output: &mut O,
    teller: &mut T,
) -> Result<(), CheckFault>
    ensures ok { OnOk result (Does (O.told output.old) (O.told output.new) (T.told teller.old)
        (T.told teller.new) (λ text told. ArePathSteps (S.Shelf.told shelf.now) check.now
        (ways_of ways.entry) (map path_in paths.now) (tally_of sums.old) text told
        (tally_of sums.new))) }
    ensures err { IfErr result (IsBrokenOff (O.told output.new)) }
    ensures begun { OnErr result (Does (O.told output.old) (O.told output.new)
        (T.told teller.old) (T.told teller.new) (λ text told. ArePathsBegun
        (S.Shelf.told shelf.now) check.now (ways_of ways.entry) (map path_in paths.now)
        (tally_of sums.old) text told)) }
{
    for path in paths {
        check_path(alloc, shelf, check, ways, *path, sums, output, teller)?;
    }
    Ok(())
}

fn check_path<S: OpenShelf, O: Sink, T: Telling>(
    alloc: Global,
    shelf: &S,
    check: &Check<'_>,
    ways: Ways<'_>,
    path: &str,
    sums: &mut Sums,
    output: &mut O,
    teller: &mut T,
) -> Result<(), CheckFault>
    ensures ok { OnOk result (Does (O.told output.old) (O.told output.new) (T.told teller.old)
        (T.told teller.new) (λ text told. IsPathStep (S.Shelf.told shelf.now) check.now
        (ways_of ways.entry) path.now (tally_of sums.old) text told (tally_of sums.new))) }
    ensures err { IfErr result (IsBrokenOff (O.told output.new)) }
    ensures begun { OnErr result (Does (O.told output.old) (O.told output.new)
        (T.told teller.old) (T.told teller.new) (λ text told. IsPathBegun
        (S.Shelf.told shelf.now) check.now (ways_of ways.entry) path.now (tally_of sums.old) text
        told)) }
{
    match reading_of(alloc, shelf, ways.wanted, path) {
        Ok(reading) => check_as(
            alloc, shelf, check, ways, reading, path, sums, output, teller,
        ),
        Err(fault) => pass_fault(alloc, fault, sums, teller),
    }
}

// Checks what is at the path, as it is read.
fn check_as<S: OpenShelf, O: Sink, T: Telling>(
    alloc: Global,
    shelf: &S,
    check: &Check<'_>,
    ways: Ways<'_>,
    reading: Reading,
    path: &str,
    sums: &mut Sums,
    output: &mut O,
    teller: &mut T,
) -> Result<(), CheckFault>
    ensures ok { OnOk result (Does (O.told output.old) (O.told output.new) (T.told teller.old)
        (T.told teller.new) (λ text told. IsReadStep (S.Shelf.told shelf.now) check.now
        (ways_of ways.entry) reading path.now (tally_of sums.old) text told
        (tally_of sums.new))) }
    ensures err { IfErr result (IsBrokenOff (O.told output.new)) }
    ensures begun { OnErr result (Does (O.told output.old) (O.told output.new)
        (T.told teller.old) (T.told teller.new) (λ text told. IsReadBegun
        (S.Shelf.told shelf.now) check.now (ways_of ways.entry) reading path.now
        (tally_of sums.old) text told)) }
{
    match reading {
        Reading::Lines => check_list(alloc, shelf, check, path, sums, output, teller),
        Reading::Tags => check_whole(alloc, shelf, check, None, path, sums, output, teller),
        Reading::Manifest(form) => {
            check_whole(alloc, shelf, check, Some(form), path, sums, output, teller)
        }
        Reading::Tree(taken) => check_tree(
            alloc,
            shelf,
            check,
            ways.below(taken),
            path,
            sums,
            output,
            teller,
        ),
    }
}

// What isn't read is told and passed over.
fn pass_fault<T: Telling>(
    alloc: Global,
    fault: ReadingFault,
    sums: &mut Sums,
    teller: &mut T,
) -> Result<(), CheckFault>
    ensures ok { OnOk result (spec.PassesFault fault (T.told teller.old)
        (T.told teller.new) (tally_of sums.old) (tally_of sums.new)) }
    ensures err { IfErr result (λ fault. fault ≡ Memory) }
    ensures memory { OnErr result (T.told teller.new ≡ T.told teller.old) }
{
    match trouble_of(fault) {
        Some(trouble) => pass_over(alloc, trouble, sums, teller),
        None => Err(CheckFault::Memory),
    }
}

fn trouble_of(fault: ReadingFault) -> Option<CheckTrouble>
    ensures { result ≡ spec.trouble_of_fault fault }
{
    match fault {
        ReadingFault::Unreadable(path, error) => Some(CheckTrouble::Unreadable(path, error)),
        ReadingFault::NoManifest(path) => Some(CheckTrouble::NoManifest(path)),
        ReadingFault::Folder(path) => Some(CheckTrouble::Folder(path)),
        ReadingFault::Memory => None,
    }
}

// Checks a file that is a manifest of this form, or else its tags.
fn check_whole<S: Shelf, O: Sink, T: Telling>(
    alloc: Global,
    shelf: &S,
    check: &Check<'_>,
    form: Option<Form>,
    path: &str,
    sums: &mut Sums,
    output: &mut O,
    teller: &mut T,
) -> Result<(), CheckFault>
    ensures ok { OnOk result (Does (O.told output.old) (O.told output.new) (T.told teller.old)
        (T.told teller.new) (λ text told. IsPartStep (S.told shelf.now) check.now form
        path.now (tally_of sums.old) text told (tally_of sums.new))) }
    ensures err { IfErr result (IsBrokenOff (O.told output.new)) }
    ensures begun { OnErr result (Does (O.told output.old) (O.told output.new)
        (T.told teller.old) (T.told teller.new) (λ text told. IsPartStepBegun
        (S.told shelf.now) check.now form path.now (tally_of sums.old) text told)) }
{
    let name = told_path(path);
    match bytes_at(alloc, shelf, path) {
        Ok(bytes) => check_part(alloc, check, form, name, &bytes, sums, output),
        Err(error) => pass_unread(alloc, name, error, sums, teller),
    }
}

fn check_part<O: Sink>(
    alloc: Global,
    check: &Check<'_>,
    form: Option<Form>,
    name: &str,
    bytes: &[u8],
    sums: &mut Sums,
    output: &mut O,
) -> Result<(), CheckFault>
    ensures ok { OnOk result (Writes (O.told output.old) (O.told output.new) (λ text.
        IsPartChecked check.now form name.now bytes.now (tally_of sums.old) text
        (tally_of sums.new))) }
    ensures err { IfErr result (IsBrokenOff (O.told output.new)) }
    ensures begun { OnErr result (Writes (O.told output.old) (O.told output.new) (IsBeginning
        (IsPartText check.now form name.now bytes.now (tally_of sums.old)))) }
{
    match form {
        Some(form) => check_manifest(alloc, check, form, name, bytes, sums, output),
        None => check_tags(alloc, check, name, bytes, sums, output),
    }
}

fn check_manifest<O: Sink>(
    alloc: Global,
    check: &Check<'_>,
    form: Form,
    name: &str,
    bytes: &[u8],
    sums: &mut Sums,
    output: &mut O,
) -> Result<(), CheckFault>
    ensures ok { OnOk result (Writes (O.told output.old) (O.told output.new) (λ text.
        IsPartChecked check.now (Some form) name.now bytes.now (tally_of sums.old) text
        (tally_of sums.new))) }
    ensures err { IfErr result (IsBrokenOff (O.told output.new)) }
    ensures begun { OnErr result (Writes (O.told output.old) (O.told output.new) (IsBeginning
        (IsPartText check.now (Some form) name.now bytes.now (tally_of sums.old)))) }
{
    let bytes = without_mark(bytes);
    let source = Source { path: name, bytes };
    check_declared(alloc, check, form, source, sums, output)?;
    Ok(())
}

fn check_tags<O: Sink>(
    alloc: Global,
    check: &Check<'_>,
    name: &str,
    bytes: &[u8],
    sums: &mut Sums,
    output: &mut O,
) -> Result<(), CheckFault>
    ensures ok { OnOk result (Writes (O.told output.old) (O.told output.new) (λ text.
        IsPartChecked check.now None name.now bytes.now (tally_of sums.old) text
        (tally_of sums.new))) }
    ensures err { IfErr result (IsBrokenOff (O.told output.new)) }
    ensures begun { OnErr result (Writes (O.told output.old) (O.told output.new) (IsBeginning
        (IsPartText check.now None name.now bytes.now (tally_of sums.old)))) }
{
    let text = utf16_text(alloc, bytes)?;
    let bytes = bytes_or(&text, bytes);
    let source = Source { path: name, bytes };
    check_tagged(alloc, check, source, sums, output)?;
    Ok(())
}
