// A file below a folder.

ghost use Rattle.std.specs.Prelude.{◌≡◌, ◌==◌, ◌&&◌, IfErr, IfOk, OnErr, OnOk, map, string_bytes};
ghost use Rattle.std.specs.Option.{option_copied};
ghost use Rattle.check_files.specs.Begun.{IsBeginning, IsDeclaredText, IsFileBegun, IsTaggedText, IsTextBegun};
ghost use Rattle.check_files.specs.Files as spec;
ghost use Rattle.check_files.specs.Files.{
  IsFileChecked,
  IsFileStep,
  has_both,
  is_wanted,
};
ghost use Rattle.check_files.specs.Noted.{notes_of};
ghost use Rattle.check_files.specs.Tally.{once, tally_of};
ghost use Rattle.check_files.specs.Told.{Does, IsBrokenOff, Writes};

use crate::noted::{Noted, note_bare, note_declared, note_tagged};
use crate::parts::{check_declared, check_tagged};
use crate::telling::Telling;
use crate::trouble::{CheckFault, CheckTrouble, pass_over};
use check_sources::{Source, Sums, bytes_or, utf16_text, without_mark};
use line_engine::device::Sink;
use manifests::Form;
use shelves::Shelf;
use source_trees::{Taken, form_below};
use spdx_check::Check;
use std::alloc::{AllocError, Global};

/// What is read of the files below a folder.
#[derive(Clone, Copy)]
pub struct Below<'b> {
    /// What is taken of them.
    pub taken: Taken,
    /// The folder of license texts, where there is one.
    pub folder: Option<&'b str>,
}

/// Checks the file at the path: what it declares, if it is a manifest, and then its tags, as they are taken. What is found is
/// written, and counted; which license texts it needs is noted, and whether it has no license. A file that can't be read is
/// told and passed over.
///
/// # Errors
///
/// What is found can't be written, or memory was refused. A beginning of it is written then, and nothing is told.
#[tactic(auto, using(crate::proofs::Doing::nothing))]
pub fn check_file<S: Shelf, O: Sink, T: Telling>(
    alloc: Global,
    shelf: &S,
    check: &Check<'_>,
    below: Below<'_>,
    path: &str,
    noted: &mut Noted,
    sums: &mut Sums,
    output: &mut O,
    teller: &mut T,
) -> Result<(), CheckFault>
    ensures ok { OnOk result (Does (O.told output.old) (O.told output.new) (T.told teller.old)
        (T.told teller.new) (λ text told. IsFileStep (S.told shelf.now) check.now
        below.entry.taken (option_copied below.entry.folder) path.now (tally_of sums.old)
        (notes_of noted.old) text told (tally_of sums.new) (notes_of noted.new))) }
    ensures err { IfErr result (IsBrokenOff (O.told output.new)) }
    ensures begun { OnErr result (Does (O.told output.old) (O.told output.new)
        (T.told teller.old) (T.told teller.new) (λ text told. IsFileBegun (S.told shelf.now)
        check.now below.entry.taken (option_copied below.entry.folder) path.now
        (tally_of sums.old) (notes_of noted.old) text told)) }
{
    if !is_wanted(below.taken, path) {
        return Ok(());
    }
    match shelf.read(alloc, path) {
        Ok(bytes) => check_bytes(
            alloc, shelf, check, below, path, &bytes, noted, sums, output,
        ),
        Err(error) => {
            let path = String::from_str(alloc, path)?;
            pass_over(alloc, CheckTrouble::Unreadable(path, error), sums, teller)
        }
    }
}

// Whether anything of the file is taken.
fn is_wanted(taken: Taken, path: &str) -> bool
    ensures { result ≡ is_wanted taken path.now }
{
    taken.tags || form_below(taken, path).is_some()
}

fn check_bytes<S: Shelf, O: Sink>(
    alloc: Global,
    shelf: &S,
    check: &Check<'_>,
    below: Below<'_>,
    path: &str,
    bytes: &[u8],
    noted: &mut Noted,
    sums: &mut Sums,
    output: &mut O,
) -> Result<(), CheckFault>
    ensures ok { OnOk result (Writes (O.told output.old) (O.told output.new) (λ text.
        IsFileChecked (S.told shelf.now) check.now below.entry.taken
        (option_copied below.entry.folder) path.now bytes.now (tally_of sums.old)
        (notes_of noted.old) text (tally_of sums.new) (notes_of noted.new))) }
    ensures err { IfErr result (IsBrokenOff (O.told output.new)) }
    ensures begun { OnErr result (Writes (O.told output.old) (O.told output.new)
        (IsTextBegun check.now below.entry.taken (option_copied below.entry.folder) path.now
        bytes.now (tally_of sums.old) (notes_of noted.old))) }
{
    let form = form_below(below.taken, path);
    let folder = below.folder;
    let declared = declared_part(
        alloc,
        check,
        folder,
        form,
        path,
        bytes,
        &mut noted.used,
        sums,
        output,
    )?;
    let tagged = tags_part(
        alloc,
        check,
        below,
        path,
        bytes,
        &mut noted.used,
        sums,
        output,
    )?;
    count_once(sums, has_both(declared, tagged));
    note_file(
        alloc,
        shelf,
        has_none(declared, tagged),
        folder,
        path,
        bytes,
        &mut noted.untagged,
    )?;
    Ok(())
}

// Whether neither a manifest nor a tag has an expression.
fn has_none(declared: u64, tagged: u64) -> bool
    ensures { result ≡ ((declared == 0) && (tagged == 0)) }
{
    declared == 0 && tagged == 0
}

// Whether both have one.
fn has_both(declared: u64, tagged: u64) -> bool
    ensures { result ≡ has_both declared tagged }
{
    declared != 0 && tagged != 0
}

// Takes back the second count of a file that was counted for both.
fn count_once(sums: &mut Sums, has_both: bool)
    ensures { tally_of sums.new ≡ once has_both (tally_of sums.old) }
{
    if has_both {
        sums.totals.files = sums.totals.files.saturating_sub(1);
    }
}

// Notes a file without an expression as one without a license, if it is one.
fn note_file<S: Shelf>(
    alloc: Global,
    shelf: &S,
    is_without: bool,
    folder: Option<&str>,
    path: &str,
    bytes: &[u8],
    untagged: &mut Vec<String>,
) -> Result<(), AllocError>
    ensures { OnOk result (spec.NotesFile is_without (S.told shelf.now)
        (option_copied folder.entry) path.now bytes.now (map string_bytes untagged.old.items)
        (map string_bytes untagged.new.items)) }
{
    if is_without {
        note_bare(alloc, shelf, folder, path, bytes, untagged)
    } else {
        Ok(())
    }
}

// What a manifest declares.
fn declared_part<O: Sink>(
    alloc: Global,
    check: &Check<'_>,
    folder: Option<&str>,
    form: Option<Form>,
    path: &str,
    bytes: &[u8],
    used: &mut Vec<String>,
    sums: &mut Sums,
    output: &mut O,
) -> Result<u64, CheckFault>
    ensures ok { IfOk result (λ count. Writes (O.told output.old) (O.told output.new) (λ text.
        spec.DeclaresPart check.now (option_copied folder.entry) form path.now bytes.now
        (tally_of sums.old) (map string_bytes used.old.items) text count (tally_of sums.new)
        (map string_bytes used.new.items))) }
    ensures err { IfErr result (IsBrokenOff (O.told output.new)) }
    ensures begun { OnErr result (Writes (O.told output.old) (O.told output.new) (IsBeginning
        (IsDeclaredText check.now form path.now bytes.now (tally_of sums.old)))) }
{
    let Some(form) = form else {
        return Ok(0);
    };
    let bytes = without_mark(bytes);
    let source = Source { path, bytes };
    let declared = check_declared(alloc, check, form, source, sums, output)?;
    note_declared(alloc, check, folder, form, &declared.sites, used)?;
    Ok(declared.count)
}

// What stands behind its tags, where they are taken.
fn tags_part<O: Sink>(
    alloc: Global,
    check: &Check<'_>,
    below: Below<'_>,
    path: &str,
    bytes: &[u8],
    used: &mut Vec<String>,
    sums: &mut Sums,
    output: &mut O,
) -> Result<u64, CheckFault>
    ensures ok { IfOk result (λ count. Writes (O.told output.old) (O.told output.new) (λ text.
        spec.TagsPart check.now (option_copied below.entry.folder) below.entry.taken.tags
        path.now bytes.now (tally_of sums.old) (map string_bytes used.old.items) text count
        (tally_of sums.new) (map string_bytes used.new.items))) }
    ensures err { IfErr result (IsBrokenOff (O.told output.new)) }
    ensures begun { OnErr result (Writes (O.told output.old) (O.told output.new) (IsBeginning
        (IsTaggedText check.now below.entry.taken.tags path.now bytes.now
        (tally_of sums.old)))) }
{
    if !below.taken.tags {
        return Ok(0);
    }
    let text = utf16_text(alloc, bytes)?;
    let bytes = bytes_or(&text, bytes);
    let source = Source { path, bytes };
    let count = check_tagged(alloc, check, source, sums, output)?;
    note_tagged(alloc, check, below.folder, source, used)?;
    Ok(count)
}
