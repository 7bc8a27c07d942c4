// What is done with all that a walk comes to.

ghost use Rattle.std.specs.Prelude.{◌≡◌, [], IfErr, OnErr, OnOk, string_bytes};
ghost use Rattle.std.specs.Option.{option_copied};
ghost use Rattle.check_files.specs.Noted.{notes_of};
ghost use Rattle.check_files.specs.Tally.{tally_of, with_left_out};
ghost use Rattle.check_files.specs.Told.{Does, Hears, IsBrokenOff};
ghost use Rattle.check_files.specs.declared.trouble.CheckFault.TheVariants.{Memory};
ghost use Rattle.source_trees.specs.Walks.{waiting};
ghost use Rattle.source_trees.specs.declared.walk.Seen.TheVariants.{Folder};
ghost use Rattle.check_program.specs.TreeBegun.{IsSeenBegun, IsWalkBegun};
ghost use Rattle.check_program.specs.Steps.{IsSeenStep, IsWalked, PassesIf, trouble_of, with_left};

use check_files::{Below, CheckFault, CheckTrouble, Noted, Telling, check_file, pass_over};
use check_sources::Sums;
use line_engine::device::Sink;
use shelves::Shelf;
use source_trees::{Seen, Walk};
use spdx_check::Check;
use std::alloc::{AllocError, Global};

/// Does what is to be done with all that the walk has yet to come to.
///
/// # Errors
///
/// What is found can't be written, or memory was refused.
pub(crate) fn walked<S: Shelf, O: Sink, T: Telling>(
    alloc: Global,
    shelf: &S,
    check: &Check<'_>,
    below: Below<'_>,
    mut walk: Walk,
    noted: &mut Noted,
    sums: &mut Sums,
    output: &mut O,
    teller: &mut T,
) -> Result<(), CheckFault>
    ensures ok { OnOk result (IsWalked (S.told shelf.now) check.now below.entry.taken
        (option_copied below.entry.folder) (waiting walk) (tally_of sums.old) (notes_of noted.old)
        (O.told output.old) (O.told output.new) (T.told teller.old) (T.told teller.new)
        (tally_of sums.new) (notes_of noted.new)) }
    ensures err { IfErr result (IsBrokenOff (O.told output.new)) }
    ensures begun { OnErr result (Does (O.told output.old) (O.told output.new)
        (T.told teller.old) (T.told teller.new) (λ text told. IsWalkBegun (S.told shelf.now)
        check.now below.entry.taken (option_copied below.entry.folder) (waiting walk)
        (tally_of sums.old) (notes_of noted.old) text told)) }
{
    let mut files = 0;
    for turn in 0..u64::MAX {
        let Some(seen) = walk.next(alloc, shelf)? else {
            teller.ended();
            return Ok(());
        };
        files = show_one_more(alloc, files, &seen, teller)?;
        check_seen(
            alloc, shelf, check, below, seen, noted, sums, output, teller,
        )?;
    }
    // so many have no room in memory
    Err(CheckFault::Memory)
}

// Shows that a file is come to, and answers how many were.
fn show_one_more<T: Telling>(
    alloc: Global,
    files: u64,
    seen: &Seen,
    teller: &mut T,
) -> Result<u64, AllocError>
    ensures { Hears (T.told teller.old) (T.told teller.new) [] }
{
    if !matches!(seen, Seen::File(_)) {
        return Ok(files);
    }
    teller.seen(alloc, files)?;
    Ok(files.saturating_add(1))
}

// Checks what a walk comes to, if it is a file; else counts or notes it, or tells that it is passed over.
#[tactic(auto, using(crate::proofs::Seeing::unheard, crate::proofs::Seeing::passed))]
fn check_seen<S: Shelf, O: Sink, T: Telling>(
    alloc: Global,
    shelf: &S,
    check: &Check<'_>,
    below: Below<'_>,
    seen: Seen,
    noted: &mut Noted,
    sums: &mut Sums,
    output: &mut O,
    teller: &mut T,
) -> Result<(), CheckFault>
    ensures ok { OnOk result (Does (O.told output.old) (O.told output.new) (T.told teller.old)
        (T.told teller.new) (λ text told. IsSeenStep (S.told shelf.now) check.now
        below.entry.taken (option_copied below.entry.folder) seen (tally_of sums.old)
        (notes_of noted.old) text told (tally_of sums.new) (notes_of noted.new))) }
    ensures err { IfErr result (IsBrokenOff (O.told output.new)) }
    ensures begun { OnErr result (Does (O.told output.old) (O.told output.new)
        (T.told teller.old) (T.told teller.new) (λ text told. IsSeenBegun (S.told shelf.now)
        check.now below.entry.taken (option_copied below.entry.folder) seen (tally_of sums.old)
        (notes_of noted.old) text told)) }
{
    match seen {
        Seen::File(path) => check_file(
            alloc,
            shelf,
            check,
            below,
            path.as_str(),
            noted,
            sums,
            output,
            teller,
        ),
        Seen::LeftOut(path) => {
            leave_out(path, sums)?;
            Ok(())
        }
        Seen::LeftBehind(path) => {
            note_left(path, noted)?;
            Ok(())
        }
        Seen::Folder(path, unnamed) => pass_unnamed(alloc, path, unnamed, sums, teller),
        Seen::Unread(path, error) => {
            pass_over(alloc, CheckTrouble::Unreadable(path, error), sums, teller)
        }
    }
}

fn leave_out(path: String, sums: &mut Sums) -> Result<(), AllocError>
    ensures { OnOk result (
        tally_of sums.new ≡ with_left_out (string_bytes path) (tally_of sums.old)) }
{
    sums.left_out.push(path)?;
    Ok(())
}

fn note_left(path: String, noted: &mut Noted) -> Result<(), AllocError>
    ensures { OnOk result (notes_of noted.new ≡ with_left path (notes_of noted.old)) }
{
    noted.left_behind.push(path)?;
    Ok(())
}

// Those in the folder are passed over whose names are no UTF-8.
fn pass_unnamed<T: Telling>(
    alloc: Global,
    path: String,
    unnamed: u64,
    sums: &mut Sums,
    teller: &mut T,
) -> Result<(), CheckFault>
    ensures ok { OnOk result (PassesIf (trouble_of (Folder path unnamed)) (T.told teller.old)
        (T.told teller.new) (tally_of sums.old) (tally_of sums.new)) }
    ensures err { IfErr result (λ fault. fault ≡ Memory) }
    ensures memory { OnErr result (T.told teller.new ≡ T.told teller.old) }
{
    if unnamed == 0 {
        Ok(())
    } else {
        pass_over(alloc, CheckTrouble::Unnamed(path, unnamed), sums, teller)
    }
}
