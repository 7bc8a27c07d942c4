// A run, over a shelf.

ghost use Rattle.std.specs.Prelude.{◌≡◌, ◌<◌, IfErr, IfOk, false};
ghost use Rattle.list_program.specs.Named.{inside_of};
ghost use Rattle.notice_program.specs.Law.{
  AreAllNoticed,
  HasNoChoice,
  IsWrittenExactly,
  is_written,
};
ghost use Rattle.notice_program.specs.Run as spec;
ghost use Rattle.notice_program.specs.Run.{
  IsEnd,
  IsFilesEnd,
  IsNoRun,
  IsRun,
  IsRunOver,
  IsUnchosen,
  status_of,
};

use crate::end::{End, Request};
use crate::page::chosen_end;
use crate::taken::{all_entries, packages_of};
use choice_program::{ChoiceTrouble, choose};
use gate_program::PolicyTrouble;
use list_program::{Inside, ListTrouble, named_list};
use package_files::{AllListed, FileFault, Listed, all_listed_at};
use shelves::Shelf;
use spdx_catalogue::Catalogue;
use std::alloc::{AllocError, Global};
use std::io::ErrorKind;

/// What comes of a run.
#[derive(Drop)]
pub struct Run {
    /// The packages of each file that is read.
    pub files: Vec<Listed>,
    /// The fault of each file that is left out.
    pub left_out: Vec<FileFault>,
    pub end: End,
}

/// Why no file is read.
#[derive(Drop)]
pub enum NoticeTrouble {
    List(ListTrouble),
    Memory,
}

impl From<AllocError> for NoticeTrouble {
    ghost use Rattle.std.specs.Prelude.{◌≡◌};
    ghost use Rattle.notice_program.specs.declared.run.NoticeTrouble.TheVariants.{Memory};

    ghost from_gives = { λ _ t. t ≡ Memory };

    fn from(_error: AllocError) -> NoticeTrouble {
        NoticeTrouble::Memory
    }
}

impl From<ListTrouble> for NoticeTrouble {
    ghost use Rattle.std.specs.Prelude.{◌≡◌};
    ghost use Rattle.notice_program.specs.declared.run.NoticeTrouble.TheVariants.{List};

    ghost from_gives = { λ list t. t ≡ List list };

    fn from(trouble: ListTrouble) -> NoticeTrouble {
        NoticeTrouble::List(trouble)
    }
}

impl Run {
    /// The status: 0 exactly if a page is written; 1 where some package has no choice, or the page is held back for a text that
    /// is missing; else 2.
    pub fn status(&self) -> u8
        ensures { result ≡ status_of self.now }
    {
        self.end.status()
    }
}

/// Reads the list and the files, chooses what each package is used under, and reads the texts; what stands in the place of the
/// list's deprecated names is said by `replacements`. Nothing is written: the page is in what is answered, if it is to be.
///
/// # Errors
///
/// The list isn't had, before any other file is read; or memory was refused.
pub fn notice<S: Shelf>(
    alloc: Global,
    shelf: &S,
    inside: Inside<'_>,
    replacements: &[u8],
    request: Request<'_>,
) -> Result<Run, NoticeTrouble>
    ensures ok { IfOk result (IsRun (S.told shelf.now)
        (inside_of inside.entry.list.now inside.entry.extras.now) replacements.now request.entry) }
    ensures err { IfErr result (IsNoRun (S.told shelf.now)
        (inside_of inside.entry.list.now inside.entry.extras.now) request.entry) }
    ensures passes { IfOk result (λ run. status_of run < 1 → AreAllNoticed (S.told shelf.now)
        (inside_of inside.entry.list.now inside.entry.extras.now) replacements.now
        request.entry run) }
    ensures written { IfOk result IsWrittenExactly }
    ensures unchosen { IfOk result (λ run. HasNoChoice (S.told shelf.now)
        (inside_of inside.entry.list.now inside.entry.extras.now) replacements.now
        request.entry run → is_written run ≡ false) }
{
    let catalogue = named_list(alloc, shelf, inside, request.list)?;
    let run = run_over(alloc, shelf, replacements, &catalogue, request)?;
    Ok(run)
}

// The same over this list.
fn run_over<S: Shelf>(
    alloc: Global,
    shelf: &S,
    replacements: &[u8],
    catalogue: &Catalogue,
    request: Request<'_>,
) -> Result<Run, AllocError>
    ensures { IfOk result (IsRunOver (S.told shelf.now) replacements.now catalogue.now
        request.entry) }
{
    let all = all_listed_at(alloc, shelf, request.wanted, request.paths)?;
    let AllListed { files, left_out } = all;
    let end = end_over(
        alloc,
        shelf,
        replacements,
        catalogue,
        request,
        &files,
        &left_out,
    )?;
    Ok(Run {
        files,
        left_out,
        end,
    })
}

// How it ends over these files.
fn end_over<S: Shelf>(
    alloc: Global,
    shelf: &S,
    replacements: &[u8],
    catalogue: &Catalogue,
    request: Request<'_>,
    files: &[Listed],
    left_out: &[FileFault],
) -> Result<End, AllocError>
    ensures { IfOk result (IsEnd (S.told shelf.now) replacements.now catalogue.now request.entry
        files.now left_out.now) }
{
    match left_out {
        [] => files_end(alloc, shelf, replacements, catalogue, request, files),
        [_, ..] => Ok(End::LeftOut),
    }
}

fn files_end<S: Shelf>(
    alloc: Global,
    shelf: &S,
    replacements: &[u8],
    catalogue: &Catalogue,
    request: Request<'_>,
    files: &[Listed],
) -> Result<End, AllocError>
    ensures { IfOk result (IsFilesEnd (S.told shelf.now) replacements.now catalogue.now
        request.entry files.now) }
{
    let entries = all_entries(alloc, files)?;
    let packages = packages_of(alloc, &entries)?;
    match choose(
        alloc,
        shelf,
        replacements,
        catalogue,
        request.accepted,
        request.one_for_all,
        &packages,
    ) {
        Ok(chosen) => chosen_end(alloc, shelf, request, &entries, &chosen),
        Err(trouble) => unchosen(trouble),
    }
}

// There is no choice, unless memory was refused.
fn unchosen(trouble: ChoiceTrouble) -> Result<End, AllocError>
    ensures { IfOk result (IsUnchosen trouble) }
{
    if is_of_memory(&trouble) {
        Err(AllocError)
    } else {
        Ok(End::NoChoice(trouble))
    }
}

fn is_of_memory(trouble: &ChoiceTrouble) -> bool
    ensures { result ≡ spec.is_of_memory trouble.now }
{
    match trouble {
        ChoiceTrouble::Policy(PolicyTrouble::Unreadable(_, error)) => {
            matches!(error.kind(), ErrorKind::OutOfMemory)
        }
        ChoiceTrouble::Policy(PolicyTrouble::Memory) | ChoiceTrouble::Memory => true,
        ChoiceTrouble::Policy(PolicyTrouble::NoPolicy(..) | PolicyTrouble::NoReplacements(_))
        | ChoiceTrouble::NoLicensee(..)
        | ChoiceTrouble::NoChoices(_)
        | ChoiceTrouble::NoneTogether(_) => false,
    }
}
