// A run over all paths.

ghost use Rattle.std.specs.Prelude.{◌≡◌, ◌<◌, IfErr, IfOk, OnOk, map};
ghost use Rattle.std.specs.List.{AllZip, list_any};
ghost use Rattle.list_program.specs.Named.{inside_of};
ghost use Rattle.fix_program.specs.Shown.{AreShown};
ghost use Rattle.fix_program.specs.Passing.{AreAllAccepted};
ghost use Rattle.fix_program.specs.Runs as spec;
ghost use Rattle.fix_program.specs.Runs.{
  ArePathEnds,
  AreReadEnds,
  AreUnreadEnds,
  IsNoRun,
  IsPathEnd,
  IsRun,
  path_in,
  status_of,
};

use crate::ends::{FileEnd, alone, file_end, left_out};
use crate::file::Manner;
use crate::tree::{Progress, tree_ends};
use crate::trouble::FixTrouble;
use file_fixes::Parts;
use list_program::{Inside, ListTrouble, named_list};
use shelves::Shelf;
use source_trees::{Reading, ReadingFault, Wanted, reading_of};
use spdx_catalogue::Catalogue;
use std::alloc::{AllocError, Global};

/// What is asked of a run.
#[derive(Clone, Copy)]
pub struct Request<'a> {
    /// The path of the list, where one is named.
    pub list: Option<&'a str>,
    /// Which expressions are mended.
    pub wanted: Wanted<'a>,
    /// Whether files are to be written; else diffs are put out.
    pub is_written: bool,
    /// Whether a file that has other names, which keep the old bytes then, is to be written too.
    pub breaks_links: bool,
    /// The paths of the files and folders; `-` is standard input.
    pub paths: &'a [&'a str],
}

/// What comes of a path.
#[derive(Drop)]
pub struct PathEnd {
    /// What comes of the file, or of each one below the folder, in the order in which a walk comes to them.
    pub ends: Vec<FileEnd>,
}

/// What comes of a run.
#[derive(Drop)]
pub struct Run {
    /// The list that expressions are read by.
    pub catalogue: Catalogue,
    /// What comes of each path, in their order.
    pub paths: Vec<PathEnd>,
}

/// Why nothing is mended.
#[derive(Drop)]
pub enum FixFault {
    List(ListTrouble),
    Memory,
}

impl From<AllocError> for FixFault {
    ghost use Rattle.std.specs.Prelude.{◌≡◌};
    ghost use Rattle.fix_program.specs.declared.run.FixFault.TheVariants.{Memory};

    ghost from_gives = { λ _ f. f ≡ Memory };

    fn from(_error: AllocError) -> FixFault {
        FixFault::Memory
    }
}

impl From<ListTrouble> for FixFault {
    ghost use Rattle.std.specs.Prelude.{◌≡◌};
    ghost use Rattle.fix_program.specs.declared.run.FixFault.TheVariants.{List};

    ghost from_gives = { λ list f. f ≡ List list };

    fn from(trouble: ListTrouble) -> FixFault {
        FixFault::List(trouble)
    }
}

impl Run {
    /// The status: 2 where a file is left out; else 1 where an expression is left that is refused; else 0.
    pub fn status(&self) -> u8
        ensures { result ≡ status_of self.now }
    {
        if is_one_left_out(&self.paths) {
            2
        } else {
            u8::from(has_one_left(&self.paths))
        }
    }
}

fn is_one_left_out(paths: &[PathEnd]) -> bool
    ensures { result ≡ list_any spec.leaves_out paths.now }
{
    paths.iter().any(|path| leaves_out(path))
}

fn leaves_out(path: &PathEnd) -> bool
    ensures { result ≡ spec.leaves_out path.now }
{
    path.ends.iter().any(|end| is_left_out(end))
}

fn is_left_out(end: &FileEnd) -> bool
    ensures { result ≡ spec.is_left_out end.now }
{
    matches!(end, FileEnd::LeftOut(_))
}

fn has_one_left(paths: &[PathEnd]) -> bool
    ensures { result ≡ list_any spec.leaves_some paths.now }
{
    paths.iter().any(|path| leaves_some(path))
}

fn leaves_some(path: &PathEnd) -> bool
    ensures { result ≡ spec.leaves_some path.now }
{
    path.ends.iter().any(|end| has_left(end))
}

fn has_left(end: &FileEnd) -> bool
    ensures { result ≡ spec.has_left end.now }
{
    match end {
        FileEnd::Fixed(fixed) => fixed.is_left,
        FileEnd::LeftOut(_) | FileEnd::LeftBehind(_) => false,
    }
}

/// Reads the list and what is at each path, and says what is put out, and what files are to hold. No file is written, and all
/// of it is held in memory.
///
/// # Errors
///
/// The list isn't had, before any other file is read; or memory was refused.
pub fn fix<S: Shelf, P: Progress>(
    alloc: Global,
    shelf: &S,
    inside: Inside<'_>,
    request: Request<'_>,
    progress: &mut P,
) -> Result<Run, FixFault>
    ensures ok { IfOk result (IsRun (S.told shelf.now)
        (inside_of inside.entry.list.now inside.entry.extras.now) request.entry) }
    ensures err { IfErr result (IsNoRun (S.told shelf.now)
        (inside_of inside.entry.list.now inside.entry.extras.now) request.entry) }
    ensures passes { IfOk result (λ run. status_of run < 1 → AreAllAccepted (S.told shelf.now)
        (inside_of inside.entry.list.now inside.entry.extras.now) request.entry) }
    ensures shows { AreShown P.Shows progress.old progress.new }
{
    let catalogue = named_list(alloc, shelf, inside, request.list)?;
    let manner = Manner {
        catalogue: &catalogue,
        is_written: request.is_written,
    };
    let paths = paths_fixed(
        alloc,
        shelf,
        manner,
        request.wanted,
        request.paths,
        progress,
    )?;
    Ok(Run { catalogue, paths })
}

fn paths_fixed<S: Shelf, P: Progress>(
    alloc: Global,
    shelf: &S,
    manner: Manner<'_>,
    wanted: Wanted<'_>,
    paths: &[&str],
    progress: &mut P,
) -> Result<Vec<PathEnd>, AllocError>
    ensures ends { IfOk result (λ ends. AllZip (IsPathEnd (S.told shelf.now)
        manner.entry.catalogue.now manner.entry.is_written wanted.entry) (map path_in paths.now)
        ends.items) }
    ensures shows { AreShown P.Shows progress.old progress.new }
{
    let mut fixed = Vec::new(alloc);
    for path in paths {
        let ends = path_ends(alloc, shelf, manner, wanted, *path, progress)?;
        fixed.push(PathEnd { ends })?;
    }
    Ok(fixed)
}

fn path_ends<S: Shelf, P: Progress>(
    alloc: Global,
    shelf: &S,
    manner: Manner<'_>,
    wanted: Wanted<'_>,
    path: &str,
    progress: &mut P,
) -> Result<Vec<FileEnd>, AllocError>
    ensures ends { IfOk result (λ ends. ArePathEnds (S.told shelf.now) manner.entry.catalogue.now
        manner.entry.is_written wanted.entry path.now ends.items) }
    ensures shows { AreShown P.Shows progress.old progress.new }
{
    match reading_of(alloc, shelf, wanted, path) {
        Ok(reading) => read_ends(alloc, shelf, manner, reading, path, progress),
        Err(fault) => unread_ends(alloc, fault),
    }
}

// What comes of a path that is read so.
fn read_ends<S: Shelf, P: Progress>(
    alloc: Global,
    shelf: &S,
    manner: Manner<'_>,
    reading: Reading,
    path: &str,
    progress: &mut P,
) -> Result<Vec<FileEnd>, AllocError>
    ensures ends { IfOk result (λ ends. AreReadEnds (S.told shelf.now) manner.entry.catalogue.now
        manner.entry.is_written reading path.now ends.items) }
    ensures shows { AreShown P.Shows progress.old progress.new }
{
    let parts = match reading {
        Reading::Tree(taken) => {
            return tree_ends(alloc, shelf, manner, taken, path, progress);
        }
        Reading::Lines => Parts::Lines,
        Reading::Tags => Parts::Source {
            form: None,
            tags: true,
        },
        Reading::Manifest(form) => Parts::Source {
            form: Some(form),
            tags: false,
        },
    };
    file_ends(alloc, shelf, manner, parts, path)
}

fn file_ends<S: Shelf>(
    alloc: Global,
    shelf: &S,
    manner: Manner<'_>,
    parts: Parts,
    path: &str,
) -> Result<Vec<FileEnd>, AllocError>
    ensures { IfOk result (λ ends. spec.AreFileEnds (S.told shelf.now) manner.entry.catalogue.now
        manner.entry.is_written parts path.now ends.items) }
{
    let end = file_end(alloc, shelf, manner, parts, path)?;
    alone(alloc, end)
}

fn unread_ends(alloc: Global, fault: ReadingFault) -> Result<Vec<FileEnd>, AllocError>
    ensures { IfOk result (λ ends. AreUnreadEnds fault ends.items) }
{
    let end = left_out(FixTrouble::from(fault))?;
    alone(alloc, end)
}
