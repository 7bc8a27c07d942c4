// What comes of the files below a folder.

ghost use Rattle.std.specs.Prelude.{◌≡◌, ◌++◌, ◌∷◌, [], IfOk, OnOk};
ghost use Rattle.source_trees.specs.Walks.{waiting};
ghost use Rattle.fix_program.specs.Shown.{AreShown};
ghost use Rattle.fix_program.specs.Trees as spec;
ghost use Rattle.fix_program.specs.Trees.{AddsEnds, AreTreeEnds, AreWalkEnds};

use crate::ends::{FileEnd, alone, file_end, left_out};
use crate::file::Manner;
use crate::trouble::FixTrouble;
use file_fixes::Parts;
use shelves::{Shelf, is_input};
use source_trees::{Seen, Taken, Walk, form_below};
use std::alloc::{AllocError, Global};
use std::io;

/// Who is told how far a run is.
pub trait Progress {
    // The second may be what the first becomes by one of these calls.
    ghost Shows: { Self → Self → Type 0 };

    /// So many files below a folder were come to.
    ///
    /// # Errors
    ///
    /// Memory was refused.
    fn seen(&mut self, alloc: Global, files: u64) -> Result<(), AllocError>
        ensures { Shows self.old self.new };

    /// The folder is at its end.
    fn ended(&mut self)
        ensures { Shows self.old self.new };
}

/// What comes of what is below the folder at the path, in the order in which a walk comes to it.
///
/// # Errors
///
/// Memory was refused.
pub(crate) fn tree_ends<S: Shelf, P: Progress>(
    alloc: Global,
    shelf: &S,
    manner: Manner<'_>,
    taken: Taken,
    path: &str,
    progress: &mut P,
) -> Result<Vec<FileEnd>, AllocError>
    ensures ends { IfOk result (λ ends. AreTreeEnds (S.told shelf.now) manner.entry.catalogue.now
        manner.entry.is_written taken path.now ends.items) }
    ensures shows { AreShown P.Shows progress.old progress.new }
{
    match Walk::new(alloc, shelf, path) {
        Ok(walk) => walked(alloc, shelf, manner, taken, walk, progress),
        Err(error) => unread(alloc, path, error),
    }
}

// The folder can't be looked at.
fn unread(alloc: Global, path: &str, error: io::Error) -> Result<Vec<FileEnd>, AllocError>
    ensures { IfOk result (λ ends. spec.IsUnreadEnd path.now error ends.items) }
{
    let path = String::from_str(alloc, path)?;
    let end = left_out(FixTrouble::Unreadable(path, error))?;
    let ends = alone(alloc, end)?;
    Ok(ends)
}

// What comes of all that the walk has yet to come to.
fn walked<S: Shelf, P: Progress>(
    alloc: Global,
    shelf: &S,
    manner: Manner<'_>,
    taken: Taken,
    mut walk: Walk,
    progress: &mut P,
) -> Result<Vec<FileEnd>, AllocError>
    ensures ends { IfOk result (λ ends. AreWalkEnds (S.told shelf.now) manner.entry.catalogue.now
        manner.entry.is_written taken (waiting walk) ends.items) }
    ensures shows { AreShown P.Shows progress.old progress.new }
{
    let mut ends = Vec::new(alloc);
    let mut files = 0;
    for turn in 0..u64::MAX {
        let Some(seen) = walk.next(alloc, shelf)? else {
            progress.ended();
            return Ok(ends);
        };
        files = show_one_more(alloc, files, &seen, progress)?;
        add_ends(alloc, shelf, manner, taken, seen, &mut ends)?;
    }
    // so many have no room in memory
    Err(AllocError)
}

// Shows that a file was come to, and answers how many were.
fn show_one_more<P: Progress>(
    alloc: Global,
    files: u64,
    seen: &Seen,
    progress: &mut P,
) -> Result<u64, AllocError>
    ensures { AreShown P.Shows progress.old progress.new }
{
    if !matches!(seen, Seen::File(_)) {
        return Ok(files);
    }
    let files = files.saturating_add(1);
    progress.seen(alloc, files)?;
    Ok(files)
}

// Appends what comes of what was come to.
fn add_ends<S: Shelf>(
    alloc: Global,
    shelf: &S,
    manner: Manner<'_>,
    taken: Taken,
    seen: Seen,
    ends: &mut Vec<FileEnd>,
) -> Result<(), AllocError>
    ensures { OnOk result (AddsEnds (S.told shelf.now) manner.entry.catalogue.now
        manner.entry.is_written taken seen ends.old.items ends.new.items) }
{
    match seen {
        Seen::File(path) => add_file(alloc, shelf, manner, taken, path.as_str(), ends),
        Seen::Folder(path, unnamed) => add_unnamed(path, unnamed, ends),
        Seen::LeftOut(_) => Ok(()),
        Seen::LeftBehind(path) => add(FileEnd::LeftBehind(path), ends),
        Seen::Unread(path, error) => add_unread(path, error, ends),
    }
}

fn add(end: FileEnd, ends: &mut Vec<FileEnd>) -> Result<(), AllocError>
    ensures { OnOk result (ends.new.items ≡ ends.old.items ++ end ∷ []) }
{
    ends.push(end)?;
    Ok(())
}

// The folder is left out.
fn add_unread(path: String, error: io::Error, ends: &mut Vec<FileEnd>) -> Result<(), AllocError>
    ensures { OnOk result (spec.AddsUnread path error ends.old.items ends.new.items) }
{
    add(left_out(FixTrouble::Unreadable(path, error))?, ends)
}

// Those in the folder are left out whose names are no UTF-8.
fn add_unnamed(path: String, unnamed: u64, ends: &mut Vec<FileEnd>) -> Result<(), AllocError>
    ensures { OnOk result (spec.AddsUnnamed path unnamed ends.old.items ends.new.items) }
{
    if unnamed == 0 {
        Ok(())
    } else {
        add(FileEnd::LeftOut(FixTrouble::Unnamed(path, unnamed)), ends)
    }
}

fn add_file<S: Shelf>(
    alloc: Global,
    shelf: &S,
    manner: Manner<'_>,
    taken: Taken,
    path: &str,
    ends: &mut Vec<FileEnd>,
) -> Result<(), AllocError>
    ensures { OnOk result (spec.AddsFile (S.told shelf.now) manner.entry.catalogue.now
        manner.entry.is_written taken path.now ends.old.items ends.new.items) }
{
    let Some(parts) = parts_below(taken, path) else {
        return Ok(());
    };
    add(file_end(alloc, shelf, manner, parts, as_file(path))?, ends)
}

// The path of a file below a folder, by which it is no standard input.
fn as_file(path: &str) -> &str
    ensures { result.now ≡ spec.as_file path.now }
{
    if is_input(path) { "./-" } else { path }
}

// What is mended of a file below a folder, if anything is.
fn parts_below(taken: Taken, path: &str) -> Option<Parts>
    ensures { result ≡ spec.parts_below taken path.now }
{
    match form_below(taken, path) {
        None if !taken.tags => None,
        form => Some(Parts::Source {
            form,
            tags: taken.tags,
        }),
    }
}
