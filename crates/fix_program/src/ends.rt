// What comes of a file.

ghost use Rattle.std.specs.Prelude.{◌≡◌, ◌∷◌, [], IfOk};
ghost use Rattle.fix_program.specs.Ends.{IsFileEnd, IsLeftOut};

use crate::file::{Fixed, Manner, file_fixed};
use crate::trouble::FixTrouble;
use file_fixes::Parts;
use shelves::Shelf;
use std::alloc::{AllocError, Global};

/// What comes of a file or folder that a run comes to.
#[derive(Drop)]
pub enum FileEnd {
    Fixed(Fixed),
    LeftOut(FixTrouble),
    /// It is a new file that a run which was killed left beside the one whose place it was to take.
    LeftBehind(String),
}

/// What comes of these parts of the file at the path.
///
/// # Errors
///
/// Memory was refused.
pub(crate) fn file_end<S: Shelf>(
    alloc: Global,
    shelf: &S,
    manner: Manner<'_>,
    parts: Parts,
    path: &str,
) -> Result<FileEnd, AllocError>
    ensures { IfOk result (IsFileEnd (S.told shelf.now) manner.entry.catalogue.now
        manner.entry.is_written parts path.now) }
{
    match file_fixed(alloc, shelf, manner, parts, path) {
        Ok(fixed) => Ok(FileEnd::Fixed(fixed)),
        Err(trouble) => left_out(trouble),
    }
}

/// The file is left out, unless memory was refused.
///
/// # Errors
///
/// It was.
pub(crate) fn left_out(trouble: FixTrouble) -> Result<FileEnd, AllocError>
    ensures { IfOk result (IsLeftOut trouble) }
{
    if trouble.is_of_memory() {
        Err(AllocError)
    } else {
        Ok(FileEnd::LeftOut(trouble))
    }
}

/// This end alone.
///
/// # Errors
///
/// Memory was refused.
pub(crate) fn alone(alloc: Global, end: FileEnd) -> Result<Vec<FileEnd>, AllocError>
    ensures { IfOk result (λ ends. ends.items ≡ end ∷ []) }
{
    let mut ends = Vec::new(alloc);
    ends.push(end)?;
    Ok(ends)
}
