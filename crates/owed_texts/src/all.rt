// The texts that all packages have of their own.

ghost use Rattle.std.specs.Prelude.{IfOk, OnOk, map};
ghost use Rattle.owed_texts.specs.All as spec;
ghost use Rattle.owed_texts.specs.All.{AreAllOwn, reads_in};
ghost use Rattle.owed_texts.specs.Own.{owner_of};

use crate::own::{OwnFiles, Placed, ReadFile, Reading, own_files};
use crate::trouble::TextTrouble;
use shelves::Shelf;
use std::alloc::{AllocError, Global};

/// The files of all packages, and why others aren't had.
#[derive(Drop)]
pub struct AllOwn {
    /// Those of each package, in the order of the packages.
    pub files: Vec<Vec<ReadFile>>,
    /// The troubles of the packages, in their order.
    pub lacking: Vec<TextTrouble>,
}

/// The files of each package that are owed, from the folder that it lies in. Each that isn't had is told, of all packages.
///
/// # Errors
///
/// Memory was refused.
pub fn all_own_files<S: Shelf>(
    alloc: Global,
    shelf: &S,
    reading: Reading<'_>,
    placed: &[Placed<'_, '_>],
) -> Result<AllOwn, AllocError>
    ensures { IfOk result (λ all. AreAllOwn (S.told shelf.now) reading.entry
        (map owner_of placed.now) (reads_in all.files.items) all.lacking.items) }
{
    let mut all = AllOwn {
        files: Vec::new(alloc),
        lacking: Vec::new(alloc),
    };
    for one in placed {
        add(alloc, shelf, reading, *one, &mut all)?;
    }
    Ok(all)
}

// One package more.
fn add<S: Shelf>(
    alloc: Global,
    shelf: &S,
    reading: Reading<'_>,
    placed: Placed<'_, '_>,
    all: &mut AllOwn,
) -> Result<(), AllocError>
    ensures { OnOk result (spec.IsOneMore (S.told shelf.now) reading.entry (owner_of placed.entry)
        all.old all.new) }
{
    let own = own_files(alloc, shelf, reading, placed)?;
    let OwnFiles { files, mut lacking } = own;
    all.files.push(files)?;
    all.lacking.append(&mut lacking)?;
    Ok(())
}
