// The packages of several files, over a shelf.

ghost use Rattle.std.specs.Prelude.{◌≡◌, [], IfOk, OnOk, map};
ghost use Rattle.std.specs.List.{AllZip};
ghost use Rattle.package_files.specs.All as spec;
ghost use Rattle.package_files.specs.All.{AreListed, IsOneMore, path_in};
ghost use Rattle.package_files.specs.Listed.{IsListedAt};

use crate::fault::FileFault;
use crate::listed::{Listed, Wanted, listed_at};
use shelves::Shelf;
use std::alloc::{AllocError, Global};

/// The packages of the files that list some, and why others are left out.
#[derive(Drop)]
pub struct AllListed {
    pub files: Vec<Listed>,
    /// The fault of each file that is left out.
    pub left_out: Vec<FileFault>,
}

/// The packages that are wanted of the file at each path, in their order; `-` is standard input. A file is left out that
/// can't be read, isn't of its form, or lists no package where that doesn't pass.
///
/// # Errors
///
/// Memory was refused.
pub fn all_listed_at<S: Shelf>(
    alloc: Global,
    shelf: &S,
    wanted: Wanted<'_>,
    paths: &[&str],
) -> Result<AllListed, AllocError>
    ensures exact { IfOk result (λ all. AreListed (S.told shelf.now) wanted.entry
        (map path_in paths.now) all.files.items all.left_out.items) }
    ensures whole { IfOk result (λ all. all.left_out.items ≡ [] →
        AllZip (IsListedAt (S.told shelf.now) wanted.entry)
        (map path_in paths.now) all.files.items) }
{
    let mut all = AllListed {
        files: Vec::new(alloc),
        left_out: Vec::new(alloc),
    };
    for path in paths {
        add(alloc, shelf, wanted, *path, &mut all)?;
    }
    Ok(all)
}

// The file at the path besides.
fn add<S: Shelf>(
    alloc: Global,
    shelf: &S,
    wanted: Wanted<'_>,
    path: &str,
    all: &mut AllListed,
) -> Result<(), AllocError>
    ensures { OnOk result (IsOneMore (S.told shelf.now) wanted.entry path.now all.old all.new) }
{
    match listed_at(alloc, shelf, wanted, path) {
        Ok(listed) => {
            all.files.push(listed)?;
            Ok(())
        }
        Err(fault) => {
            leave_out(fault, all)?;
            Ok(())
        }
    }
}

fn leave_out(fault: FileFault, all: &mut AllListed) -> Result<(), AllocError>
    ensures { OnOk result (spec.LeavesOut fault all.old all.new) }
{
    if fault.is_of_memory() {
        return Err(AllocError);
    }
    all.left_out.push(fault)?;
    Ok(())
}
