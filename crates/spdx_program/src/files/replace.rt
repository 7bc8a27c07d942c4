// A file whose bytes are replaced at once.

ghost use Rattle.check_files.specs.Told.{unkept};

use crate::files::system::System;
use shelves::Stamp;
use spdx_commands::{Loss, Obstacle, Replacing};
use std::alloc::Global;
use std::fs::{self, Metadata, OpenFile, OpenOptions, Permissions};
use std::io::{self, ErrorKind, Write};
use std::os::unix::fs::{MetadataExt, OpenOptionsExt, PermissionsExt, chown};

// How many names are tried for the file beside.
const TRIES: u32 = 100;

// The bits of a mode that a file keeps: those of who may read, write and run it.
const KEPT: u32 = 0o777;

// The bits that let a file run as its owner or its group.
const SET_ID: u32 = 0o6000;

/// The places of the system's files, whose word is taken for what comes of putting bytes in them.
#[derive(Clone, Copy)]
pub(crate) struct Places<'r, R> {
    rt: &'r R,
}

impl<'r, R: System> Places<'r, R> {
    pub(crate) fn new(rt: &'r R) -> Places<'r, R> {
        Places { rt }
    }
}

impl<R: System> Replacing for Places<'_, R> {
    ghost tried = { λ _. unkept };

    fn replace(
        &mut self,
        _alloc: Global,
        path: &str,
        read: Stamp,
        breaks_links: bool,
        bytes: &[u8],
    ) -> Result<Loss, Obstacle> {
        replace(self.rt, path, read, breaks_links, bytes)
    }
}

// Puts the bytes in the place of what the file held when it was read, and keeps its owner, its group and who may read,
// write and run it. They are written to a new file beside it, which its owner alone may read until it has all of that,
// and which then takes its name: so the file has its old bytes or all of the new ones, whatever fails. A link stays a link
// to the same file.
//
// On an error the file is as it was, and there is no other beside it, unless the removal of that one failed too.
fn replace<R: System>(
    rt: &R,
    path: &str,
    read: Stamp,
    breaks_links: bool,
    bytes: &[u8],
) -> Result<Loss, Obstacle> {
    let path = fs::canonicalize(rt, path)?;
    let path = path.as_str();
    let old = unchanged(rt, path, read)?;
    if old.nlink() > 1 && !breaks_links {
        return Err(Obstacle::Linked);
    }
    let Beside {
        path: other,
        mut file,
    } = create_beside(rt, path)?;
    let placed = match fill(rt, other.as_str(), &mut file, &old, bytes) {
        Ok(()) => take_place(rt, other.as_str(), path, read),
        Err(obstacle) => Err(obstacle),
    };
    match placed {
        Ok(()) if old.mode() & SET_ID == 0 => Ok(Loss::Nothing),
        Ok(()) => Ok(Loss::SetId),
        Err(obstacle) => {
            let _ = fs::remove_file(rt, other.as_str());
            Err(obstacle)
        }
    }
}

// What the file is, if it is what it was when it was read.
fn unchanged<R: System>(rt: &R, path: &str, read: Stamp) -> Result<Metadata, Obstacle> {
    let now = fs::metadata(rt, path)?;
    if Stamp::of(&now) == read {
        Ok(now)
    } else {
        Err(Obstacle::Changed)
    }
}

// A new file, and its path.
#[derive(Drop)]
struct Beside<F: Drop> {
    path: String,
    file: F,
}

// A file that is not there yet, and that its owner alone may read and write until it takes the other's place.
fn hidden() -> OpenOptions {
    let mut options = OpenOptions::new();
    options.write(true);
    options.create_new(true);
    options.mode(0o600);
    options
}

// Under a name that nobody can foresee.
fn create_beside<R: System>(rt: &R, path: &str) -> io::Result<Beside<R::File>> {
    let folder = match path.rsplit_once('/') {
        Some((folder, _)) => folder,
        None => ".",
    };
    for _ in 0..TRIES {
        let mut random = [0u8; 8];
        rt.fill_bytes(&mut random)?;
        let number = u64::from_ne_bytes(random);
        let path = format!(in rt.alloc(); "{folder}/.spdx-{number:016x}")?;
        match hidden().open(rt, path.as_str()) {
            Ok(file) => return Ok(Beside { path, file }),
            Err(error) if error.kind() == ErrorKind::AlreadyExists => {}
            Err(error) => return Err(error),
        }
    }
    Err(io::Error::from(ErrorKind::AlreadyExists))
}

// The owner comes before the mode, so that nobody may read the file who could not read the old one.
fn fill<R: System>(
    rt: &R,
    path: &str,
    file: &mut R::File,
    old: &Metadata,
    bytes: &[u8],
) -> Result<(), Obstacle> {
    file.write_all(bytes)?;
    let new = file.metadata()?;
    if (new.uid() != old.uid() || new.gid() != old.gid())
        && let Err(error) = chown(rt, path, Some(old.uid()), Some(old.gid()))
    {
        return Err(Obstacle::Owner(error));
    }
    file.set_permissions(Permissions::from_mode(old.mode() & KEPT))?;
    file.sync_all()?;
    Ok(())
}

// Gives the file the other's name, if that one is still what it was when it was read.
fn take_place<R: System>(rt: &R, new: &str, path: &str, read: Stamp) -> Result<(), Obstacle> {
    unchanged(rt, path, read)?;
    fs::rename(rt, new, path)?;
    Ok(())
}
