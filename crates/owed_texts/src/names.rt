// The names of what is in a folder.

ghost use Rattle.std.specs.Prelude.{◌≡◌, ◌++◌, IfErr, IfOk, OnOk, map, string_bytes};
ghost use Rattle.shelves.specs.Shelf.{entry_of};
ghost use Rattle.spdx_requirement.specs.Failures.{IfRefused};
ghost use Rattle.owed_texts.specs.Names as spec;
ghost use Rattle.owed_texts.specs.Names.{AreNames, AreNoNames, AreSorted, name_of, names_in};

use crate::trouble::{Obstacle, TextTrouble, trouble_at, unreadable};
use shelves::{Entry, Kind, Shelf};
use spdx_requirement::failure::Failure;
use std::alloc::{AllocError, Global};

/// The names of what is in the folder but folders, ascending. A trouble is told by the name.
pub(crate) fn names_in<S: Shelf>(
    alloc: Global,
    shelf: &S,
    name: &str,
    folder: &str,
) -> Result<Vec<String>, Failure<TextTrouble>>
    ensures ok { IfOk result (λ names. AreNames (S.told shelf.now) folder.now names.items) }
    ensures err { IfErr result (IfRefused (AreNoNames (S.told shelf.now) name.now folder.now)) }
{
    match shelf.entries(alloc, folder) {
        Ok(entries) if entries.unnamed == 0 => {
            let names = sorted_in(alloc, &entries.named)?;
            Ok(names)
        }
        Ok(_) => Err(Failure::Refused(trouble_at(alloc, name, folder, Obstacle::Unnamed)?)),
        Err(error) => Err(unreadable(alloc, name, folder, error)),
    }
}

fn sorted_in(alloc: Global, entries: &[Entry]) -> Result<Vec<String>, AllocError>
    ensures { IfOk result (λ names. AreSorted (map entry_of entries.now) names.items) }
{
    let mut names = names_of(alloc, entries)?;
    names.sort()?;
    Ok(names)
}

fn names_of(alloc: Global, entries: &[Entry]) -> Result<Vec<String>, AllocError>
    ensures { IfOk result (λ names.
        map string_bytes names.items ≡ names_in (map entry_of entries.now)) }
{
    let mut names = Vec::new(alloc);
    for entry in entries {
        put(alloc, &mut names, entry)?;
    }
    Ok(names)
}

fn put(alloc: Global, names: &mut Vec<String>, entry: &Entry) -> Result<(), AllocError>
    ensures { OnOk result (map string_bytes names.new.items
        ≡ map string_bytes names.old.items ++ name_of (entry_of entry.now)) }
{
    match entry.kind {
        Kind::Folder => Ok(()),
        Kind::File | Kind::Other => {
            names.push(String::from_str(alloc, entry.name.as_str())?)?;
            Ok(())
        }
    }
}
