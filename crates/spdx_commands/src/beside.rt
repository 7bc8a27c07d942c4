// What runs that were killed while they replaced a file left beside it.

ghost use Rattle.std.specs.Prelude.{◌≡◌, IfOk, List, OnErr, OnOk, flat_map, map, option_map, string_bytes, ℕ};
ghost use Rattle.std.specs.Path.{rsplit_once};
ghost use Rattle.check_files.specs.Told.{Hears, Tells};
ghost use Rattle.fix_program.specs.Runs.{path_in};
ghost use Rattle.shelves.specs.Shelf.{entry_of};
ghost use Rattle.spdx_commands.specs.Beside as spec;
ghost use Rattle.spdx_commands.specs.Beside.{
  AreBesideTold,
  AreKnown,
  AreLeftIn,
  IsFileBy,
  TellsBeside,
  left_at,
};
ghost use Rattle.spdx_commands.specs.Said.{HearsBeginning};
ghost use Rattle.spdx_troubles.specs.declared.trouble.Trouble.TheVariants.{LeftBehind};

use crate::listener::Listener;
use shelves::{Entries, Entry, Kind, Shelf, is_input};
use source_trees::{below, is_beside};
use spdx_troubles::Trouble;
use std::alloc::{AllocError, Global};
use std::collections::BTreeSet;

/// Tells each of these files, which runs that were killed left. None is removed, since another run may be at work on it.
///
/// # Errors
///
/// Memory was refused.
#[tactic(auto, using(crate::proofs::Hearing::none_heard, crate::proofs::Hearing::one_more_heard))]
pub(crate) fn tell_left<T: Listener>(
    alloc: Global,
    left: Vec<String>,
    listener: &mut T,
) -> Result<(), AllocError>
    ensures all { OnOk result (Hears (T.heard listener.old) (T.heard listener.new)
        (map LeftBehind left.items)) }
    ensures begun { OnErr result (HearsBeginning (T.heard listener.old) (T.heard listener.new)
        (map LeftBehind left.items)) }
{
    for path in left {
        listener.hear(alloc, Trouble::LeftBehind(path))?;
    }
    Ok(())
}

/// Tells what was left in the folders of the files at these paths, each folder once. What is left below paths that are
/// folders is told by the walk over them; a folder that can't be read is passed over.
///
/// # Errors
///
/// Memory was refused.
pub(crate) fn tell_left_beside<S: Shelf, T: Listener>(
    alloc: Global,
    shelf: &S,
    paths: &[&str],
    listener: &mut T,
) -> Result<(), AllocError>
    ensures { OnOk result (Tells (T.heard listener.old) (T.heard listener.new)
        (AreBesideTold (S.told shelf.now) (map path_in paths.now))) }
{
    let mut folders = BTreeSet::new(alloc);
    for path in paths {
        tell_beside(alloc, shelf, *path, &mut folders, listener)?;
    }
    Ok(())
}

// Tells what was left in the folder of the file at the path, unless it is one of these folders.
fn tell_beside<'p, S: Shelf, T: Listener>(
    alloc: Global,
    shelf: &S,
    path: &'p str,
    folders: &mut BTreeSet<&'p str>,
    listener: &mut T,
) -> Result<(), AllocError>
    ensures { OnOk result ((known : List (List ℕ)) → AreKnown folders.old known →
        Tells (T.heard listener.old) (T.heard listener.new)
        (TellsBeside (S.told shelf.now) folders.old folders.new known path.now)) }
{
    if !is_file(shelf, path) {
        return Ok(());
    }
    let folder = folder_of(path);
    let is_new = folders.insert(folder)?;
    if !is_new {
        return Ok(());
    }
    let left = left_in(alloc, shelf, folder)?;
    tell_left(alloc, left, listener)?;
    Ok(())
}

// Whether a file is at the path, as far as it can be looked at. Standard input is none.
fn is_file<S: Shelf>(shelf: &S, path: &str) -> bool
    ensures { IsFileBy result (S.told shelf.now) path.now }
{
    if is_input(path) {
        return false;
    }
    match shelf.is_folder(path) {
        Ok(is_folder) => !is_folder,
        Err(_) => false,
    }
}

fn folder_of(path: &str) -> &str
    ensures { result.now ≡ spec.folder_of path.now }
{
    match parts(path) {
        Some((folder, _)) if folder.is_empty() => "/",
        Some((folder, _)) => folder,
        None => ".",
    }
}

fn parts(path: &str) -> Option<(&str, &str)>
    ensures { option_map (λ p. (p.0.now, p.1.now)) result ≡ rsplit_once 47 path.now }
{
    path.rsplit_once('/')
}

// What was left in a folder; nothing, where the folder can't be read.
fn left_in<S: Shelf>(alloc: Global, shelf: &S, folder: &str) -> Result<Vec<String>, AllocError>
    ensures { IfOk result (λ left. AreLeftIn (S.told shelf.now) folder.now left.items) }
{
    match shelf.entries(alloc, folder) {
        Ok(entries) => {
            let Entries { named, .. } = entries;
            let mut left = left_among(alloc, folder, &named)?;
            left.sort()?;
            Ok(left)
        }
        Err(_) => Ok(Vec::new(alloc)),
    }
}

// A file of such a name was left behind; a folder or a link wasn't.
fn is_left(entry: &Entry) -> bool
    ensures { result ≡ spec.is_left entry.now.kind (string_bytes entry.now.name) }
{
    match entry.kind {
        Kind::File => is_beside(entry.name.as_str()),
        Kind::Folder | Kind::Other => false,
    }
}

// What was left among these.
fn left_among(alloc: Global, folder: &str, named: &[Entry]) -> Result<Vec<String>, AllocError>
    ensures { IfOk result (λ left. map string_bytes left.items
        ≡ flat_map (left_at folder.now) (map entry_of named.now)) }
{
    let mut left = Vec::new(alloc);
    for entry in named {
        if is_left(entry) {
            left.push(below(alloc, folder, entry.name.as_str())?)?;
        }
    }
    Ok(left)
}
