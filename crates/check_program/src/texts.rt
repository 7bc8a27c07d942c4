// The folder of license texts.

ghost use Rattle.std.specs.Prelude.{◌≡◌, ◌++◌, IfOk, OnOk, map, option_map, string_bytes};
ghost use Rattle.std.specs.Option.{option_copied};
ghost use Rattle.check_program.specs.Ends as spec;
ghost use Rattle.check_program.specs.Ends.{AreTexts, IsOwnFolder, IsTextsFolder, file_of};
ghost use Rattle.check_program.specs.Steps.{listed, trouble_of};

use check_files::{CheckTrouble, is_not_found};
use shelves::Shelf;
use source_trees::{Seen, all_seen, below};
use std::alloc::{AllocError, Global};
use std::io;

/// The folder of the license texts of the folder at the path: the one that was named, or else its own `LICENSES`, if it has
/// one or that can't be looked at.
///
/// # Errors
///
/// Memory was refused.
pub(crate) fn texts_folder<S: Shelf>(
    alloc: Global,
    shelf: &S,
    named: Option<&str>,
    path: &str,
) -> Result<Option<String>, AllocError>
    ensures { IfOk result (λ folder. IsTextsFolder (S.told shelf.now) (option_copied named.entry)
        path.now (option_map string_bytes folder)) }
{
    match named {
        Some(folder) => Ok(Some(String::from_str(alloc, folder)?)),
        None => Ok(own_folder(shelf, below(alloc, path, "LICENSES")?)),
    }
}

// The folder, if it is one. One that can't be looked at counts, so that it is told.
fn own_folder<S: Shelf>(shelf: &S, folder: String) -> Option<String>
    ensures { IsOwnFolder (S.told shelf.now) (string_bytes folder)
        (option_map string_bytes result) }
{
    match shelf.is_folder(folder.as_str()) {
        Ok(true) => Some(folder),
        Ok(false) => None,
        Err(error) => {
            if is_not_found(&error) {
                None
            } else {
                Some(folder)
            }
        }
    }
}

pub(crate) fn text_of(text: &Option<String>) -> Option<&str>
    ensures { option_copied result ≡ option_map string_bytes text.now }
{
    match text {
        Some(text) => Some(text.as_str()),
        None => None,
    }
}

/// The files of a folder of license texts, and why not all can be had.
#[derive(Drop)]
pub(crate) struct Texts {
    pub(crate) files: Vec<String>,
    pub(crate) troubles: Vec<CheckTrouble>,
}

/// What is below the folder of license texts.
///
/// # Errors
///
/// Memory was refused.
pub(crate) fn texts_in<S: Shelf>(
    alloc: Global,
    shelf: &S,
    folder: &str,
) -> Result<Texts, AllocError>
    ensures { IfOk result (λ texts. spec.AreTextsOr (S.told shelf.now) folder.now
        (map string_bytes texts.files.items) texts.troubles.items) }
{
    match all_seen(alloc, shelf, folder) {
        Ok(all) => sorted_out(alloc, all),
        Err(error) => unseen(alloc, folder, error),
    }
}

// It can't be looked at.
fn unseen(alloc: Global, folder: &str, error: io::Error) -> Result<Texts, AllocError>
    ensures { IfOk result (λ texts. spec.IsUnseenBy folder.now error
        (map string_bytes texts.files.items) texts.troubles.items) }
{
    let path = String::from_str(alloc, folder)?;
    let mut troubles = Vec::new(alloc);
    troubles.push(CheckTrouble::Unreadable(path, error))?;
    Ok(Texts {
        files: Vec::new(alloc),
        troubles,
    })
}

fn sorted_out(alloc: Global, all: Vec<Seen>) -> Result<Texts, AllocError>
    ensures { IfOk result (λ texts. spec.AreSortedOut all.items
        (map string_bytes texts.files.items) texts.troubles.items) }
{
    let mut texts = Texts {
        files: Vec::new(alloc),
        troubles: Vec::new(alloc),
    };
    for seen in all {
        add(seen, &mut texts)?;
    }
    Ok(texts)
}

fn add(seen: Seen, texts: &mut Texts) -> Result<(), AllocError>
    ensures files { OnOk result (map string_bytes texts.new.files.items
        ≡ map string_bytes texts.old.files.items ++ file_of seen) }
    ensures troubles { OnOk result (texts.new.troubles.items
        ≡ texts.old.troubles.items ++ listed (trouble_of seen)) }
{
    match seen {
        Seen::File(path) => texts.files.push(path)?,
        Seen::Folder(_, 0) | Seen::LeftOut(_) | Seen::LeftBehind(_) => {}
        Seen::Folder(path, unnamed) => {
            texts.troubles.push(CheckTrouble::Unnamed(path, unnamed))?;
        }
        Seen::Unread(path, error) => {
            texts.troubles.push(CheckTrouble::Unreadable(path, error))?;
        }
    }
    Ok(())
}
