// What a walk through a folder comes to, over a shelf of values.
//
// A line `in PATH: NAMES` says what is in a folder: `name` is a file, `name/` a folder and `name@` a link. A row is `PATH => WANTED`, in turn: a file's path; a folder's with `/` behind it; with `-` before it that of a folder
// that is left out, with `*` of a file that a run left behind, and with `!` of a folder that can't be read. A line that begins with
// `#` says something to readers.

use shelves::{Entry, Held, HeldFile, HeldFolder, Kind};
use source_trees::{Seen, all_seen};
use std::alloc::{AllocError, Global};

/// Puts the folders of the text and their files on the shelf.
pub(crate) fn put_trees(alloc: Global, shelf: &mut Held, text: &str) -> Result<(), AllocError> {
    for line in text.lines() {
        if let Some(folder) = line.strip_prefix("in ") {
            put_folder(alloc, shelf, folder)?;
        }
    }
    Ok(())
}

fn put_folder(alloc: Global, shelf: &mut Held, line: &str) -> Result<(), AllocError> {
    let (path, names) = line.split_once(": ").unwrap_or((line, ""));
    for word in names.split_whitespace() {
        put_file(alloc, shelf, path, word)?;
    }
    shelf.folders.push(HeldFolder {
        path: String::from_str(alloc, path)?,
        entries: entries(alloc, names)?,
    })?;
    Ok(())
}

// Where the word names a file of the folder.
fn put_file(alloc: Global, shelf: &mut Held, path: &str, word: &str) -> Result<(), AllocError> {
    let (name, kind) = entry(word);
    if kind != Kind::File {
        return Ok(());
    }
    shelf.files.push(HeldFile {
        path: format!(in alloc; "{path}/{name}")?,
        bytes: Vec::new(alloc),
    })?;
    Ok(())
}

fn entries(alloc: Global, names: &str) -> Result<Vec<Entry>, AllocError> {
    let mut entries = Vec::new(alloc);
    for word in names.split_whitespace() {
        let (name, kind) = entry(word);
        let name = String::from_str(alloc, name)?;
        entries.push(Entry { name, kind })?;
    }
    Ok(entries)
}

fn entry(word: &str) -> (&str, Kind) {
    if let Some(name) = word.strip_suffix('/') {
        (name, Kind::Folder)
    } else if let Some(name) = word.strip_suffix('@') {
        (name, Kind::Other)
    } else {
        (word, Kind::File)
    }
}

pub(crate) fn answer(alloc: Global, shelf: &Held, path: &str) -> Result<String, AllocError> {
    let mut told = String::new(alloc);
    let Ok(all) = all_seen(alloc, shelf, path) else {
        return Err(AllocError);
    };
    for seen in &all {
        if !told.is_empty() {
            told.push(' ')?;
        }
        told.push_str(word(alloc, seen)?.as_str())?;
    }
    Ok(told)
}

fn word(alloc: Global, seen: &Seen) -> Result<String, AllocError> {
    match seen {
        Seen::File(path) => String::from_str(alloc, path.as_str()),
        Seen::Folder(path, _) => format!(in alloc; "{path}/"),
        Seen::LeftOut(path) => format!(in alloc; "-{path}"),
        Seen::LeftBehind(path) => format!(in alloc; "*{path}"),
        Seen::Unread(path, _) => format!(in alloc; "!{path}"),
    }
}
