// Shelves that stand in texts of rows, and how rows tell what comes of them.

use crate::parts::trees::put_trees;
use list_program::Inside;
use package_files::FileFault;
use shelves::{Entry, Held, HeldFile, HeldFolder, HeldLink, Kind};
use std::alloc::{AllocError, Global};

/// A few rows of SPDX's list, as a program has them inside.
const LINES: &str = "rows\u{c}0\tClasspath-exception-2.0
\u{c}O\tGPL-2.0\tGNU General Public License v2.0 only
K\tGPL-2.0-only\tGNU General Public License v2.0 only
L\tGPL-2.0-with-classpath-exception\tGNU General Public License v2.0 w/Classpath exception
3\tISC\tISC License
3\tMIT\tMIT License
3\tZlib\tzlib License
\u{c}";

/// What stands in the place of deprecated names.
pub(crate) const REPLACEMENTS: &str = r#"{"copyleft":[],"imprecise":[],"instead":[
{"name":"GPL-2.0-with-classpath-exception","write":"GPL-2.0-only WITH Classpath-exception-2.0"}]}"#;

/// What a program of rows has inside.
pub(crate) fn inside() -> Inside<'static> {
    Inside {
        list: LINES,
        extras: REPLACEMENTS.as_bytes(),
    }
}

/// The shelf of a text's files: `= PATH`, and behind it the file's lines, each behind `| `. `= -` is the input, and `= PATH/` a
/// folder, whose lines are the names in it, those of folders with a slash behind them. `= PATH -> OTHER` says that what is at the
/// path is a link to the other one. A line `in PATH: NAMES` of the text is a folder too: `name` is an empty file, `name/` a folder
/// and `name@` a link.
pub(crate) fn shelf_of(alloc: Global, text: &str) -> Result<Held, AllocError> {
    let mut shelf = empty(alloc);
    for part in text.split("\n= ").skip(1) {
        put_part(alloc, &mut shelf, part)?;
    }
    put_input(&mut shelf)?;
    put_trees(alloc, &mut shelf, text)?;
    Ok(shelf)
}

/// A shelf with nothing.
pub(crate) fn empty(alloc: Global) -> Held {
    Held {
        files: Vec::new(alloc),
        folders: Vec::new(alloc),
        links: Vec::new(alloc),
        variables: Vec::new(alloc),
        input: Vec::new(alloc),
    }
}

fn put_part(alloc: Global, shelf: &mut Held, part: &str) -> Result<(), AllocError> {
    let head = part.lines().next().unwrap_or("");
    if let Some((path, to)) = head.split_once(" -> ") {
        shelf.links.push(link(alloc, path, to)?)?;
        return Ok(());
    }
    match head.strip_suffix("/") {
        Some(path) => shelf.folders.push(folder(alloc, path, part)?)?,
        None => shelf.files.push(file(alloc, part)?)?,
    }
    Ok(())
}

fn link(alloc: Global, path: &str, to: &str) -> Result<HeldLink, AllocError> {
    Ok(HeldLink {
        path: String::from_str(alloc, path)?,
        to: String::from_str(alloc, to)?,
    })
}

fn file(alloc: Global, part: &str) -> Result<HeldFile, AllocError> {
    let mut lines = part.lines();
    let path = String::from_str(alloc, lines.next().unwrap_or(""))?;
    let mut bytes = Vec::new(alloc);
    for line in lines {
        if let Some(text) = line.strip_prefix("| ") {
            bytes.extend_from_slice(text.as_bytes())?;
            bytes.push(b'\n')?;
        }
    }
    Ok(HeldFile { path, bytes })
}

fn folder(alloc: Global, path: &str, part: &str) -> Result<HeldFolder, AllocError> {
    let mut entries = Vec::new(alloc);
    for line in part.lines() {
        if let Some(name) = line.strip_prefix("| ") {
            let (name, kind) = match name.strip_suffix("/") {
                Some(name) => (name, Kind::Folder),
                None => (name, Kind::File),
            };
            let name = String::from_str(alloc, name)?;
            entries.push(Entry { name, kind })?;
        }
    }
    let path = String::from_str(alloc, path)?;
    Ok(HeldFolder { path, entries })
}

fn put_input(shelf: &mut Held) -> Result<(), AllocError> {
    let Held { files, input, .. } = shelf;
    if let Some(file) = files.iter().find(|file| file.path.as_str() == "-") {
        input.extend_from_slice(&file.bytes)?;
    }
    Ok(())
}

/// The faults of files that are left out, each in brackets behind a blank.
pub(crate) fn told_faults(alloc: Global, faults: &[FileFault]) -> Result<String, AllocError> {
    let mut told = String::new(alloc);
    for fault in faults {
        let fault = told_fault(alloc, fault)?;
        told.push_str(format!(in alloc; " [{fault}]")?.as_str())?;
    }
    Ok(told)
}

/// Why the packages of a file aren't had.
pub(crate) fn told_fault(alloc: Global, fault: &FileFault) -> Result<String, AllocError> {
    match fault {
        FileFault::Unreadable(path, _) => format!(in alloc; "unreadable {path}"),
        FileFault::Source(path, _) => format!(in alloc; "refused {path}"),
        FileFault::Empty(path) => format!(in alloc; "no packages in {path}"),
        FileFault::Memory => Err(AllocError),
    }
}

/// The lines of the text, with ` / ` before each but the first.
pub(crate) fn lines_of(alloc: Global, text: &[u8]) -> Result<String, AllocError> {
    let text = String::from_utf8_lossy(alloc, text)?;
    let mut told = String::new(alloc);
    for (number, line) in text.as_str().lines().enumerate() {
        told.push_str(if number == 0 { " " } else { " / " })?;
        told.push_str(line)?;
    }
    Ok(told)
}
