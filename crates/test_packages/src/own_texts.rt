// Which files of a package are owed, and texts that are the same, with the files of real packages.
//
// `owed OFFERED | CHOSEN | FILES => OWED` has names with blanks between, where a `+` stands before a file that is declared.
// `path FOLDER | PATH => PATH` has `none` where a path isn't taken. `shared FILE: TEXT | .. => TEXT: FILES | ..` has the
// escapes of `escapes` in its texts. A line that begins with `#` says something to readers.

use crate::escapes::{bytes_of, put_bytes};
use crate::names::{names_of, put_name};
use notice_texts::{File, Holder, OwnText, SharedText, owed_files, path_in, shared_texts};
use std::alloc::{AllocError, Global};

/// What is answered to what stands before a row's `=>`.
pub(crate) fn answer(alloc: Global, given: &str) -> Result<String, AllocError> {
    match given.split_once(' ') {
        Some(("owed", asked)) => owed(alloc, asked),
        Some(("path", asked)) => path(alloc, asked),
        Some(("shared", asked)) => shared(alloc, asked),
        _ => String::from_str(alloc, "no such row"),
    }
}

fn files_of<'t>(alloc: Global, text: &'t str) -> Result<Vec<File<'t>>, AllocError> {
    let mut files = Vec::new(alloc);
    for name in text.split(' ') {
        let path = name.strip_prefix('+').unwrap_or(name);
        if !path.is_empty() {
            files.push(File {
                path,
                is_declared: name.starts_with('+'),
            })?;
        }
    }
    Ok(files)
}

fn owed(alloc: Global, asked: &str) -> Result<String, AllocError> {
    let (offered, rest) = asked.split_once(" | ").unwrap_or((asked, ""));
    let (chosen, files) = rest.split_once(" | ").unwrap_or((rest, ""));
    let files = files_of(alloc, files)?;
    owed_of(alloc, &files, offered, chosen)
}

fn owed_of(
    alloc: Global,
    files: &[File<'_>],
    offered: &str,
    chosen: &str,
) -> Result<String, AllocError> {
    let offered = names_of(alloc, offered)?;
    let chosen = names_of(alloc, chosen)?;
    paths_of(alloc, &owed_files(alloc, files, &offered, &chosen)?)
}

fn paths_of(alloc: Global, files: &[File<'_>]) -> Result<String, AllocError> {
    let mut shown = String::new(alloc);
    for file in files {
        put_name(&mut shown, file.path)?;
    }
    Ok(shown)
}

fn path(alloc: Global, asked: &str) -> Result<String, AllocError> {
    let (folder, path) = asked.split_once(" | ").unwrap_or((asked, ""));
    match path_in(alloc, folder, path)? {
        Some(joined) => Ok(joined),
        None => String::from_str(alloc, "none"),
    }
}

fn texts_of(alloc: Global, asked: &str) -> Result<Vec<Vec<u8>>, AllocError> {
    let mut texts = Vec::new(alloc);
    for part in asked.split('|') {
        let (_, text) = part.split_once(": ").unwrap_or((part, ""));
        texts.push(bytes_of(alloc, text)?)?;
    }
    Ok(texts)
}

fn shared(alloc: Global, asked: &str) -> Result<String, AllocError> {
    let texts = texts_of(alloc, asked)?;
    let own = own_texts(alloc, asked, &texts)?;
    shown_of(alloc, &shared_texts(alloc, &own)?)
}

fn own_texts<'t>(
    alloc: Global,
    asked: &'t str,
    texts: &'t [Vec<u8>],
) -> Result<Vec<OwnText<'t>>, AllocError> {
    let mut own = Vec::new(alloc);
    for (part, text) in asked.split('|').zip(texts.iter()) {
        let (file, _) = part.split_once(": ").unwrap_or((part, ""));
        let holder = Holder {
            name: file,
            version: "",
            file,
        };
        own.push(OwnText {
            holder,
            bytes: text.as_slice(),
        })?;
    }
    Ok(own)
}

fn shown_of(alloc: Global, found: &[SharedText<'_>]) -> Result<String, AllocError> {
    let mut shown = String::new(alloc);
    for (i, text) in found.iter().enumerate() {
        if i > 0 {
            shown.push('|')?;
        }
        put_bytes(&mut shown, text.bytes)?;
        shown.push(':')?;
        for holder in &text.holders {
            shown.push(' ')?;
            shown.push_str(holder.file)?;
        }
    }
    Ok(shown)
}
