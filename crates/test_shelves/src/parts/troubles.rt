// Which trouble an error of the system is, how it is told, and with which status it ends.
//
// A row `ACT KIND | PATH => STATUS LINE`, where the act is `unreadable`, `unwritable` or `owner` and the kind that of the error, has
// the status and the line that is told. In a path `\0` is a byte 0, or `\e` the byte that begins a terminal's commands, once.

use spdx_troubles::Trouble;
use std::alloc::{AllocError, Global};
use std::io::{self, ErrorKind};

pub(crate) fn answer(alloc: Global, given: &str) -> Result<String, AllocError> {
    let (head, path) = given.split_once(" | ").unwrap_or((given, ""));
    let (act, kind) = head.split_once(' ').unwrap_or((head, ""));
    let path = path_of(alloc, path)?;
    let error = io::Error::from(kind_of(kind));
    let trouble = match act {
        "unreadable" => Trouble::of_path(path, error),
        "unwritable" => Trouble::Unwritable(path, error),
        _ => Trouble::Owner(path, error),
    };
    let line = trouble.line(alloc)?;
    let line = line.as_str().trim_end();
    let status = trouble.status();
    format!(in alloc; "{status} {line}")
}

fn path_of(alloc: Global, written: &str) -> Result<String, AllocError> {
    let mut path = String::new(alloc);
    match written.split_once('\\') {
        Some((front, behind)) => {
            path.push_str(front)?;
            path.push(if behind.starts_with('0') {
                '\0'
            } else {
                '\u{1b}'
            })?;
            path.push_str(behind.get(1..).unwrap_or(""))?;
        }
        None => path.push_str(written)?,
    }
    Ok(path)
}

fn kind_of(name: &str) -> ErrorKind {
    match name {
        "NotFound" => ErrorKind::NotFound,
        "PermissionDenied" => ErrorKind::PermissionDenied,
        "OutOfMemory" => ErrorKind::OutOfMemory,
        _ => ErrorKind::Other,
    }
}
