// Which list is read, and which one is written, over a shelf of values.
//
// The shelf has the lists `one.json` and `two.json`, whose versions are their names; `bad.json`, which is none; the folders
// `spdx` with SPDX's two files of version 3, `half` with the first of them, and `wrong` with two that are none; and `extras.json`.
// A row is `PATH | SPDX_LIST => WANTED`, where `-` is nothing given, and `''` an empty text; the version of the list, or why there
// is none. `make LICENSES | EXCEPTIONS | EXTRAS => WANTED` has the version of the list that is written, or why there is none and
// how many bytes are written. A line that begins with `#` says something to readers.

use crate::shelf::empty;
use line_engine::stream::Output;
use list_program::{Inside, ListTrouble, MadeOf, named_list, put_made_list};
use shelves::{Held, HeldFile, HeldFolder, HeldVariable};
use spdx_catalogue::Catalogue;
use spdx_known::EXTRAS;
use std::alloc::{AllocError, Global};

const FILES: [(&str, &str); 9] = [
    (
        "one.json",
        r#"{"version":"one","licenses":[],"exceptions":[],"imprecise":[]}"#,
    ),
    (
        "two.json",
        r#"{"version":"two","licenses":[],"exceptions":[],"imprecise":[]}"#,
    ),
    ("bad.json", "[]"),
    (
        "spdx/licenses.json",
        r#"{"licenseListVersion":"3","licenses":[{"licenseId":"MIT","name":"MIT License"}]}"#,
    ),
    ("spdx/exceptions.json", r#"{"exceptions":[]}"#),
    (
        "half/licenses.json",
        r#"{"licenseListVersion":"3","licenses":[]}"#,
    ),
    ("wrong/licenses.json", "[]"),
    ("wrong/exceptions.json", "[]"),
    (
        "extras.json",
        r#"{"copyleft":[],"imprecise":[],"instead":[]}"#,
    ),
];

const INSIDE: &str = "inside\u{c}\u{c}\u{c}";

pub(crate) fn answer(alloc: Global, given: &str) -> Result<String, AllocError> {
    match given.strip_prefix("make ") {
        Some(paths) => made(alloc, paths),
        None => named(alloc, given),
    }
}

fn named(alloc: Global, given: &str) -> Result<String, AllocError> {
    let (path, variable) = given.split_once('|').unwrap_or((given, "-"));
    let shelf = shelf(alloc, value(variable))?;
    let inside = Inside {
        list: INSIDE,
        extras: EXTRAS.as_bytes(),
    };
    match named_list(alloc, &shelf, inside, value(path)) {
        Ok(list) => String::from_str(alloc, list.license_version()),
        Err(trouble) => told(alloc, &trouble),
    }
}

fn made(alloc: Global, given: &str) -> Result<String, AllocError> {
    let (licenses, others) = given.split_once('|').unwrap_or((given, ""));
    let (exceptions, extras) = others.split_once('|').unwrap_or((others, "-"));
    let paths = MadeOf {
        licenses: licenses.trim(),
        exceptions: exceptions.trim(),
        extras: value(extras),
    };
    let mut output = Output::new(Vec::new(alloc));
    let ended = put_made_list(alloc, &shelf(alloc, None)?, paths, &mut output);
    let written = output.into_inner();
    match ended {
        Ok(()) => version(alloc, &written),
        Err(trouble) => {
            let why = told(alloc, &trouble)?;
            let count = written.len();
            format!(in alloc; "{why}; {count} bytes")
        }
    }
}

fn version(alloc: Global, bytes: &[u8]) -> Result<String, AllocError> {
    match Catalogue::from_json(alloc, bytes) {
        Ok(list) => String::from_str(alloc, list.license_version()),
        Err(_) => String::from_str(alloc, "no list"),
    }
}

// What a part of a row gives.
fn value(part: &str) -> Option<&str> {
    match part.trim() {
        "-" => None,
        "''" => Some(""),
        text => Some(text),
    }
}

fn told(alloc: Global, trouble: &ListTrouble) -> Result<String, AllocError> {
    let (word, path) = match trouble {
        ListTrouble::Unreadable(path, _) => ("unreadable", path.as_str()),
        ListTrouble::Nameless => ("nameless", ""),
        ListTrouble::NoList(path, _) => ("no list", path.as_str()),
        ListTrouble::NotMade(path, _) => ("not made", path.as_str()),
        ListTrouble::NoExtras(_) => ("no extras", ""),
        ListTrouble::Output => ("output", ""),
        ListTrouble::Memory => ("memory", ""),
    };
    let told = format!(in alloc; "{word} {path}")?;
    String::from_str(alloc, told.as_str().trim())
}

fn shelf(alloc: Global, variable: Option<&str>) -> Result<Held, AllocError> {
    let mut shelf = empty(alloc);
    put_files(alloc, &mut shelf)?;
    put_folders(alloc, &mut shelf)?;
    if let Some(text) = variable {
        shelf.variables.push(spdx_list(alloc, text)?)?;
    }
    Ok(shelf)
}

fn put_files(alloc: Global, shelf: &mut Held) -> Result<(), AllocError> {
    for (path, text) in &FILES {
        shelf.files.push(file(alloc, path, text)?)?;
    }
    Ok(())
}

fn put_folders(alloc: Global, shelf: &mut Held) -> Result<(), AllocError> {
    for path in ["spdx", "half", "wrong"] {
        shelf.folders.push(HeldFolder {
            path: String::from_str(alloc, path)?,
            entries: Vec::new(alloc),
        })?;
    }
    Ok(())
}

fn spdx_list(alloc: Global, text: &str) -> Result<HeldVariable, AllocError> {
    Ok(HeldVariable {
        name: String::from_str(alloc, "SPDX_LIST")?,
        text: String::from_str(alloc, text)?,
    })
}

fn file(alloc: Global, path: &str, text: &str) -> Result<HeldFile, AllocError> {
    let mut bytes = Vec::new(alloc);
    bytes.extend_from_slice(text.as_bytes())?;
    Ok(HeldFile {
        path: String::from_str(alloc, path)?,
        bytes,
    })
}
