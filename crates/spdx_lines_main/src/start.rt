//! The program over the system: its arguments, the catalogue's file and standard input. The outputs are handed in.

use spdx_lines::program::{are_understood, serve};
use spdx_lines::{Input as Lines, Output, write_all};
use std::alloc::{AllocError, Global};
use std::io::{self, ErrorKind, Write};
use std::process::ExitCode;
use std::rt::{Env, Files};
use std::{env, fs};

/// Serves the arguments of the process. The first names the catalogue's file; the lines come from standard input. The
/// answers go to `output`, and the line that tells of a fault to `faults`.
pub(crate) fn start<R: Env + Files + Input + AllocGlobal, O: Write + Drop, F: Write + Drop>(
    rt: &R,
    output: O,
    faults: F,
) -> ExitCode {
    let mut faults = Output::new(faults);
    match answer(rt, output, &mut faults) {
        Ok(status) => ExitCode::from(status),
        Err(AllocError) => {
            let _ = write_all(&mut faults, b"out of memory\n");
            ExitCode::from(3)
        }
    }
}

// Serves what the arguments say. The catalogue is read only where they are understood: its file may be a pipe that
// nobody writes to.
fn answer<R: Env + Files + Input + AllocGlobal, O: Write + Drop, F: Write>(
    rt: &R,
    output: O,
    faults: &mut Output<F>,
) -> Result<u8, AllocError> {
    let alloc = rt.alloc();
    let mut input = Lines::new(rt.reader());
    let mut output = Output::new(output);
    let Some(words) = arguments(rt)? else {
        return Ok(serve(alloc, None, None, &mut input, &mut output, faults));
    };
    let texts = texts(alloc, &words)?;
    let bytes = if are_understood(texts.as_slice()) {
        bytes_of(rt, words.first())?
    } else {
        None
    };
    let bytes = match &bytes {
        Some(bytes) => Some(bytes.as_slice()),
        None => None,
    };
    let texts = Some(texts.as_slice());
    Ok(serve(alloc, texts, bytes, &mut input, &mut output, faults))
}

// The arguments without the program's name; none where one is not UTF-8.
fn arguments<R: Env + AllocGlobal>(rt: &R) -> Result<Option<Vec<String>>, AllocError> {
    let mut words = Vec::new(rt.alloc());
    match env::args(rt) {
        Ok(all) => {
            for word in all.skip(1) {
                words.push(word)?;
            }
            Ok(Some(words))
        }
        Err(error) => none_unless_memory(&error),
    }
}

// What the file holds; none where it cannot be opened or read.
fn bytes_of<R: Files + AllocGlobal>(
    rt: &R,
    path: Option<&String>,
) -> Result<Option<Vec<u8>>, AllocError> {
    let Some(path) = path else {
        return Ok(None);
    };
    match fs::read(rt, path.as_str()) {
        Ok(bytes) => Ok(Some(bytes)),
        Err(error) => none_unless_memory(&error),
    }
}

// Want of memory is told apart from any other error.
fn none_unless_memory<T>(error: &io::Error) -> Result<Option<T>, AllocError> {
    if error.kind() == ErrorKind::OutOfMemory {
        Err(AllocError)
    } else {
        Ok(None)
    }
}

fn texts<'w>(alloc: Global, words: &'w [String]) -> Result<Vec<&'w str>, AllocError> {
    let mut texts = Vec::new(alloc);
    for word in words {
        texts.push(word.as_str())?;
    }
    Ok(texts)
}
