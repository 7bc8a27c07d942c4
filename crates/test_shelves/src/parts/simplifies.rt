// What is written for each line, and what is told of it: of an input, and of files of a shelf.
//
// The first rows are the shelf's files, as `shelf` reads them. A row `MODE | INPUT => WANTED`, where the mode is `strict` or
// `lax`, has what is written by the list inside, in quotes, and then in brackets the number of each line that is told, and
// why. A row `MODE LIST PATH PATH .. => WANTED`, where `-` is the list inside, and a path's is the input, has the status, and
// behind a semicolon each file with the same, or `unread`; or why there is nothing. `\s` is a space, `\t` a tab, `\n` a newline,
// `\r` a carriage return, `\v` a vertical tab, and `\b` a byte that is in no UTF-8.

use crate::shelf::inside;
use list_program::named_list;
use meaning_program::{
    FileEnd, MeaningTrouble, Request, Run, Simplified, simplify, simplify_lines,
};
use shelves::Held;
use spdx_catalogue::Catalogue;
use std::alloc::{AllocError, Global};

pub(crate) fn answer(alloc: Global, shelf: &Held, given: &str) -> Result<String, AllocError> {
    let Some((mode, input)) = given.split_once(" |") else {
        return answer_of_run(alloc, shelf, given);
    };
    let Ok(catalogue) = named_list(alloc, shelf, inside(), None) else {
        return Err(AllocError);
    };
    let input = bytes_of(alloc, input.strip_prefix(" ").unwrap_or(""))?;
    answer_of_input(alloc, &catalogue, mode == "lax", &input)
}

fn answer_of_input(
    alloc: Global,
    catalogue: &Catalogue,
    is_lax: bool,
    input: &[u8],
) -> Result<String, AllocError> {
    let simplified = simplify_lines(alloc, catalogue, is_lax, input)?;
    let mut told = String::new(alloc);
    put_simplified(alloc, &mut told, &simplified)?;
    Ok(told)
}

fn answer_of_run(alloc: Global, shelf: &Held, given: &str) -> Result<String, AllocError> {
    let words: Vec<&str> = given.split(' ').collect(alloc)?;
    let [mode, list, paths @ ..] = words.as_slice() else {
        return String::from_str(alloc, "no row");
    };
    let request = Request {
        list: if *list == "-" { None } else { Some(*list) },
        is_lax: *mode == "lax",
        paths,
    };
    match simplify(alloc, shelf, inside(), request) {
        Ok(run) => told_of(alloc, &run),
        Err(MeaningTrouble::List(_)) => String::from_str(alloc, "no list"),
        Err(MeaningTrouble::Unsaid(_)) => String::from_str(alloc, "unsaid"),
        Err(MeaningTrouble::Memory) => Err(AllocError),
    }
}

fn told_of(alloc: Global, run: &Run) -> Result<String, AllocError> {
    let status = run.status();
    let mut told = format!(in alloc; "{status}")?;
    for file in &run.files {
        told.push_str("; ")?;
        match file {
            FileEnd::Read(path, simplified) => {
                told.push_str(path.as_str())?;
                told.push(' ')?;
                put_simplified(alloc, &mut told, simplified)?;
            }
            FileEnd::Unread(path, _) => {
                told.push_str(path.as_str())?;
                told.push_str(" unread")?;
            }
        }
    }
    Ok(told)
}

fn put_simplified(
    alloc: Global,
    told: &mut String,
    simplified: &Simplified,
) -> Result<(), AllocError> {
    told.push('"')?;
    put_shown(told, &simplified.text)?;
    told.push('"')?;
    for line in &simplified.unmeant {
        let (number, why) = (line.number, line.why.as_str());
        told.push_str(format!(in alloc; " [{number} {why}]")?.as_str())?;
    }
    Ok(())
}

// The bytes that a text of a row says.
fn bytes_of(alloc: Global, text: &str) -> Result<Vec<u8>, AllocError> {
    let mut bytes = Vec::new(alloc);
    let mut is_behind_backslash = false;
    for byte in text.as_bytes() {
        if is_behind_backslash {
            bytes.push(said_by(*byte))?;
            is_behind_backslash = false;
        } else if *byte == b'\\' {
            is_behind_backslash = true;
        } else {
            bytes.push(*byte)?;
        }
    }
    Ok(bytes)
}

fn said_by(letter: u8) -> u8 {
    match letter {
        b's' => b' ',
        b't' => b'\t',
        b'n' => b'\n',
        b'r' => b'\r',
        b'v' => 0x0B,
        b'b' => 0xFF,
        other => other,
    }
}

/// Appends the bytes as a row has them.
pub(crate) fn put_shown(text: &mut String, bytes: &[u8]) -> Result<(), AllocError> {
    for byte in bytes {
        match *byte {
            b'\t' => text.push_str("\\t")?,
            b'\n' => text.push_str("\\n")?,
            b'\r' => text.push_str("\\r")?,
            0x0B => text.push_str("\\v")?,
            0xFF => text.push_str("\\b")?,
            other => text.push(char::from(other))?,
        }
    }
    Ok(())
}
