// Rows, one by one.

use crate::served::{Served, serve_over, words_of};
use std::alloc::{AllocError, Global};
use test_rows::{Tally, written_out};

/// Tries a row over this catalogue, and appends it with its answer where it doesn't hold.
pub(crate) fn try_row(
    alloc: Global,
    tally: &mut Tally,
    shown: &mut String,
    catalogue: &[u8],
    row: &str,
) -> Result<(), AllocError> {
    let row = written_out(alloc, row)?;
    let row = row.as_str();
    let (given, wanted) = row.split_once(" => ").unwrap_or((row, ""));
    let answered = answer(alloc, catalogue, given)?;
    tally.count(shown, row, wanted, answered.as_str())
}

// What is answered to the fields that are given.
fn answer(alloc: Global, catalogue: &[u8], given: &str) -> Result<String, AllocError> {
    let (named, fields) = given.split_once('|').unwrap_or((given, ""));
    let (words, lines) = fields.split_once('|').unwrap_or((fields, ""));
    let words = words_of(alloc, words)?;
    let bytes = match named {
        "-" => None,
        "k1" => Some(catalogue),
        json => Some(json.as_bytes()),
    };
    let input = bytes_of(alloc, lines)?;
    shown(
        alloc,
        &serve_over(alloc, words.as_slice(), bytes, input.as_slice()),
    )
}

// The bytes that the text stands for.
fn bytes_of(alloc: Global, text: &str) -> Result<Vec<u8>, AllocError> {
    let mut bytes = Vec::new(alloc);
    for byte in text.bytes() {
        bytes.push(match byte {
            b';' => b'\n',
            b'_' => b'\t',
            b'~' => b'\r',
            b'!' => 0xff,
            other => other,
        })?;
    }
    Ok(bytes)
}

// The text that stands for the bytes of a text.
fn put_text(shown: &mut String, bytes: &[u8]) -> Result<(), AllocError> {
    match str::from_utf8(bytes) {
        Ok(text) => {
            for letter in text.chars() {
                shown.push(match letter {
                    '\n' => ';',
                    '\t' => '_',
                    '\r' => '~',
                    other => other,
                })?;
            }
            Ok(())
        }
        Err(_) => shown.push_str("no text"),
    }
}

fn shown(alloc: Global, served: &Served) -> Result<String, AllocError> {
    let mut shown = format!(in alloc; "{}|", served.status)?;
    put_text(&mut shown, served.output.as_slice())?;
    shown.push('|')?;
    put_text(&mut shown, served.faults.as_slice())?;
    Ok(shown)
}
