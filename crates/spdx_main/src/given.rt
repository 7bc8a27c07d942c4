// The words that the program is given.

use std::alloc::{AllocError, Global};
use std::env::FillError;
use std::rt::Env;

// So many bytes most words fit in. Room for the longest would be written at each start.
const USUAL: usize = 4_096;

// The longest word that the system takes, in bytes.
const LONGEST: usize = 131_072;

/// The words, the first of which is the program's name. What is no UTF-8 in a word is a NUL there, which no name of a
/// file has: so such a word is told as a path that can't be opened, and ends no run for others.
pub(crate) fn words<R: Env + AllocGlobal>(rt: &R) -> Result<Vec<String>, AllocError> {
    let alloc = rt.alloc();
    let mut held = Vec::from_elem(alloc, 0, USUAL)?;
    let mut words = Vec::new(alloc);
    for number in 0..usize::MAX {
        let Some(length) = length_of(rt, number, &mut held)? else {
            break;
        };
        let bytes = held.get(..length).unwrap_or(&[]);
        words.push(word(alloc, bytes)?)?;
    }
    Ok(words)
}

// How many bytes the word of that number has, which are put into `held`; none where there is no such word.
fn length_of<R: Env + AllocGlobal>(
    rt: &R,
    number: usize,
    held: &mut Vec<u8>,
) -> Result<Option<usize>, AllocError> {
    match rt.arg(number, held.as_mut_slice()) {
        Ok(length) => Ok(Some(length)),
        Err(FillError::NotPresent) => Ok(None),
        Err(FillError::TooLong) => {
            held.resize(LONGEST, 0)?;
            Ok(rt.arg(number, held.as_mut_slice()).ok())
        }
    }
}

// A word of these bytes.
fn word(alloc: Global, bytes: &[u8]) -> Result<String, AllocError> {
    match str::from_utf8(bytes) {
        Ok(text) => String::from_str(alloc, text),
        Err(_) => String::from_utf8_lossy(alloc, bytes)?
            .as_str()
            .replace(alloc, '\u{fffd}', "\0"),
    }
}
