// Texts of others, in each sink.
//
// `char NUMBER` is a character by its hexadecimal number, which is written between two letters for each sink but the message
// of SARIF; `text TEXT` is a text, for each sink; `name NUMBER ..` is a name of a file, by the numbers of its characters, as
// the header of a diff has it.

use foreign_text::{Sink, put_header_name, text_for};
use std::alloc::{AllocError, Global};

// The sinks whose text can stand in a line of a file.
const SINKS: [Sink; 5] = [
    Sink::Line,
    Sink::Lines,
    Sink::Command,
    Sink::Property,
    Sink::Path,
];

/// Appends what is written of each row.
pub(crate) fn put_rows(alloc: Global, shown: &mut Vec<u8>, text: &str) -> Result<(), AllocError> {
    for row in text.lines() {
        put_row(alloc, shown, row)?;
    }
    Ok(())
}

fn put_row(alloc: Global, shown: &mut Vec<u8>, row: &str) -> Result<(), AllocError> {
    if let Some(number) = row.strip_prefix("char ") {
        let text = format!(in alloc; "a{}b", char_of(number))?;
        return put_sinks(alloc, shown, number, text.as_str());
    }
    if let Some(text) = row.strip_prefix("text ") {
        put_sinks(alloc, shown, "text", text)?;
        return put_one(alloc, shown, Sink::Message, text);
    }
    match row.strip_prefix("name ") {
        Some(numbers) => put_name(alloc, shown, numbers),
        None => Ok(()),
    }
}

fn put_sinks(
    alloc: Global,
    shown: &mut Vec<u8>,
    title: &str,
    text: &str,
) -> Result<(), AllocError> {
    shown.extend_from_slice(title.as_bytes())?;
    shown.extend_from_slice(b"\n")?;
    for sink in SINKS {
        put_one(alloc, shown, sink, text)?;
    }
    Ok(())
}

fn put_one(alloc: Global, shown: &mut Vec<u8>, sink: Sink, text: &str) -> Result<(), AllocError> {
    let written = text_for(alloc, sink, text)?;
    shown.extend_from_slice(b"  ")?;
    shown.extend_from_slice(written.as_bytes())?;
    shown.extend_from_slice(b"\n")
}

fn put_name(alloc: Global, shown: &mut Vec<u8>, numbers: &str) -> Result<(), AllocError> {
    let mut name = String::from_str(alloc, "a/")?;
    for number in numbers.split(' ') {
        name.push(char_of(number))?;
    }
    shown.extend_from_slice(b"--- ")?;
    put_header_name(shown, name.as_str())
}

// The character of a hexadecimal number; U+FFFD where there is none.
fn char_of(number: &str) -> char {
    match u32::from_str_radix(number, 16) {
        Ok(number) => char::from_u32(number).unwrap_or('\u{fffd}'),
        Err(_) => '\u{fffd}',
    }
}
