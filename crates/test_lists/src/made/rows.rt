// Rows, one by one.

use crate::made::shown::{fault_text, tables_text};
use spdx_catalogue::{Catalogue, Failure};
use spdx_list::{Extras, ListFault, catalogue_of, list_text, tables_of};
use spdx_tables::Tables;
use std::alloc::{AllocError, Global};
use test_rows::Tally;

// The call that rows are of.
#[derive(Clone, Copy)]
enum Call {
    Made,
    Instead,
}

impl Call {
    fn named(name: &str) -> Call {
        if name == "made" {
            Call::Made
        } else {
            Call::Instead
        }
    }
}

/// Appends the rows that don't hold, and how many do; gives whether all do.
pub(crate) fn try_rows(alloc: Global, shown: &mut String, text: &str) -> Result<bool, AllocError> {
    let mut tally = Tally::new();
    let mut call = Call::Made;
    for line in text.lines() {
        if let Some(heading) = line.strip_prefix("= ") {
            call = Call::named(heading);
        } else if !line.is_empty() && !line.starts_with('#') {
            let (given, wanted) = line.split_once(" => ").unwrap_or((line, ""));
            let answered = answer(alloc, call, given)?;
            tally.count(shown, line, wanted, answered.as_str())?;
        }
    }
    tally.end(shown)
}

// What is answered, or the fault.
fn answer(alloc: Global, call: Call, given: &str) -> Result<String, AllocError> {
    let shown = match call {
        Call::Made => made(alloc, given),
        Call::Instead => instead(alloc, given),
    };
    match shown {
        Ok(text) => Ok(text),
        Err(Failure::Refused(fault)) => fault_text(alloc, fault),
        Err(Failure::Memory(error)) => Err(error),
    }
}

// The bytes that a field stands for.
fn bytes_of(alloc: Global, field: &str, empty: &str) -> Result<Vec<u8>, AllocError> {
    let field = field.trim();
    let text = if field.is_empty() { empty } else { field };
    let mut bytes = Vec::new(alloc);
    for byte in text.bytes() {
        bytes.push(if byte == b'!' { 0xff } else { byte })?;
    }
    Ok(bytes)
}

fn extras_of(alloc: Global, field: &str) -> Result<Extras, Failure<ListFault>> {
    if field.trim().is_empty() {
        return Ok(Extras::new(alloc));
    }
    let bytes = bytes_of(alloc, field, "")?;
    Extras::from_json(alloc, bytes.as_slice())
}

// The tables of the files, once the catalogue and the text that they make agree with them.
fn made(alloc: Global, given: &str) -> Result<String, Failure<ListFault>> {
    let (licenses, rest) = given.split_once('|').unwrap_or((given, ""));
    let (exceptions, extras) = rest.split_once('|').unwrap_or((rest, ""));
    let licenses = bytes_of(alloc, licenses, "{}")?;
    let exceptions = bytes_of(alloc, exceptions, "{\"exceptions\":[]}")?;
    let extras = extras_of(alloc, extras)?;
    let (licenses, exceptions) = (licenses.as_slice(), exceptions.as_slice());
    let catalogue = catalogue_of(alloc, licenses, exceptions, &extras)?;
    let tables = tables_of(alloc, licenses, exceptions, &extras)?;
    let text = list_text(alloc, licenses, exceptions, &extras)?;
    let shown = tables_text(alloc, &tables)?;
    let is_version = catalogue.license_version() == tables.version.as_str();
    if is_version && reads_as(alloc, text.as_str(), shown.as_str())? {
        return Ok(shown);
    }
    Ok(String::from_str(alloc, "the catalogue or its text is another")?)
}

// Whether the text is read as a catalogue, and as the tables that are shown.
fn reads_as(alloc: Global, text: &str, shown: &str) -> Result<bool, AllocError> {
    if Catalogue::from_json(alloc, text.as_bytes()).is_err() {
        return Ok(false);
    }
    match Tables::from_json(alloc, text.as_bytes()) {
        Ok(tables) => Ok(tables_text(alloc, &tables)?.as_str() == shown),
        Err(_) => Ok(false),
    }
}

fn instead(alloc: Global, given: &str) -> Result<String, Failure<ListFault>> {
    let (extras, name) = given.split_once('|').unwrap_or((given, ""));
    let extras = extras_of(alloc, extras)?;
    Ok(String::from_str(
        alloc,
        extras.replacement(name.trim()).unwrap_or("(nothing)"),
    )?)
}
