// Catalogues that are read from JSON.

use crate::answer::{Answer, NoAnswer, fields};
use spdx::{Catalogue, Failure};
use std::alloc::{AllocError, Global};
use test_rows::number;

/// The version of the catalogue that the text is, or its fault.
pub(crate) fn text(alloc: Global, json: &str) -> Answer {
    match Catalogue::from_json(alloc, json.as_bytes()) {
        Ok(catalogue) => Ok(catalogue.license_version().to_string(alloc)?),
        Err(Failure::Refused(fault)) => Ok(format!(in alloc; "{fault:?}")?),
        Err(Failure::Memory(_)) => Err(NoAnswer::Memory),
    }
}

// A catalogue of so many licences, `L-100000` and the numbers behind it.
fn numbered(alloc: Global, count: u32) -> Result<String, AllocError> {
    let mut json = "{\"version\":\"\",\"licenses\":[".to_string(alloc)?;
    for i in 0..count {
        let between = if i == 0 { "" } else { "," };
        let name = i.saturating_add(100_000);
        write!(
            json,
            "{between}{{\"name\":\"L-{name}\",\"full_name\":\"licence {name}\",\"flags\":3}}"
        )?;
    }
    json.push_str("],\"exceptions\":[],\"imprecise\":[]}")?;
    Ok(json)
}

/// How many bytes the text of a catalogue of so many licences has at least, in millions, and the indices of its first
/// and its last.
pub(crate) fn large(alloc: Global, count: &str) -> Answer {
    let count = number(count);
    let json = numbered(alloc, count)?;
    let (first, last) = ends(alloc, json.as_str(), count)?;
    let millions = json.len() / 1_000_000;
    Ok(format!(in alloc; "{millions} million bytes, {first} to {last}")?)
}

fn ends(alloc: Global, json: &str, count: u32) -> Result<(usize, usize), NoAnswer> {
    let last = format!(in alloc; "L-{}", count.saturating_add(99_999))?;
    let catalogue = Catalogue::from_json(alloc, json.as_bytes())?;
    let one = catalogue.license_id("L-100000");
    let other = catalogue.license_id(last.as_str());
    match (one, other) {
        (Some(one), Some(other)) => Ok((one.license().index, other.license().index)),
        _ => Err(NoAnswer::Row),
    }
}

// What the bytes are read as: `read`, or the printed fault.
fn outcome(alloc: Global, bytes: &[u8]) -> Answer {
    match Catalogue::from_json(alloc, bytes) {
        Ok(_) => Ok("read".to_string(alloc)?),
        Err(Failure::Refused(fault)) => Ok(format!(in alloc; "{fault}")?),
        Err(Failure::Memory(_)) => Err(NoAnswer::Memory),
    }
}

/// What a catalogue is read as that has these licences and exceptions and, behind all of its keys, this text.
pub(crate) fn tables(alloc: Global, given: &str) -> Answer {
    let (licenses, rest) = fields(given)?;
    let (exceptions, more) = fields(rest)?;
    let json = format!(in alloc;
        "{{\"version\":\"a\",\"licenses\":[{licenses}],\"exceptions\":[{exceptions}],\"imprecise\":[]{more}}}"
    )?;
    outcome(alloc, json.as_str().as_bytes())
}

/// What bytes are read as, each of which is given as a number.
pub(crate) fn bytes(alloc: Global, given: &str) -> Answer {
    let mut bytes = Vec::new(alloc);
    for byte in given.split(' ') {
        match byte.parse::<u8>() {
            Ok(byte) => bytes.push(byte)?,
            Err(_) => return Err(NoAnswer::Row),
        }
    }
    outcome(alloc, &bytes)
}
