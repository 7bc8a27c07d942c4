// Catalogues that are made of rows, and the printed faults of rows.

use crate::answer::{Answer, NoAnswer, fields, two_parts};
use spdx::error::{CatalogueError, List};
use spdx::{Catalogue, Exception, ImpreciseName, License};
use std::alloc::{AllocError, Global};
use test_rows::number;

// A licence for each name, whose flags stand behind a blank, where it has any.
fn licenses(alloc: Global, given: &str) -> Result<Vec<License>, AllocError> {
    let mut rows = Vec::new(alloc);
    for (index, name) in given.split(',').filter(|name| !name.is_empty()).enumerate() {
        let (name, flags) = name.split_once('/').unwrap_or((name, "0"));
        rows.push(License {
            name: name.to_string(alloc)?,
            full_name: name.to_string(alloc)?,
            index,
            flags: flags.parse::<u8>().unwrap_or(0),
        })?;
    }
    Ok(rows)
}

// An exception for each name.
fn exceptions(alloc: Global, given: &str) -> Result<Vec<Exception>, AllocError> {
    let mut rows = Vec::new(alloc);
    for (index, name) in given.split(',').filter(|name| !name.is_empty()).enumerate() {
        rows.push(Exception {
            name: name.to_string(alloc)?,
            index,
            flags: 0,
        })?;
    }
    Ok(rows)
}

// An imprecise name for each prefix and name, with `=` between.
fn imprecise(alloc: Global, given: &str) -> Result<Vec<ImpreciseName>, NoAnswer> {
    let mut rows = Vec::new(alloc);
    for pair in given.split(',').filter(|pair| !pair.is_empty()) {
        let (prefix, name) = two_parts(pair, "=")?;
        rows.push(ImpreciseName {
            prefix: prefix.to_string(alloc)?,
            name: name.to_string(alloc)?,
        })?;
    }
    Ok(rows)
}

/// `made`, or the fault of the rows: licences, exceptions and imprecise names.
pub(crate) fn made(alloc: Global, given: &str) -> Answer {
    let (names, rest) = fields(given)?;
    let (excepted, spelled) = fields(rest)?;
    let catalogue = Catalogue::new(
        String::new(alloc),
        licenses(alloc, names)?,
        exceptions(alloc, excepted)?,
        imprecise(alloc, spelled)?,
    );
    match catalogue {
        Ok(_) => Ok("made".to_string(alloc)?),
        Err(fault) => Ok(format!(in alloc; "{fault}")?),
    }
}

fn list_named(name: &str) -> List {
    if name == "exceptions" {
        List::Exceptions
    } else {
        List::Licenses
    }
}

/// The text of a fault, of a list and of a row.
pub(crate) fn fault(alloc: Global, given: &str) -> Answer {
    let (name, rest) = fields(given)?;
    let (list, row) = fields(rest)?;
    let (list, row) = (list_named(list), number(row) as usize);
    let fault = match name {
        "BadName" => CatalogueError::BadName(list, row),
        "OperatorName" => CatalogueError::OperatorName(list, row),
        "NotAscending" => CatalogueError::NotAscending(list, row),
        "BadIndex" => CatalogueError::BadIndex(list, row),
        "TwoSuffixes" => CatalogueError::TwoSuffixes(row),
        "EmptyPrefix" => CatalogueError::EmptyPrefix(row),
        "UnlistedTarget" => CatalogueError::UnlistedTarget(row),
        _ => return Err(NoAnswer::Row),
    };
    Ok(format!(in alloc; "{fault}")?)
}
