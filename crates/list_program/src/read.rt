// The list that lines are.

ghost use Rattle.std.specs.Prelude.{◌≡◌, IfErr, IfOk, option_map, string_bytes};
ghost use Rattle.spdx_requirement.specs.Failures.{IfRefused};
ghost use Rattle.list_program.specs.Lines as spec;
ghost use Rattle.list_program.specs.Reading.{IsListOf, IsNoListOf, tables_shown};

use crate::cells::{at_feed, at_tab};
use crate::rows::rows_of;
use spdx_catalogue::{Catalogue, CatalogueError};
use spdx_requirement::failure::Failure;
use spdx_requirement::row::{Exception, ImpreciseName, License};
use std::alloc::{AllocError, Global};

/// Why lines are no list.
#[derive(Clone, Copy, PartialEq, Eq, Debug)]
pub enum LinesFault {
    /// Form feeds or tabs are missing, or flags are no single byte.
    NotLines,
    /// The rows break this rule of a catalogue first.
    Catalogue(CatalogueError),
}

fn version_in(line: &str) -> &str
    ensures { result.now ≡ spec.version_in line.now }
{
    match at_tab(line) {
        Some((version, _)) => version,
        None => line,
    }
}

/// The day on which the version of the list came out, if the text has it.
pub fn day_in_lines(alloc: Global, text: &str) -> Result<Option<String>, AllocError>
    ensures { IfOk result (λ day. option_map string_bytes day ≡ spec.day_in text.now) }
{
    let Some((version, _)) = at_feed(text) else {
        return Ok(None);
    };
    match at_tab(version) {
        Some((_, day)) => Ok(Some(String::from_str(alloc, day)?)),
        None => Ok(None),
    }
}

// The tables that lines have.
#[derive(Drop)]
struct Tables {
    version: String,
    licenses: Vec<License>,
    exceptions: Vec<Exception>,
    imprecise: Vec<ImpreciseName>,
}

fn tables_of(alloc: Global, text: &str) -> Result<Option<Tables>, AllocError>
    ensures { IfOk result (λ o. option_map tables_shown o ≡ spec.list_in text.now) }
{
    let Some((version, behind)) = at_feed(text) else {
        return Ok(None);
    };
    let Some((exceptions, behind)) = at_feed(behind) else {
        return Ok(None);
    };
    let Some((licenses, imprecise)) = at_feed(behind) else {
        return Ok(None);
    };
    let Some(exceptions) = rows_of(alloc, exceptions)? else {
        return Ok(None);
    };
    let Some(licenses) = rows_of(alloc, licenses)? else {
        return Ok(None);
    };
    let Some(imprecise) = rows_of(alloc, imprecise)? else {
        return Ok(None);
    };
    Ok(Some(Tables {
        version: String::from_str(alloc, version_in(version))?,
        licenses,
        exceptions,
        imprecise,
    }))
}

/// The catalogue that the text is, in time n log n of its rows.
///
/// # Errors
///
/// The first `LinesFault` that applies, or that memory was refused.
pub fn catalogue_in_lines(alloc: Global, text: &str) -> Result<Catalogue, Failure<LinesFault>>
    ensures ok { IfOk result (IsListOf text.now) }
    ensures err { IfErr result (IfRefused (IsNoListOf text.now)) }
{
    let Some(tables) = tables_of(alloc, text)? else {
        return Err(Failure::Refused(LinesFault::NotLines));
    };
    match Catalogue::new(
        tables.version,
        tables.licenses,
        tables.exceptions,
        tables.imprecise,
    ) {
        Ok(catalogue) => Ok(catalogue),
        Err(fault) => Err(Failure::Refused(LinesFault::Catalogue(fault))),
    }
}
