// The tables of a catalogue, before their rows are checked.

ghost use Rattle.std.specs.Prelude.{◌≡◌, Ok, Err, IfOk, IfErr, option_map, string_bytes};
ghost use Rattle.std.specs.Result.{result_map_both};
ghost use Rattle.serde_json.specs.View.{view};
ghost use Rattle.spdx_requirement.specs.Failures.{IfRefused};
ghost use Rattle.spdx_tables.specs.Shape as shape;
ghost use Rattle.spdx_tables.specs.declared.error.TableFault.TheVariants.{Shape};
ghost use Rattle.spdx_tables.specs.TableReading.{date_in, rows_of, tables_in};

use crate::error::{Field, TableFault};
use crate::table_row::rows_at;
use crate::values::{has_float, text_at, value_of};
use crate::written::written_tables;
use serde_json::Value;
use spdx_requirement::failure::Failure;
use spdx_requirement::row::{Exception, ImpreciseName, License};
use std::alloc::{AllocError, Global};

/// The tables that the JSON of a catalogue holds.
#[derive(Drop)]
pub struct Tables {
    /// The version of the licence list.
    pub version: String,
    /// The licences.
    pub licenses: Vec<License>,
    /// The exceptions.
    pub exceptions: Vec<Exception>,
    /// Other spellings of licences' names.
    pub imprecise: Vec<ImpreciseName>,
}

impl Tables {
    /// Reads tables from JSON: an object with the keys `version` (a string), `licenses` (objects
    /// with the strings `name` and `full_name`, and `flags`, a whole number to 255), `exceptions`
    /// (objects with `name` and `flags`) and `imprecise` (objects with the strings `prefix` and
    /// `name`). Other keys are ignored; of a key that stands twice the last value counts; a row's
    /// index is its position.
    ///
    /// # Errors
    ///
    /// The first `TableFault` that applies, or that memory was refused.
    pub fn from_json(alloc: Global, bytes: &[u8]) -> Result<Tables, Failure<TableFault>>
        ensures ok { IfOk result (λ t. tables_in bytes.now ≡ Ok (rows_of t)) }
        ensures err { IfErr result (IfRefused (λ f. tables_in bytes.now ≡ Err f)) }
    {
        if let Some(tables) = written_tables(alloc, bytes)? {
            return Ok(tables);
        }
        let value = value_of(alloc, bytes)?;
        if has_float(&value) {
            return Err(Failure::Refused(TableFault::Float));
        }
        from_value(alloc, &value)
    }
}

/// The date of the version, which stands at the key `version_date`; none where the bytes are no JSON, or have no such text. It
/// reads all of the bytes.
pub fn version_date(alloc: Global, bytes: &[u8]) -> Result<Option<String>, AllocError>
    ensures { IfOk result (λ date. option_map string_bytes date ≡ date_in bytes.now) }
{
    let value = match value_of(alloc, bytes) {
        Ok(value) => value,
        Err(Failure::Refused(_)) => return Ok(None),
        Err(Failure::Memory(error)) => return Err(error),
    };
    match text_at(&value, "version_date") {
        Some(date) => Ok(Some(String::from_str(alloc, date)?)),
        None => Ok(None),
    }
}

// The tables that a value without floats holds.
fn from_value(alloc: Global, value: &Value) -> Result<Tables, Failure<TableFault>>
    ensures ok { IfOk result (λ t. shape.tables (view value.now) ≡ Ok (rows_of t)) }
    ensures err { IfErr result (IfRefused (λ f.
        result_map_both (λ rows. rows) Shape (shape.tables (view value.now)) ≡ Err f)) }
{
    let Some(version) = text_at(value, "version") else {
        return Err(Failure::Refused(TableFault::Shape(Field::Version)));
    };
    let Some(licenses) = rows_at(alloc, value, "licenses")? else {
        return Err(Failure::Refused(TableFault::Shape(Field::Licenses)));
    };
    let Some(exceptions) = rows_at(alloc, value, "exceptions")? else {
        return Err(Failure::Refused(TableFault::Shape(Field::Exceptions)));
    };
    let Some(imprecise) = rows_at(alloc, value, "imprecise")? else {
        return Err(Failure::Refused(TableFault::Shape(Field::Imprecise)));
    };
    Ok(Tables {
        version: String::from_str(alloc, version)?,
        licenses,
        exceptions,
        imprecise,
    })
}
