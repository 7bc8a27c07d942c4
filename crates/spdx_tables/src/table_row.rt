// Rows of tables, each an item of a JSON array.

ghost use Rattle.std.specs.Prelude.{◌≡◌, ◌<◌, ◌∷◌, ◌++◌, ℕ, Bool, true, Option, IfOk, OnOk, option_map, map, length};
ghost use Rattle.std.specs.List.{list_all};
ghost use Rattle.json.specs.Token.{key as key_token};
ghost use Rattle.serde_json.specs.Data.{Data};
ghost use Rattle.serde_json.specs.View.{view, items_view};
ghost use Rattle.spdx_requirement.specs.Rows.{LicenseRow, ExceptionRow, ImpreciseRow, row_of, exception_of, imprecise_of};
ghost use Rattle.spdx_tables.specs.Shape as shape;
ghost use Rattle.spdx_tables.specs.Places.{license_at, exception_at, imprecise_at, numbered};
ghost use Rattle.spdx_tables.specs.Written.{license_data, exception_data, imprecise_data, rows_data, license_fits, exception_fits, imprecise_fits, data_tokens};

use crate::take::{
    OtherForm, take_begin_array, take_begin_object, take_byte, take_end_object, take_text,
};
use crate::values::{byte_at, items_at, text_at};
use json::Reader;
use serde_json::Value;
use spdx_requirement::failure::Failure;
use spdx_requirement::row::{Exception, ImpreciseName, License};
use std::alloc::{AllocError, Global};

/// A row of a table.
pub(crate) trait TableRow: Drop {
    ghost Shown: { Type 0 };

    ghost shown: { Self → Shown };

    ghost row_at: { ℕ → Data → Option Shown };

    ghost as_data: { Shown → Data };

    ghost fits: { Shown → Bool };

    ghost place: { ℕ → Shown → Shown };

    /// The row that the value is, at its index.
    fn read(alloc: Global, value: &Value, index: usize) -> Result<Option<Self>, AllocError>
        ensures { IfOk result (λ o. option_map shown o ≡ row_at index (view value.now)) };

    /// The row that is written next, at its index.
    fn take(
        alloc: Global,
        reader: &mut Reader<'_>,
        index: usize,
    ) -> Result<Self, Failure<OtherForm>>
        ensures tokens { IfOk result (λ r.
            reader.old ≡ data_tokens (as_data (shown r)) ++ reader.new) }
        ensures shorter { OnOk result (length reader.new < length reader.old) }
        ensures fit { IfOk result (λ r. fits (shown r) ≡ true) }
        ensures placed { IfOk result (λ r. place index (shown r) ≡ shown r) };
}

impl TableRow for License {
    ghost Shown = { LicenseRow };

    ghost shown = { row_of };

    ghost row_at = { shape.license_row };

    ghost as_data = { license_data };

    ghost fits = { license_fits };

    ghost place = { license_at };

    fn read(alloc: Global, value: &Value, index: usize) -> Result<Option<License>, AllocError> {
        let Some(name) = text_at(value, "name") else {
            return Ok(None);
        };
        let Some(full_name) = text_at(value, "full_name") else {
            return Ok(None);
        };
        let Some(flags) = byte_at(value, "flags") else {
            return Ok(None);
        };
        Ok(Some(License {
            name: String::from_str(alloc, name)?,
            full_name: String::from_str(alloc, full_name)?,
            index,
            flags,
        }))
    }

    fn take(
        alloc: Global,
        reader: &mut Reader<'_>,
        index: usize,
    ) -> Result<License, Failure<OtherForm>> {
        take_begin_object(reader)?;
        let flags = take_byte(reader, "flags")?;
        let full_name = take_text(reader, "full_name")?;
        let name = take_text(reader, "name")?;
        take_end_object(reader)?;
        Ok(License {
            name: String::from_str(alloc, name)?,
            full_name: String::from_str(alloc, full_name)?,
            index,
            flags,
        })
    }
}

impl TableRow for Exception {
    ghost Shown = { ExceptionRow };

    ghost shown = { exception_of };

    ghost row_at = { shape.exception_row };

    ghost as_data = { exception_data };

    ghost fits = { exception_fits };

    ghost place = { exception_at };

    fn read(alloc: Global, value: &Value, index: usize) -> Result<Option<Exception>, AllocError> {
        let Some(name) = text_at(value, "name") else {
            return Ok(None);
        };
        let Some(flags) = byte_at(value, "flags") else {
            return Ok(None);
        };
        Ok(Some(Exception {
            name: String::from_str(alloc, name)?,
            index,
            flags,
        }))
    }

    fn take(
        alloc: Global,
        reader: &mut Reader<'_>,
        index: usize,
    ) -> Result<Exception, Failure<OtherForm>> {
        take_begin_object(reader)?;
        let flags = take_byte(reader, "flags")?;
        let name = take_text(reader, "name")?;
        take_end_object(reader)?;
        Ok(Exception {
            name: String::from_str(alloc, name)?,
            index,
            flags,
        })
    }
}

impl TableRow for ImpreciseName {
    ghost Shown = { ImpreciseRow };

    ghost shown = { imprecise_of };

    ghost row_at = { shape.imprecise_row };

    ghost as_data = { imprecise_data };

    ghost fits = { imprecise_fits };

    ghost place = { imprecise_at };

    fn read(
        alloc: Global,
        value: &Value,
        _index: usize,
    ) -> Result<Option<ImpreciseName>, AllocError> {
        let Some(prefix) = text_at(value, "prefix") else {
            return Ok(None);
        };
        let Some(name) = text_at(value, "name") else {
            return Ok(None);
        };
        Ok(Some(ImpreciseName {
            prefix: String::from_str(alloc, prefix)?,
            name: String::from_str(alloc, name)?,
        }))
    }

    fn take(
        alloc: Global,
        reader: &mut Reader<'_>,
        _index: usize,
    ) -> Result<ImpreciseName, Failure<OtherForm>> {
        take_begin_object(reader)?;
        let name = take_text(reader, "name")?;
        let prefix = take_text(reader, "prefix")?;
        take_end_object(reader)?;
        Ok(ImpreciseName {
            prefix: String::from_str(alloc, prefix)?,
            name: String::from_str(alloc, name)?,
        })
    }
}

// The rows that the items are, if each of them is one.
fn rows_of<R: TableRow>(alloc: Global, items: &Vec<Value>) -> Result<Option<Vec<R>>, AllocError>
    ensures { IfOk result (λ o. option_map (λ v. map R.shown v.items) o
        ≡ shape.rows_from R.row_at 0 (items_view items.now.items)) }
{
    let mut rows = Vec::new(alloc);
    for (index, item) in items.iter().enumerate() {
        match R::read(alloc, item, index)? {
            Some(row) => rows.push(row)?,
            None => return Ok(None),
        }
    }
    Ok(Some(rows))
}

/// The rows of the array at a key.
pub(crate) fn rows_at<R: TableRow>(
    alloc: Global,
    value: &Value,
    key: &str,
) -> Result<Option<Vec<R>>, AllocError>
    ensures { IfOk result (λ o. option_map (λ v. map R.shown v.items) o
        ≡ shape.rows_at R.row_at key.now (view value.now)) }
{
    match items_at(value, key) {
        Some(items) => rows_of(alloc, items),
        None => Ok(None),
    }
}

/// The key, and the rows that are written as its array.
pub(crate) fn take_rows<R: TableRow>(
    alloc: Global,
    reader: &mut Reader<'_>,
    key: &str,
) -> Result<Vec<R>, Failure<OtherForm>>
    ensures tokens { IfOk result (λ v. reader.old ≡ key_token key.now
        ∷ data_tokens (rows_data R.as_data (map R.shown v.items)) ++ reader.new) }
    ensures fit { IfOk result (λ v. list_all R.fits (map R.shown v.items) ≡ true) }
    ensures numbered { IfOk result (λ v.
        numbered R.place 0 (map R.shown v.items) ≡ map R.shown v.items) }
{
    take_begin_array(reader, key)?;
    let mut rows: Vec<R> = Vec::new(alloc);
    while !reader.take_end_array() {
        let row = R::take(alloc, reader, rows.len())?;
        rows.push(row)?;
    }
    Ok(rows)
}
