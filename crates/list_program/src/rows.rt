// Rows, a line each.

ghost use Rattle.std.specs.Prelude.{◌≡◌, ℕ, List, Option, IfOk, map, option_map};
ghost use Rattle.std.specs.Str.Lines.{lines, strip_carriage_return};
ghost use Rattle.spdx_requirement.specs.Rows.{LicenseRow, ExceptionRow, ImpreciseRow, row_of, exception_of, imprecise_of};
ghost use Rattle.list_program.specs.Lines as spec;
ghost use Rattle.list_program.specs.Rows.{IsPut};

use crate::cells::{at_tab, flags_in};
use memchr::memchr;
use spdx_requirement::row::{Exception, ImpreciseName, License};
use std::alloc::{AllocError, Global};

// Few lines are shorter on average.
const SHORT: usize = 32;

/// A row that is written as a line.
pub(crate) trait LineRow: Drop {
    ghost Shown: { Type 0 };

    ghost shown: { Self → Shown };

    ghost row_at: { ℕ → List ℕ → Option Shown };

    /// The row that the line is, at its index.
    fn read(alloc: Global, line: &str, index: usize) -> Result<Option<Self>, AllocError>
        ensures { IfOk result (λ o. option_map shown o ≡ row_at index line.now) };
}

impl LineRow for License {
    ghost Shown = { LicenseRow };

    ghost shown = { row_of };

    ghost row_at = { spec.license_line };

    fn read(alloc: Global, line: &str, index: usize) -> Result<Option<License>, AllocError> {
        let Some((flags, names)) = at_tab(line) else {
            return Ok(None);
        };
        let Some((name, full_name)) = at_tab(names) else {
            return Ok(None);
        };
        let Some(flags) = flags_in(flags) else {
            return Ok(None);
        };
        Ok(Some(License {
            name: String::from_str(alloc, name)?,
            full_name: String::from_str(alloc, full_name)?,
            index,
            flags,
        }))
    }
}

impl LineRow for Exception {
    ghost Shown = { ExceptionRow };

    ghost shown = { exception_of };

    ghost row_at = { spec.exception_line };

    fn read(alloc: Global, line: &str, index: usize) -> Result<Option<Exception>, AllocError> {
        let Some((flags, name)) = at_tab(line) else {
            return Ok(None);
        };
        let Some(flags) = flags_in(flags) else {
            return Ok(None);
        };
        Ok(Some(Exception {
            name: String::from_str(alloc, name)?,
            index,
            flags,
        }))
    }
}

impl LineRow for ImpreciseName {
    ghost Shown = { ImpreciseRow };

    ghost shown = { imprecise_of };

    ghost row_at = { spec.imprecise_line };

    fn read(alloc: Global, line: &str, _index: usize) -> Result<Option<ImpreciseName>, AllocError> {
        let Some((prefix, name)) = at_tab(line) else {
            return Ok(None);
        };
        Ok(Some(ImpreciseName {
            prefix: String::from_str(alloc, prefix)?,
            name: String::from_str(alloc, name)?,
        }))
    }
}

/// The rows of a text, if each of its lines is one. Each newline is found by a quick search.
pub(crate) fn rows_of<R: LineRow>(alloc: Global, text: &str) -> Result<Option<Vec<R>>, AllocError>
    ensures { IfOk result (λ o. option_map (λ v. map R.shown v.items) o
        ≡ spec.rows_from R.row_at 0 (lines text.now)) }
{
    let mut rows = Vec::with_capacity(alloc, text.len() / SHORT)?;
    let mut rest = text;
    while let Some(end) = memchr(b'\n', rest.as_bytes()) {
        if !put_row(alloc, &mut rows, without_return(&rest[..end]))? {
            return Ok(None);
        }
        rest = &rest[end + 1..];
    }
    if rest.is_empty() {
        return Ok(Some(rows));
    }
    if !put_row(alloc, &mut rows, rest)? {
        return Ok(None);
    }
    Ok(Some(rows))
}

// Puts the row that a line is behind the others, and says whether it is one.
fn put_row<R: LineRow>(alloc: Global, rows: &mut Vec<R>, line: &str) -> Result<bool, AllocError>
    ensures { IfOk result (λ is_row.
        IsPut R.shown R.row_at line.now rows.old.items rows.new.items is_row) }
{
    match R::read(alloc, line, rows.len())? {
        Some(row) => {
            rows.push(row)?;
            Ok(true)
        }
        None => Ok(false),
    }
}

// A line whose newline was taken off, without the carriage return before that.
fn without_return(line: &str) -> &str
    ensures { result.now ≡ strip_carriage_return line.now }
{
    let len = line.len();
    if len > 0 && line.as_bytes()[len - 1] == b'\r' {
        &line[..len - 1]
    } else {
        line
    }
}
