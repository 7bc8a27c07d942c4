// Tables in the form that `spdx list make` writes, read with no tree of values.

ghost use Rattle.std.specs.Prelude.{◌≡◌, ◌++◌, Ok, IfOk, IfSome};
ghost use Rattle.std.specs.Option.{option_copied};
ghost use Rattle.spdx_tables.specs.Places.{renumbered};
ghost use Rattle.spdx_tables.specs.TableReading.{rows_of, tables_in};
ghost use Rattle.spdx_tables.specs.Written.{tables_data, data_tokens, Fit};

use crate::table_row::take_rows;
use crate::tables::Tables;
use crate::take::{OtherForm, take_begin_object, take_date, take_text};
use json::{Reader, Scratch};
use spdx_requirement::failure::Failure;
use std::alloc::{AllocError, Global};
use std::str;

// Tables, with the date of their version if it is written.
#[derive(Drop)]
struct Dated<'t> {
    tables: Tables,
    date: Option<&'t str>,
}

fn take_tables<'t>(alloc: Global, reader: &mut Reader<'t>) -> Result<Dated<'t>, Failure<OtherForm>>
    ensures tokens { IfOk result (λ d. reader.old
        ≡ data_tokens (tables_data (rows_of d.tables) (option_copied d.date)) ++ reader.new) }
    ensures fit { IfOk result (λ d. Fit (rows_of d.tables)) }
    ensures numbered { IfOk result (λ d. renumbered (rows_of d.tables) ≡ rows_of d.tables) }
{
    take_begin_object(reader)?;
    let exceptions = take_rows(alloc, reader, "exceptions")?;
    let imprecise = take_rows(alloc, reader, "imprecise")?;
    let licenses = take_rows(alloc, reader, "licenses")?;
    let version = take_text(reader, "version")?;
    let date = take_date(reader)?;
    Ok(Dated {
        tables: Tables {
            version: String::from_str(alloc, version)?,
            licenses,
            exceptions,
            imprecise,
        },
        date,
    })
}

/// The tables of a text that has the members of each object in the order of their keys, each once,
/// and no others. None says nothing of the text.
pub(crate) fn written_tables(alloc: Global, bytes: &[u8]) -> Result<Option<Tables>, AllocError>
    ensures { IfOk result (λ o. IfSome o (λ t. tables_in bytes.now ≡ Ok (rows_of t))) }
{
    let Ok(text) = str::from_utf8(bytes) else {
        return Ok(None);
    };
    let mut scratch = Scratch::new(alloc);
    let mut reader = Reader::new(text, &mut scratch)?;
    let tables = match take_tables(alloc, &mut reader) {
        Ok(dated) => dated.tables,
        Err(Failure::Refused(OtherForm)) => return Ok(None),
        Err(Failure::Memory(error)) => return Err(error),
    };
    match reader.next() {
        Some(_) => Ok(None),
        None => Ok(Some(tables)),
    }
}
