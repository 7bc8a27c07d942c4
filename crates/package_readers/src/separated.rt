// Records of values, with commas or tabs between them.

ghost use Rattle.std.specs.Prelude.{◌≡◌, IfOk, map};
ghost use Rattle.csv.specs.Records.{fields_of};
ghost use Rattle.package_readers.specs.Separated as spec;

use csv::{ByteRecord, ReaderBuilder};
use std::alloc::{AllocError, Global};

/// What stands between the values of a record.
#[derive(Clone, Copy)]
pub enum Separator {
    Comma,
    Tab,
}

// Where a byte stands, behind those before it.
#[derive(Clone, Copy)]
pub(crate) enum Place {
    /// At the start of a value.
    Start,
    /// In a value that stands as it is.
    Plain,
    /// In a value in quotes.
    Quoted,
    /// Behind a quote that closes a value, or is the first of two.
    Closed,
}

fn separator_byte(separator: Separator) -> u8
    ensures { result ≡ spec.separator_byte separator }
{
    match separator {
        Separator::Comma => b',',
        Separator::Tab => b'\t',
    }
}

// Whether the byte ends a value that no quotes keep together.
fn is_end(separator: Separator, byte: u8) -> bool
    ensures { result ≡ spec.is_end separator byte }
{
    byte == separator_byte(separator) || byte == b'\r' || byte == b'\n'
}

// The place behind one more byte.
fn behind(separator: Separator, place: Place, byte: u8) -> Place
    ensures { result ≡ spec.behind separator place byte }
{
    match place {
        Place::Quoted if byte == b'"' => Place::Closed,
        Place::Quoted => Place::Quoted,
        _ if is_end(separator, byte) => Place::Start,
        Place::Plain => Place::Plain,
        Place::Start | Place::Closed if byte == b'"' => Place::Quoted,
        _ => Place::Plain,
    }
}

/// Whether a value in quotes goes on to the end of the bytes.
pub(crate) fn is_open(separator: Separator, bytes: &[u8]) -> bool
    ensures { result ≡ spec.is_open separator bytes.now }
{
    let mut place = Place::Start;
    for byte in bytes {
        place = behind(separator, place, *byte);
    }
    matches!(place, Place::Quoted)
}

/// Every record of the bytes. Bytes in memory are read without a fault but for want of memory.
pub(crate) fn records_of(
    alloc: Global,
    separator: Separator,
    bytes: &[u8],
) -> Result<Vec<ByteRecord>, AllocError>
    ensures { IfOk result (λ v. map fields_of v.items ≡ spec.records_of separator bytes.now) }
{
    let reader = ReaderBuilder::new()
        .delimiter(separator_byte(separator))
        .has_headers(false)
        .flexible(true)
        .from_reader(alloc, bytes);
    let mut records = Vec::new(alloc);
    for row in reader.into_byte_records() {
        match row {
            Ok(row) => records.push(row)?,
            Err(_) => return Err(AllocError),
        }
    }
    Ok(records)
}

/// The values of a record.
pub(crate) fn values_of<'r>(alloc: Global, row: &'r ByteRecord) -> Result<Vec<&'r [u8]>, AllocError>
    ensures { IfOk result (λ v. map (λ x. x.now) v.items ≡ fields_of row.now) }
{
    let mut values = Vec::new(alloc);
    for index in 0..row.len() {
        if let Some(value) = row.get(index) {
            values.push(value)?;
        }
    }
    Ok(values)
}
