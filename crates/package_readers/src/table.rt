// Packages in records: values with commas or tabs between them.

ghost use Rattle.std.specs.Prelude.{◌≡◌, suc, Ok, Err, IfOk, IfErr, map, option_map, string_bytes};
ghost use Rattle.std.specs.List.{list_all, position_from};
ghost use Rattle.std.specs.Vec.Iter.{into_iter_items};
ghost use Rattle.csv.specs.Records.{fields_of};
ghost use Rattle.package_items.specs.Rows.{Says, license_of, row_of};
ghost use Rattle.package_items.specs.Texts.{is_blank as blank};
ghost use Rattle.package_readers.specs.Lines.{trimmed as spec_trimmed};
ghost use Rattle.package_readers.specs.Tables as spec;

use crate::lines::trimmed;
use crate::separated::{Separator, is_open, records_of, values_of};
use csv::ByteRecord;
use package_items::{License, Package, SourceError, SourceFault, Spot, is_blank, license_in};
use std::alloc::{AllocError, Global};
use std::vec::IntoIter;

/// Which columns are read, counted from 0.
#[derive(Clone, Copy)]
pub(crate) struct Columns {
    pub name: usize,
    pub version: Option<usize>,
    pub license: usize,
}

fn text_in(number: usize, value: &[u8]) -> Result<&str, SourceError>
    ensures ok { IfOk result (λ t. spec.text_in number value.now ≡ Ok t.now) }
    ensures err { IfErr result (Says (λ f. spec.text_in number value.now ≡ Err f)) }
{
    match std::str::from_utf8(value) {
        Ok(text) => Ok(text),
        Err(_) => Err(SourceError::Refused(SourceFault::RecordNotUtf8(number))),
    }
}

// The text in a column.
#[tactic(auto, using(crate::proofs::Tables::value_at))]
fn text_at<'v>(number: usize, values: &[&'v [u8]], column: usize) -> Result<&'v str, SourceError>
    ensures ok { IfOk result (λ t.
        spec.text_at number (map (λ x. x.now) values.now) column ≡ Ok t.now) }
    ensures err { IfErr result (Says (λ f.
        spec.text_at number (map (λ x. x.now) values.now) column ≡ Err f)) }
{
    match values.get(column) {
        Some(value) => text_in(number, value),
        None => Err(SourceError::Refused(SourceFault::TooFewColumns(number))),
    }
}

// A text without the white space at its ends, if it isn't blank.
fn told(alloc: Global, text: &str) -> Result<Option<String>, AllocError>
    ensures { IfOk result (λ c. option_map string_bytes c ≡ spec.told text.now) }
{
    if is_blank(text.as_bytes()) {
        return Ok(None);
    }
    Ok(Some(String::from_str(alloc, trimmed(text))?))
}

fn told_at(
    alloc: Global,
    number: usize,
    values: &[&[u8]],
    column: Option<usize>,
) -> Result<Option<String>, SourceError>
    ensures ok { IfOk result (λ c. spec.told_at number (map (λ x. x.now) values.now) column
        ≡ Ok (option_map string_bytes c)) }
    ensures err { IfErr result (Says (λ f.
        spec.told_at number (map (λ x. x.now) values.now) column ≡ Err f)) }
{
    match column {
        None => Ok(None),
        Some(column) => Ok(told(alloc, text_at(number, values, column)?)?),
    }
}

// The package of a record, with this name, version and license.
fn in_record(
    alloc: Global,
    number: usize,
    name: String,
    version: Option<String>,
    license: License,
) -> Package
    ensures { row_of result ≡ spec.in_record_of number (string_bytes name)
        (option_map string_bytes version) (license_of license) }
{
    Package {
        name,
        version,
        license,
        folder: None,
        license_files: Vec::new(alloc),
        evidence: 0,
        is_own: false,
        spot: Spot::Record(number),
    }
}

// The package of what stands in the columns.
fn package_at(
    alloc: Global,
    number: usize,
    values: &[&[u8]],
    columns: Columns,
) -> Result<Package, SourceError>
    ensures ok { IfOk result (λ p.
        spec.package_at number (map (λ x. x.now) values.now) columns ≡ Ok (row_of p)) }
    ensures err { IfErr result (Says (λ f.
        spec.package_at number (map (λ x. x.now) values.now) columns ≡ Err f)) }
{
    let name = text_at(number, values, columns.name)?;
    let version = told_at(alloc, number, values, columns.version)?;
    let license = text_at(number, values, columns.license)?;
    let Some(name) = told(alloc, name)? else {
        return Err(SourceError::Refused(SourceFault::NoName(number)));
    };
    let license = license_in(alloc, trimmed(license))?;
    Ok(in_record(alloc, number, name, version, license))
}

// The columns of a record: those that the header names, if there is one.
fn columns_in(
    named: Option<Columns>,
    number: usize,
    values: &[&[u8]],
) -> Result<Columns, SourceError>
    ensures ok { IfOk result (λ c.
        spec.columns_in named number (map (λ x. x.now) values.now) ≡ Ok c) }
    ensures err { IfErr result (Says (λ f.
        spec.columns_in named number (map (λ x. x.now) values.now) ≡ Err f)) }
{
    if let Some(columns) = named {
        return Ok(columns);
    }
    let (version, license) = match values {
        [_, _] => (None, 1),
        [_, _, _] => (Some(1), 2),
        _ => return Err(SourceError::Refused(SourceFault::NotColumns(number, values.len()))),
    };
    Ok(Columns {
        name: 0,
        version,
        license,
    })
}

fn package_of(
    alloc: Global,
    named: Option<Columns>,
    number: usize,
    values: &[&[u8]],
) -> Result<Package, SourceError>
    ensures ok { IfOk result (λ p.
        spec.package_of named number (map (λ x. x.now) values.now) ≡ Ok (row_of p)) }
    ensures err { IfErr result (Says (λ f.
        spec.package_of named number (map (λ x. x.now) values.now) ≡ Err f)) }
{
    package_at(alloc, number, values, columns_in(named, number, values)?)
}

fn bare(value: &[u8]) -> &[u8]
    ensures { result.now ≡ spec_trimmed value.now }
{
    value.trim_ascii()
}

fn is_word(word: &str, value: &[u8]) -> bool
    ensures { result ≡ spec.is_word word.now value.now }
{
    bare(value).eq_ignore_ascii_case(word.as_bytes())
}

// The first column that is named by the word.
fn column_of(word: &str, names: &[&[u8]]) -> Option<usize>
    ensures { result ≡ position_from (spec.is_word word.now) 0 (map (λ x. x.now) names.now) }
{
    for (index, name) in names.iter().enumerate() {
        if is_word(word, name) {
            return Some(index);
        }
    }
    None
}

// The first column that is named by one of the words, an earlier word first.
fn first_column(words: &[&str], names: &[&[u8]]) -> Option<usize>
    ensures { result ≡ spec.first_column (map (λ x. x.now) words.now)
        (map (λ x. x.now) names.now) }
{
    for word in words {
        if let Some(column) = column_of(word, names) {
            return Some(column);
        }
    }
    None
}

fn name_column(names: &[&[u8]]) -> Option<usize>
    ensures { result ≡ spec.first_column spec.name_words (map (λ x. x.now) names.now) }
{
    first_column(&["name", "module name", "package", "component"], names)
}

fn version_column(names: &[&[u8]]) -> Option<usize>
    ensures { result ≡ spec.first_column spec.version_words (map (λ x. x.now) names.now) }
{
    first_column(&["version"], names)
}

fn license_column(names: &[&[u8]]) -> Option<usize>
    ensures { result ≡ spec.first_column spec.license_words (map (λ x. x.now) names.now) }
{
    let words = [
        "license",
        "licence",
        "licenses",
        "license expression",
        "license-expression",
        "spdx",
    ];
    first_column(&words, names)
}

// The columns that a header names.
fn columns_named(names: &[&[u8]]) -> Result<Columns, SourceError>
    ensures ok { IfOk result (λ c.
        spec.columns_named (map (λ x. x.now) names.now) ≡ Ok c) }
    ensures err { IfErr result (Says (λ f.
        spec.columns_named (map (λ x. x.now) names.now) ≡ Err f)) }
{
    let Some(name) = name_column(names) else {
        return Err(SourceError::Refused(SourceFault::NoNameColumn));
    };
    let Some(license) = license_column(names) else {
        return Err(SourceError::Refused(SourceFault::NoLicenseColumn));
    };
    Ok(Columns {
        name,
        version: version_column(names),
        license,
    })
}

// Whether all of the values are blank.
fn are_blank(values: &[&[u8]]) -> bool
    ensures { result ≡ list_all blank (map (λ x. x.now) values.now) }
{
    for value in values {
        if !is_blank(value) {
            return false;
        }
    }
    true
}

// The number of the first record that may be a package.
fn first_number(named: Option<Columns>) -> usize
    ensures { result ≡ spec.first_number named }
{
    if named.is_some() { 2 } else { 1 }
}

// The packages of the records that aren't blank. Each record is let go once it is read, so that not all of them stand beside
// the packages.
fn packages_of(
    alloc: Global,
    named: Option<Columns>,
    records: IntoIter<ByteRecord, Global>,
) -> Result<Vec<Package>, SourceError>
    ensures ok { IfOk result (λ ps.
        spec.packages_of named (map fields_of (into_iter_items records))
        ≡ Ok (map row_of ps.items)) }
    ensures err { IfErr result (Says (λ f.
        spec.packages_of named (map fields_of (into_iter_items records)) ≡ Err f)) }
{
    let mut number = first_number(named);
    let mut packages = Vec::new(alloc);
    for row in records {
        let values = values_of(alloc, &row)?;
        if !are_blank(values.as_slice()) {
            packages.push(package_of(alloc, named, number, values.as_slice())?)?;
        }
        number = behind(number)?;
    }
    Ok(packages)
}

// The next number. So many records that there is none don't fit into memory.
fn behind(number: usize) -> Result<usize, AllocError>
    ensures { IfOk result (λ next. next ≡ suc number) }
{
    match number.checked_add(1) {
        Some(next) => Ok(next),
        None => Err(AllocError),
    }
}

// The packages behind a header.
fn packages_behind(
    alloc: Global,
    mut records: IntoIter<ByteRecord, Global>,
) -> Result<Vec<Package>, SourceError>
    ensures ok { IfOk result (λ ps.
        spec.packages_behind (map fields_of (into_iter_items records))
        ≡ Ok (map row_of ps.items)) }
    ensures err { IfErr result (Says (λ f.
        spec.packages_behind (map fields_of (into_iter_items records)) ≡ Err f)) }
{
    let Some(header) = records.next() else {
        return Err(SourceError::Refused(SourceFault::NoNameColumn));
    };
    let names = values_of(alloc, &header)?;
    let columns = columns_named(names.as_slice())?;
    packages_of(alloc, Some(columns), records)
}

/// The packages of records, of each that isn't blank, in their order. Without a header a record has two or three values: a
/// name, a version that may be left out, and a license. A header is the first record, and names the columns: those of other
/// names are passed over.
///
/// # Errors
///
/// That a quote is not closed, that the header lacks a column, else the first record that is no package; or that memory was
/// refused.
pub fn packages_in_table(
    alloc: Global,
    separator: Separator,
    header: bool,
    bytes: &[u8],
) -> Result<Vec<Package>, SourceError>
    ensures ok { IfOk result (λ ps.
        spec.packages_in_table separator header bytes.now ≡ Ok (map row_of ps.items)) }
    ensures err { IfErr result (Says (λ f.
        spec.packages_in_table separator header bytes.now ≡ Err f)) }
{
    if is_open(separator, bytes) {
        return Err(SourceError::Refused(SourceFault::OpenQuote));
    }
    let records = records_of(alloc, separator, bytes)?;
    if header {
        return packages_behind(alloc, records.into_iter());
    }
    packages_of(alloc, None, records.into_iter())
}
