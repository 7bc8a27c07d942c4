// Why a file gives no packages.

ghost use Rattle.std.specs.Prelude.{Some};
ghost use Rattle.std.specs.Fmt.{WritesOnOk};
ghost use Rattle.package_items.specs.Faults.{count_text, error_text, fault_text, found_text, in_record, needed_text, no_object_text, no_text_text, place_text, shown, shown_char, with_text};

use foreign_text::is_hidden;
use std::alloc::{AllocError, AllocFailed};
use std::fmt;

/// What stands in a document where something else is needed.
#[derive(Clone, Copy, Debug, PartialEq, Eq, Drop)]
pub enum Found {
    Nothing,
    Null,
    Bool,
    Number,
    Text,
    List,
    Object,
}

/// What is wrong in a file, and where: places in a JSON document are JSON pointers, lines and records are counted from 1.
#[derive(Debug, PartialEq, Eq, Drop)]
pub enum SourceFault {
    /// The file is no UTF-8, is no one JSON value, or nests deeper than 127: at this line and column, in bytes.
    NotJson(usize, usize),
    /// What was given as a JSON pointer is none.
    NotPointer(String),
    /// A list is needed at this place.
    NotList(String, Found),
    /// An object is needed at this place.
    NotObject(String, Found),
    /// A text is needed at this place.
    NotText(String, Found),
    /// The item at this place is in more items than may nest.
    TooDeep(String),
    /// The line is no UTF-8.
    NotUtf8(usize),
    /// The line is no one JSON value, or nests deeper than 127.
    LineNotJson(usize),
    /// An object is needed on the line.
    LineNotObject(usize, Found),
    /// A text is needed on the line, at this place in its object.
    LineNotText(usize, String, Found),
    /// No line is the field of that name.
    NoField(String),
    /// The number of quotes is odd, so one of them is never closed.
    OpenQuote,
    /// No column is named as the column of the names is.
    NoNameColumn,
    /// No column is named as the column of the licenses is.
    NoLicenseColumn,
    /// What is read of the record is no UTF-8.
    RecordNotUtf8(usize),
    /// The record has that many columns, and no two or three.
    NotColumns(usize, usize),
    /// The record lacks a column that the header names.
    TooFewColumns(usize),
    /// The record names no package.
    NoName(usize),
    /// The file is of no form that is known.
    NoForm,
}

/// Why a file gives no packages.
#[derive(Debug, PartialEq, Eq, Drop)]
pub enum SourceError {
    /// The file is refused.
    Refused(SourceFault),
    /// Memory was refused.
    NoMemory,
}

impl From<AllocError> for SourceError {
    ghost use Rattle.std.specs.Prelude.{◌≡◌};
    ghost use Rattle.package_items.specs.declared.error.SourceError.TheVariants.{NoMemory};

    ghost from_gives = { λ _ e. e ≡ NoMemory };

    fn from(_error: AllocError) -> SourceError {
        SourceError::NoMemory
    }
}

impl<T: Drop> From<AllocFailed<T>> for SourceError {
    ghost use Rattle.std.specs.Prelude.{◌≡◌};
    ghost use Rattle.package_items.specs.declared.error.SourceError.TheVariants.{NoMemory};

    ghost from_gives = { λ _ e. e ≡ NoMemory };

    fn from(_failed: AllocFailed<T>) -> SourceError {
        SourceError::NoMemory
    }
}

impl fmt::Display for Found {
    ghost output = { λ f. Some (found_text f) };

    fn fmt<W: fmt::Write>(&self, f: &mut fmt::Formatter<W>) -> fmt::Result {
        match self {
            Found::Nothing => write!(f, "nothing there"),
            Found::Null => write!(f, "null"),
            Found::Bool => write!(f, "true or false"),
            Found::Number => write!(f, "a number"),
            Found::Text => write!(f, "a text"),
            Found::List => write!(f, "a list"),
            Found::Object => write!(f, "an object"),
        }
    }
}

// Appends a character; one that a terminal would obey or not show is named by its number, as `\u{1b}`.
fn put_shown_char<W: fmt::Write>(f: &mut fmt::Formatter<W>, letter: char) -> fmt::Result
    ensures { WritesOnOk W.write_str_gives f.old result (shown_char letter) f.new }
{
    if is_hidden(letter) {
        write!(f, "\\u{{{:x}}}", u32::from(letter))
    } else {
        write!(f, "{letter}")
    }
}

fn put_shown<W: fmt::Write>(f: &mut fmt::Formatter<W>, text: &str) -> fmt::Result
    ensures { WritesOnOk W.write_str_gives f.old result (shown text.now) f.new }
{
    for letter in text.chars() {
        put_shown_char(f, letter)?;
    }
    Ok(())
}

fn put_place<W: fmt::Write>(f: &mut fmt::Formatter<W>, at: &str) -> fmt::Result
    ensures { WritesOnOk W.write_str_gives f.old result (place_text at.now) f.new }
{
    if at.is_empty() {
        return write!(f, "the whole document");
    }
    put_shown(f, at)
}

// Appends what is needed at a place, and what is found there.
fn put_at<W: fmt::Write>(
    f: &mut fmt::Formatter<W>,
    needed: &str,
    at: &str,
    found: &Found,
) -> fmt::Result
    ensures { WritesOnOk W.write_str_gives f.old result (needed_text needed.now at.now found.now) f.new }
{
    write!(f, "{needed} at ")?;
    put_place(f, at)?;
    write!(f, ": {found}")
}

// Appends a word for what is wrong, and the text of others that it is wrong with.
fn put_with<W: fmt::Write>(f: &mut fmt::Formatter<W>, wrong: &str, text: &str) -> fmt::Result
    ensures { WritesOnOk W.write_str_gives f.old result (with_text wrong.now text.now) f.new }
{
    write!(f, "{wrong} ")?;
    put_shown(f, text)
}

// Appends that an object is needed on a line.
fn put_on_line<W: fmt::Write>(f: &mut fmt::Formatter<W>, line: usize, found: &Found) -> fmt::Result
    ensures { WritesOnOk W.write_str_gives f.old result (no_object_text line found.now) f.new }
{
    write!(f, "line {line}: not an object: {found}")
}

// Appends that a text is needed at a place on a line.
fn put_at_on_line<W: fmt::Write>(
    f: &mut fmt::Formatter<W>,
    line: usize,
    at: &str,
    found: &Found,
) -> fmt::Result
    ensures { WritesOnOk W.write_str_gives f.old result (no_text_text line at.now found.now) f.new }
{
    write!(f, "line {line}: ")?;
    put_at(f, "not a text", at, found)
}

fn put_in_record<W: fmt::Write>(
    f: &mut fmt::Formatter<W>,
    number: usize,
    wrong: &str,
) -> fmt::Result
    ensures { WritesOnOk W.write_str_gives f.old result (in_record number wrong.now) f.new }
{
    write!(f, "record {number}: {wrong}")
}

// Appends that a record has that many columns.
fn put_count<W: fmt::Write>(f: &mut fmt::Formatter<W>, number: usize, count: usize) -> fmt::Result
    ensures { WritesOnOk W.write_str_gives f.old result (count_text number count) f.new }
{
    if count == 1 {
        return put_in_record(f, number, "one column, and not two or three");
    }
    write!(f, "record {number}: {count} columns, and not two or three")
}

impl fmt::Display for SourceFault {
    ghost output = { λ e. Some (fault_text e) };

    fn fmt<W: fmt::Write>(&self, f: &mut fmt::Formatter<W>) -> fmt::Result {
        match self {
            SourceFault::NotJson(line, column) => {
                write!(f, "not JSON: line {line}, column {column}")
            }
            SourceFault::NotPointer(text) => put_with(f, "not a JSON pointer:", text.as_str()),
            SourceFault::NotList(at, found) => put_at(f, "not a list", at.as_str(), found),
            SourceFault::NotText(at, found) => put_at(f, "not a text", at.as_str(), found),
            SourceFault::NotObject(at, found) => put_at(f, "not an object", at.as_str(), found),
            SourceFault::TooDeep(at) => put_with(f, "nested too deep at", at.as_str()),
            SourceFault::NotUtf8(line) => write!(f, "line {line}: not UTF-8"),
            SourceFault::LineNotJson(line) => write!(f, "line {line}: not JSON"),
            SourceFault::LineNotObject(line, found) => put_on_line(f, *line, found),
            SourceFault::LineNotText(line, at, found) => {
                put_at_on_line(f, *line, at.as_str(), found)
            }
            SourceFault::NoField(name) => put_with(f, "no line", name.as_str()),
            SourceFault::OpenQuote => write!(f, "a quote is not closed"),
            SourceFault::NoNameColumn => {
                write!(f, "no column name, module name, package or component")
            }
            SourceFault::NoLicenseColumn => write!(
                f,
                "no column license, licence, licenses, license expression or spdx"
            ),
            SourceFault::RecordNotUtf8(number) => put_in_record(f, *number, "not UTF-8"),
            SourceFault::NotColumns(number, count) => put_count(f, *number, *count),
            SourceFault::TooFewColumns(number) => put_in_record(f, *number, "too few columns"),
            SourceFault::NoName(number) => put_in_record(f, *number, "no name"),
            SourceFault::NoForm => write!(f, "of no form that is known"),
        }
    }
}

impl fmt::Display for SourceError {
    ghost output = { λ e. Some (error_text e) };

    fn fmt<W: fmt::Write>(&self, f: &mut fmt::Formatter<W>) -> fmt::Result {
        match self {
            SourceError::Refused(fault) => write!(f, "{fault}"),
            SourceError::NoMemory => write!(f, "out of memory"),
        }
    }
}
