// Why files make no list.

ghost use Rattle.std.specs.Prelude.{Some};
ghost use Rattle.spdx_list.specs.Faults.{file_text, table_text, member_text, list_fault_text};

use spdx_catalogue::CatalogueError;
use std::fmt;

/// A file that a list is made of.
#[derive(Clone, Copy, Debug, PartialEq, Eq)]
pub enum File {
    /// SPDX's licences.
    Licenses,
    /// SPDX's exceptions.
    Exceptions,
    /// What this project says besides.
    Extras,
}

/// An array of these files, by its key. No two files have one of the same key.
#[derive(Clone, Copy, Debug, PartialEq, Eq)]
pub enum Table {
    Licenses,
    Exceptions,
    Copyleft,
    Imprecise,
    Instead,
}

/// What an item of an array is to have, by its key.
#[derive(Clone, Copy, Debug, PartialEq, Eq)]
pub enum Member {
    /// The item is itself a text.
    Itself,
    LicenseId,
    Name,
    FsfLibre,
    OsiApproved,
    Deprecated,
    ExceptionId,
    Prefix,
    Write,
}

/// Why files make no list: the first of these that applies, file by file.
#[derive(Clone, Copy, Debug, PartialEq, Eq)]
pub enum ListFault {
    /// The file is no UTF-8, is no one JSON value, or nests deeper than 127.
    NotJson(File),
    /// The licences have no text at `licenseListVersion`.
    NoVersion,
    /// The file has no array at the key.
    NoTable(Table),
    /// The item of that index, counted from 0, lacks that member or has it in another shape. A flag
    /// that is missing is no fault; one that is neither true nor false is.
    Item(Table, usize, Member),
    /// The rows, put in order, break a rule of a catalogue.
    Catalogue(CatalogueError),
}

impl fmt::Display for File {
    ghost output = { λ f. Some (file_text f) };

    fn fmt<W: fmt::Write>(&self, f: &mut fmt::Formatter<W>) -> fmt::Result {
        match self {
            File::Licenses => write!(f, "the licences"),
            File::Exceptions => write!(f, "the exceptions"),
            File::Extras => write!(f, "the extras"),
        }
    }
}

impl fmt::Display for Table {
    ghost output = { λ t. Some (table_text t) };

    fn fmt<W: fmt::Write>(&self, f: &mut fmt::Formatter<W>) -> fmt::Result {
        match self {
            Table::Licenses => write!(f, "licenses"),
            Table::Exceptions => write!(f, "exceptions"),
            Table::Copyleft => write!(f, "copyleft"),
            Table::Imprecise => write!(f, "imprecise"),
            Table::Instead => write!(f, "instead"),
        }
    }
}

impl fmt::Display for Member {
    ghost output = { λ m. Some (member_text m) };

    fn fmt<W: fmt::Write>(&self, f: &mut fmt::Formatter<W>) -> fmt::Result {
        match self {
            Member::Itself => write!(f, "text"),
            Member::LicenseId => write!(f, "licenseId"),
            Member::Name => write!(f, "name"),
            Member::FsfLibre => write!(f, "isFsfLibre"),
            Member::OsiApproved => write!(f, "isOsiApproved"),
            Member::Deprecated => write!(f, "isDeprecatedLicenseId"),
            Member::ExceptionId => write!(f, "licenseExceptionId"),
            Member::Prefix => write!(f, "prefix"),
            Member::Write => write!(f, "write"),
        }
    }
}

impl fmt::Display for ListFault {
    ghost output = { λ e. Some (list_fault_text e) };

    fn fmt<W: fmt::Write>(&self, f: &mut fmt::Formatter<W>) -> fmt::Result {
        match self {
            ListFault::NotJson(file) => write!(f, "{file}: not JSON"),
            ListFault::NoVersion => write!(f, "bad or missing licenseListVersion"),
            ListFault::NoTable(table) => write!(f, "bad or missing {table}"),
            ListFault::Item(table, index, member) => write!(
                f,
                "{table} item {index}: bad or missing {member}"
            ),
            ListFault::Catalogue(fault) => write!(f, "{fault}"),
        }
    }
}
