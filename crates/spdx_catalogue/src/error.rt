// Why a catalogue is refused.

ghost use Rattle.std.specs.Prelude.{Some};
ghost use Rattle.spdx_catalogue.specs.Faults.{list_text, catalogue_fault_text, read_text};

use spdx_tables::error::Field;
use std::fmt;

/// The list that a fault speaks of.
#[derive(Clone, Copy, Debug, PartialEq, Eq)]
pub enum List {
    Licenses,
    Exceptions,
}

/// The rule that the rows of a catalogue break first: licences before exceptions before imprecise
/// names, then by row, then in this order. Each names its row, counted from 0.
#[derive(Clone, Copy, Debug, PartialEq, Eq)]
pub enum CatalogueError {
    /// The name is empty, or has a byte that is no ASCII letter, digit, `-` or `.`.
    BadName(List, usize),
    /// The name is an operator: `AND`, `OR` or `WITH`, all capitals or all small.
    OperatorName(List, usize),
    /// The name is not greater, by bytes, than the name of the row before.
    NotAscending(List, usize),
    /// The index is not the row's position.
    BadIndex(List, usize),
    /// A GNU licence's name ends in `-only` or `-or-later`, and so does what stands before that.
    TwoSuffixes(usize),
    /// The prefix of an imprecise name is empty.
    EmptyPrefix(usize),
    /// The target of an imprecise name is no licence's name.
    UnlistedTarget(usize),
}

/// Why bytes hold no catalogue: the first of these that applies.
#[derive(Clone, Copy, Debug, PartialEq, Eq)]
pub enum ReadFault {
    /// The bytes are no UTF-8, are no one JSON value, or nest deeper than 127.
    NotJson,
    /// Some number, also under a key that is not read, is neither an `i64` nor a `u64`.
    Float,
    /// The first key that is missing, or whose value is not of its shape.
    Shape(Field),
    /// The rows break a rule.
    Catalogue(CatalogueError),
}

impl fmt::Display for List {
    ghost output = { λ l. Some (list_text l) };

    fn fmt<W: fmt::Write>(&self, f: &mut fmt::Formatter<W>) -> fmt::Result {
        match self {
            List::Licenses => write!(f, "licenses"),
            List::Exceptions => write!(f, "exceptions"),
        }
    }
}

impl fmt::Display for CatalogueError {
    ghost output = { λ e. Some (catalogue_fault_text e) };

    fn fmt<W: fmt::Write>(&self, f: &mut fmt::Formatter<W>) -> fmt::Result {
        match self {
            CatalogueError::BadName(list, row) => write!(f, "{list} row {row}: bad name"),
            CatalogueError::OperatorName(list, row) => write!(f, "{list} row {row}: operator word"),
            CatalogueError::NotAscending(list, row) => write!(
                f,
                "{list} row {row}: names do not ascend"
            ),
            CatalogueError::BadIndex(list, row) => write!(
                f,
                "{list} row {row}: index is not the position"
            ),
            CatalogueError::TwoSuffixes(row) => write!(f, "licenses row {row}: two GNU suffixes"),
            CatalogueError::EmptyPrefix(row) => write!(f, "imprecise row {row}: empty prefix"),
            CatalogueError::UnlistedTarget(row) => write!(
                f,
                "imprecise row {row}: target is not listed"
            ),
        }
    }
}

impl fmt::Display for ReadFault {
    ghost output = { λ e. Some (read_text e) };

    fn fmt<W: fmt::Write>(&self, f: &mut fmt::Formatter<W>) -> fmt::Result {
        match self {
            ReadFault::NotJson => write!(f, "not JSON"),
            ReadFault::Float => write!(f, "floating-point number"),
            ReadFault::Shape(field) => write!(f, "bad or missing field {field}"),
            ReadFault::Catalogue(fault) => write!(f, "{fault}"),
        }
    }
}
