// Why bytes hold no tables.

ghost use Rattle.std.specs.Prelude.{Some};
ghost use Rattle.spdx_tables.specs.Fields.{field_text};

use std::fmt;

/// A key of a catalogue's JSON.
#[derive(Clone, Copy, Debug, PartialEq, Eq)]
pub enum Field {
    Version,
    Licenses,
    Exceptions,
    Imprecise,
}

/// Why bytes hold no tables: the first of these that applies.
#[derive(Clone, Copy, Debug, PartialEq, Eq)]
pub enum TableFault {
    /// The bytes are no UTF-8, are no one JSON value, or nest deeper than 127.
    NotJson,
    /// Some number, also under a key that is not read, is neither an `i64` nor a `u64`.
    Float,
    /// The first key that is missing, or whose value is not of its shape.
    Shape(Field),
}

impl fmt::Display for Field {
    ghost output = { λ k. Some (field_text k) };

    fn fmt<W: fmt::Write>(&self, f: &mut fmt::Formatter<W>) -> fmt::Result {
        match self {
            Field::Version => write!(f, "version"),
            Field::Licenses => write!(f, "licenses"),
            Field::Exceptions => write!(f, "exceptions"),
            Field::Imprecise => write!(f, "imprecise"),
        }
    }
}
