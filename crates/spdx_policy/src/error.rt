// Why a text is no policy, and where.

ghost use Rattle.std.specs.Prelude.{◌≡◌, Some};
ghost use Rattle.spdx_policy.specs.Shape as shape;
ghost use Rattle.spdx_policy.specs.Told as told;

use crate::escaped::{Escaped, Quoted};
use std::fmt;

/// A key of a policy's tables.
#[derive(Clone, Copy, Debug, PartialEq, Eq)]
pub enum Key {
    Read,
    Unstated,
    Allow,
    AllowIf,
    Deny,
    DenyIf,
    Exception,
    Clarify,
    Package,
    Versions,
    Reason,
    Expression,
}

/// A table of a policy; exceptions and clarifications are counted from 0.
#[derive(Clone, Copy, Debug, PartialEq, Eq)]
pub enum Section {
    /// The policy itself.
    Policy,
    /// An exception.
    Exception(usize),
    /// A clarification.
    Clarify(usize),
}

/// A key of a table, or an item, counted from 0, of the list there.
#[derive(Clone, Copy, Debug, PartialEq, Eq)]
pub struct Place {
    /// The table.
    pub section: Section,
    /// The key.
    pub key: Key,
    /// The item, if one is meant.
    pub item: Option<usize>,
}

/// What was to stand at a place.
#[derive(Clone, Copy, Debug, PartialEq, Eq)]
pub enum Kind {
    Text,
    Texts,
    Table,
    Tables,
}

/// Why a TOML table is no policy, whatever the list of licences says.
#[derive(Debug, Drop)]
pub enum ShapeFault {
    /// The table has a key that no such table has.
    UnknownKey(Section, String),
    /// A key is missing.
    Missing(Place),
    /// A value of another kind was to stand there.
    WrongKind(Place, Kind),
    /// The text is none of the words that may stand there.
    UnknownWord(Place, String),
}

impl Key {
    /// The key's word in a policy.
    pub fn word(self) -> &'static str
        ensures { result.now ≡ shape.key_word self }
    {
        match self {
            Key::Read => "read",
            Key::Unstated => "unstated",
            Key::Allow => "allow",
            Key::AllowIf => "allow-if",
            Key::Deny => "deny",
            Key::DenyIf => "deny-if",
            Key::Exception => "exception",
            Key::Clarify => "clarify",
            Key::Package => "package",
            Key::Versions => "versions",
            Key::Reason => "reason",
            Key::Expression => "expression",
        }
    }
}

impl Place {
    /// What stands at a key.
    pub fn whole(section: Section, key: Key) -> Place
        ensures { result ≡ shape.whole section key }
    {
        Place {
            section,
            key,
            item: None,
        }
    }

    /// An item of the list at a key.
    pub fn one(section: Section, key: Key, item: usize) -> Place
        ensures { result ≡ shape.one section key item }
    {
        Place {
            section,
            key,
            item: Some(item),
        }
    }
}

/// A table's path before a key: nothing, or its name and its number, and a dot.
#[derive(Clone, Copy)]
pub(crate) struct Dotted(pub Section);

impl fmt::Display for Dotted {
    ghost output = { λ d. Some (told.path_text d.0) };

    fn fmt<W: fmt::Write>(&self, f: &mut fmt::Formatter<W>) -> fmt::Result {
        match self.0 {
            Section::Policy => Ok(()),
            Section::Exception(number) => write!(f, "exception[{number}]."),
            Section::Clarify(number) => write!(f, "clarify[{number}]."),
        }
    }
}

impl fmt::Display for Place {
    ghost output = { λ p. Some (told.place_text p) };

    fn fmt<W: fmt::Write>(&self, f: &mut fmt::Formatter<W>) -> fmt::Result {
        let dot = Dotted(self.section);
        write!(f, "{dot}{}", self.key.word())?;
        match self.item {
            Some(item) => write!(f, "[{item}]"),
            None => Ok(()),
        }
    }
}

impl fmt::Display for Kind {
    ghost output = { λ k. Some (told.kind_text k) };

    fn fmt<W: fmt::Write>(&self, f: &mut fmt::Formatter<W>) -> fmt::Result {
        f.write_str(match self {
            Kind::Text => "a text",
            Kind::Texts => "a list of texts",
            Kind::Table => "a table",
            Kind::Tables => "a list of tables",
        })
    }
}

impl fmt::Display for ShapeFault {
    ghost output = { λ f. Some (told.shape_text (shape.shape_of f)) };

    fn fmt<W: fmt::Write>(&self, f: &mut fmt::Formatter<W>) -> fmt::Result {
        match self {
            ShapeFault::UnknownKey(section, key) => {
                let dot = Dotted(*section);
                write!(f, "{dot}{}: no such key", Escaped(key.as_str()))
            }
            ShapeFault::Missing(place) => write!(f, "{place}: missing"),
            ShapeFault::WrongKind(place, kind) => write!(f, "{place}: not {kind}"),
            ShapeFault::UnknownWord(place, word) => {
                write!(f, "{place}: unknown word {}", Quoted(word.as_str()))
            }
        }
    }
}
