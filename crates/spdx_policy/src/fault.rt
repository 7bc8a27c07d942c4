// Why a text is no policy, by a list of licences.

ghost use Rattle.std.specs.Prelude.{Some};
ghost use Rattle.spdx_policy.specs.Told as told;

use crate::error::{Dotted, Place, Section, ShapeFault};
use crate::escaped::Quoted;
use spdx_lexer::Reason;
use spdx_requirement::failure::Failure;
use std::fmt;
use std::ops::Range;

/// Why a text is no policy. Of several faults the first is told: one of reading, then of shape,
/// then a flag; then a name of `allow`, one of `deny`, a range of an exception, a name of one, a
/// range of a clarification. Among those of one kind it is the one that stands first.
#[derive(Debug, Drop)]
pub enum PolicyFault {
    /// The text is no UTF-8 or no TOML.
    Unreadable(Unreadable),
    /// The table that it is has another shape than a policy's.
    Shape(ShapeFault),
    /// The list of licences says nothing of the flag at a place.
    UnknownFlag(Place),
    /// The text at a place names no licence: the bytes of it at fault, and why.
    NotALicensee(Place, String, Range<usize>, Reason),
    /// The text of a table's `versions` is no range: the error of the reader of ranges, and what
    /// it says.
    NotARange(Section, String, semver::Error, String),
}

/// A place at which a text is no UTF-8 or no TOML, and why.
#[derive(Debug, Drop)]
pub struct Unreadable {
    /// The line, from 1.
    pub line: usize,
    /// The character in the line, from 1.
    pub column: usize,
    /// Why.
    pub error: toml::de::Error,
    /// What the reader of TOML says of it.
    pub words: String,
}

/// A fault, or want of memory.
pub type PolicyError = Failure<PolicyFault>;

impl fmt::Display for Unreadable {
    ghost output = { λ u. Some (told.unreadable_text u) };

    fn fmt<W: fmt::Write>(&self, f: &mut fmt::Formatter<W>) -> fmt::Result {
        let (line, column) = (self.line, self.column);
        let words = &self.words;
        write!(f, "line {line}, column {column}: {words}")
    }
}

impl fmt::Display for PolicyFault {
    ghost output = { λ f. Some (told.policy_fault_text f) };

    fn fmt<W: fmt::Write>(&self, f: &mut fmt::Formatter<W>) -> fmt::Result {
        match self {
            PolicyFault::Unreadable(fault) => write!(f, "{fault}"),
            PolicyFault::Shape(fault) => write!(f, "{fault}"),
            PolicyFault::UnknownFlag(place) => write!(
                f,
                "{place}: the list of licenses says nothing of copyleft: take one made with --extras"
            ),
            PolicyFault::NotALicensee(place, text, _, reason) => {
                let text = Quoted(text.as_str());
                write!(f, "{place}: {text} names no licensee: {reason}")
            }
            PolicyFault::NotARange(section, text, _, words) => {
                let (dot, text) = (Dotted(*section), Quoted(text.as_str()));
                write!(f, "{dot}versions: {text} is no range: {words}")
            }
        }
    }
}
