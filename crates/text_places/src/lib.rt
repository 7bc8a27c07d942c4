//! Where something stands in the bytes of a file: the values of a field in one that is written line by line, the texts of an
//! element in one of XML; and what such a place is counted by: lines, characters, a last line.
//!
//! It knows no ecosystem and no vocabulary: whoever asked reads what stands there.
//!
//! ```rust
//! let opam = Grammar {
//!     name: b"license",
//!     is_any_case: false,
//!     before: b"",
//!     separators: b":",
//!     notation: Notation::Quoted,
//!     comment: b"#",
//!     section: b"",
//!     is_header: false,
//! };
//! for span in fields(alloc, b"license: [\"MIT\" \"ISC\"]\n", &opam)? {
//! ```
//!
//! It stands on `line_engine` alone, for what a line is.
#![tactic(auto)]

ghost use Rattle.std.specs.Prelude.{◌≡◌, ◌≤◌, length};
ghost use Rattle.text_places.specs.Places.{newline_count, character_count, last_line_len};

pub mod element_texts;
pub mod field_lines;
mod lines;
pub mod marks;
mod names;
mod places;
mod tags;
mod texts;

pub use crate::element_texts::{Element, elements};
pub use crate::field_lines::{Grammar, Notation, fields};

/// A part of a file: from `start` up to `end`, in bytes from the file's beginning.
#[derive(Clone, Copy, PartialEq, Eq, Debug)]
pub struct Span {
    pub start: usize,
    pub end: usize,
}

/// How many newlines there are. Linear.
pub fn newline_count(bytes: &[u8]) -> usize
    ensures { result ≡ newline_count bytes.now }
{
    bytes.iter().filter(|byte| **byte == b'\n').count()
}

/// How many characters there are. A byte that is no text is one, unless it is one that would continue a character. Linear.
pub fn character_count(bytes: &[u8]) -> usize
    ensures { result ≡ character_count bytes.now }
{
    bytes.iter().filter(|byte| **byte & 0xc0 != 0x80).count()
}

/// How many bytes stand behind the last newline. Linear in them.
pub fn last_line_len(bytes: &[u8]) -> usize
    ensures value { result ≡ last_line_len bytes.now }
    ensures within { result ≤ length bytes.now }
{
    bytes
        .iter()
        .rev()
        .take_while(|byte| **byte != b'\n')
        .count()
}
