//! Where the values of a field stand in a file that is written line by line.
//!
//! It knows no ecosystem and reads no value: a [`Grammar`] says how a form writes a field, and whoever asked reads what
//! stands there.

ghost use Rattle.std.specs.Prelude.{◌≡◌, IfOk, length};
ghost use Rattle.text_places.specs.Fields.{fields_of};
ghost use Rattle.text_places.specs.Order.{AreInOrder};

use crate::Span;
use crate::lines::spans;
use std::alloc::{AllocError, Global};

/// How a value is written behind its separator.
#[derive(Clone, Copy, PartialEq, Eq, Debug)]
pub enum Notation {
    /// All that stands on the line: `MIT`.
    Line,
    /// As in YAML: `MIT`, `"MIT"` or `'MIT'` on the line, a list `[MIT, "ISC"]`, or lines `- MIT` below the field. A
    /// value without quotes ends before a blank and a comment, and in a list before `,` and `]`; one that begins with
    /// `|`, `>`, `&`, `*`, `!`, `{` or `[` isn't given.
    Yaml,
    /// As in a shell: a word `MIT`, `"MIT"` or `'MIT'`, or a list `(MIT "ISC")`. A word ends before a blank, `)`, `;`
    /// or a backslash.
    Shell,
    /// `"MIT"` or `'MIT'`, or a list of such, `["MIT", 'ISC']` or `["MIT" "ISC"]`, in which any other byte is passed
    /// over, as in `["MIT".freeze]`.
    Quoted,
}

/// How a form writes a field.
#[derive(Clone, Copy, Debug)]
pub struct Grammar<'k> {
    /// The field's name.
    pub name: &'k [u8],
    /// Whether the name may stand in capital or small letters.
    pub is_any_case: bool,
    /// The bytes that may stand in front of the name, in any number: none where a field begins its line, `" \t"` where
    /// it may stand behind blanks. The longest run of them is passed over, so the name has to begin with another byte.
    pub before: &'k [u8],
    /// The bytes one of which stands between name and value, with or without blanks round it.
    pub separators: &'k [u8],
    /// How the value is written.
    pub notation: Notation,
    /// What a comment begins with; none where the form has no comments.
    pub comment: &'k [u8],
    /// The line that begins the section that the field stands in, as `[metadata]`, which a next line that begins with
    /// `[` ends; none where the form has no sections.
    pub section: &'k [u8],
    /// Whether the fields end at the first empty line.
    pub is_header: bool,
}

/// The places of the field's values in a file, whose bytes may be no text, in bytes from its beginning: each without
/// quotes and the blanks round it, in the file's order. Lines that are blank or a comment are passed over.
///
/// A list may go over several lines. A value in quotes ends at the next such quote on its line: one without, or with a
/// backslash before it, isn't given, and ends its list. An empty value is given only in quotes. Linear.
///
/// # Errors
///
/// Memory was refused.
pub fn fields(alloc: Global, bytes: &[u8], grammar: &Grammar<'_>) -> Result<Vec<Span>, AllocError>
    ensures value { IfOk result (λ found. found.items ≡ fields_of grammar.now bytes.now) }
    ensures in_order { IfOk result (λ found. AreInOrder 0 found.items (length bytes.now)) }
{
    spans(alloc, bytes, grammar)
}
