//! The forms.

ghost use Rattle.std.specs.Prelude.{◌≡◌, ◌++◌, ℕ, List, OnOk, OnErr, IfOk, Some};
ghost use Rattle.json.specs.Json.{document};
ghost use Rattle.package_changes.specs.Forms.{changes_text};
ghost use Rattle.package_changes.specs.Json.{json_text, json_of_all};
ghost use Rattle.package_changes.specs.Texts.{IsInside};

pub(crate) mod json_form;
pub(crate) mod lines;
pub(crate) mod table;
pub(crate) mod texts;

use crate::forms::json_form::json_document;
use crate::forms::lines::put_lines;
use crate::forms::table::put_table;
use crate::tellings::Telling;
use std::alloc::{AllocError, Global};

/// How the changes are written.
#[derive(Clone, Copy, Debug, PartialEq, Eq)]
pub enum Format {
    /// A line for each.
    Text,
    /// One document, with a member `changes`.
    Json,
    /// A table, or a line where there are none.
    Markdown,
}

/// Appends what is told of some changes. What is no character of a line stands in lines and tables as its number, and
/// in tables so do backquotes and bars. The document reads back as what it says.
///
/// # Errors
///
/// Memory was refused, and the text is as it was.
pub fn put_changes(
    alloc: Global,
    text: &mut Vec<u8>,
    format: Format,
    tellings: &[Telling<'_>],
) -> Result<(), AllocError>
    ensures ok { OnOk result (text.new.items
        ≡ text.old.items ++ changes_text format tellings.now) }
    ensures err { OnErr result (text.new.items ≡ text.old.items) }
    ensures reads_back { OnOk result (format ≡ Format.Json →
        document (json_text tellings.now) ≡ Some (json_of_all tellings.now)) }
    ensures inside { (t : List ℕ) → IsInside t }
{
    let written = written(alloc, format, tellings)?;
    text.extend_from_slice(written.as_slice())
}

fn written(alloc: Global, format: Format, tellings: &[Telling<'_>]) -> Result<Vec<u8>, AllocError>
    ensures ok { IfOk result (λ text. text.items ≡ changes_text format tellings.now) }
    ensures reads_back { IfOk result (λ text. format ≡ Format.Json →
        document (json_text tellings.now) ≡ Some (json_of_all tellings.now)) }
{
    let mut text = Vec::new(alloc);
    match format {
        Format::Text => put_lines(alloc, &mut text, tellings)?,
        Format::Markdown => put_table(alloc, &mut text, tellings)?,
        Format::Json => return json_document(alloc, tellings),
    }
    Ok(text)
}
