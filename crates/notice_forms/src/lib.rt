//! The page that names each package under its licences, with each licence's text once: as plain text, as Markdown, as one
//! file of HTML, and as one document of JSON.
//!
//! ```rust
//! // crates/notice_told/src/page.rt
//! match put_page(alloc, &mut bytes, format, &shown) {
//! ```
//!
//! It stands on `license_notice` and `foreign_text`.
#![tactic(auto)]

ghost use Rattle.std.specs.Prelude.{◌≡◌, ℕ, List, ◌++◌, Some, OnOk, OnErr, IfOk, IfErr};
ghost use Rattle.json.specs.Json.{document};
ghost use Rattle.notice_forms.specs.Told.{told};
ghost use Rattle.notice_forms.specs.Pages.{page_in, IsRefusal};
ghost use Rattle.notice_forms.specs.Markdown.{StaysFenced};
ghost use Rattle.notice_forms.specs.Html.{html_page};
ghost use Rattle.notice_forms.specs.Json.{json_text, told_json, NamesItsTexts};
ghost use Rattle.notice_forms.specs.Seen.{IsShown};
ghost use Rattle.foreign_text.specs.PageHead.{BeginsPlainly};

mod by_package;
mod errors;
mod html;
mod json_form;
mod lines;
mod markdown;
mod pages;
mod places;
mod plain;
mod style;

pub use crate::errors::PageError;
use crate::html::put_html;
use crate::json_form::json_document;
use crate::markdown::put_markdown;
pub use crate::pages::{Format, LicenseText, Page};
use crate::plain::put_plain;
use std::alloc::Global;

/// Appends the page in a form, in time linear in its names and texts; in HTML and JSON besides in `n log n` comparisons of
/// names, for `n` packages under all requirements and below all texts.
///
/// Each text stands byte for byte in plain text and in Markdown, so that it may carry to a terminal whatever its file holds.
/// Names stand in one line, where a character that is not shown is told by its number. In Markdown no text ends the code
/// block that it stands in. In HTML it is escaped, and what a browser shows is the
/// text but for characters that are not seen, which are U+FFFD, and for ends of lines, which are newlines. The page of
/// HTML says what the plain text does (`shown`): of its head the title is seen alone; its body, without tags and with its
/// entities read, is the title, the contents, each requirement with its packages, each package with its requirements, and
/// each text, once and in their order. Its head (`head`) loads nothing, runs nothing, and has a style that hides nothing.
/// The document of JSON reads back as what it says (`reads_back`); a package names the hash of a text exactly where it
/// stands below that text (`names`).
///
/// # Errors
///
/// Memory was refused, or the form is HTML or JSON and a text is no UTF-8. The page is then as it was.
pub fn put_page<'t>(
    alloc: Global,
    page: &mut Vec<u8>,
    format: Format,
    shown: &Page<'_, 't>,
) -> Result<(), PageError<'t>>
    ensures ok { OnOk result (page.new.items ≡ page.old.items ++ page_in format (told shown.now)) }
    ensures err { OnErr result (page.new.items ≡ page.old.items) }
    ensures refused { IfErr result (IsRefusal format (told shown.now)) }
    ensures shown { IsShown (told shown.now) }
    ensures head { BeginsPlainly (html_page (told shown.now)) }
    ensures fenced { (text : List ℕ) → StaysFenced text }
    ensures reads_back { OnOk result (format ≡ Format.Json →
        document (json_text (told shown.now)) ≡ Some (told_json (told shown.now))) }
    ensures names { NamesItsTexts (told shown.now) }
{
    let whole = page_of(alloc, format, shown)?;
    page.extend_from_slice(&whole)?;
    Ok(())
}

fn page_of<'t>(
    alloc: Global,
    format: Format,
    shown: &Page<'_, 't>,
) -> Result<Vec<u8>, PageError<'t>>
    ensures ok { IfOk result (λ whole. whole.items ≡ page_in format (told shown.now)) }
    ensures refused { IfErr result (IsRefusal format (told shown.now)) }
    ensures reads_back { IfOk result (λ whole. format ≡ Format.Json →
        document (json_text (told shown.now)) ≡ Some (told_json (told shown.now))) }
{
    let mut whole = Vec::new(alloc);
    match format {
        Format::Text => put_plain(alloc, &mut whole, shown)?,
        Format::Markdown => put_markdown(alloc, &mut whole, shown)?,
        Format::Html => put_html(alloc, &mut whole, shown)?,
        Format::Json => return json_document(alloc, shown),
    }
    Ok(whole)
}
