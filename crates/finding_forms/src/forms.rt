// Any form.

ghost use Rattle.std.specs.Prelude.{◌≡◌, ◌++◌, OnOk, OnErr};
ghost use Rattle.finding_forms.specs.Finding.{told};
ghost use Rattle.finding_forms.specs.Forms.{beginning, finding_text, ending};

use crate::findings::Finding;
use crate::json_form::put_json;
use crate::sarif_form::{put_sarif_beginning, put_sarif_ending, put_sarif_result};
use crate::text::carets::put_human;
use crate::text::line_forms::{put_github, put_short};
use std::alloc::{AllocError, Global};

/// Whether a terminal is told to colour what is written.
#[derive(Clone, Copy, PartialEq, Eq, Debug)]
pub enum Style {
    Plain,
    Coloured,
}

/// How findings are written.
#[derive(Clone, Copy, PartialEq, Eq, Debug)]
pub enum Format {
    /// The place and the reason, the expression, carets under the fault, and what helps.
    Human(Style),
    /// A line for each finding.
    Short,
    /// A line of JSON for each finding.
    Json,
    /// An error of a GitHub workflow for each finding.
    Github,
    /// A log of SARIF 2.1.0, whose findings stand between a beginning and an ending.
    Sarif,
}

/// Appends what stands before all findings. The version is that of the program.
///
/// # Errors
///
/// Memory was refused, and the text is as it was.
pub fn put_beginning(
    alloc: Global,
    text: &mut Vec<u8>,
    format: Format,
    version: &str,
) -> Result<(), AllocError>
    ensures ok { OnOk result (text.new.items ≡ text.old.items ++ beginning format version.now) }
    ensures err { OnErr result (text.new.items ≡ text.old.items) }
{
    match format {
        Format::Human(_) | Format::Short | Format::Json | Format::Github => Ok(()),
        Format::Sarif => put_sarif_beginning(alloc, text, version),
    }
}

/// Appends a finding, in time linear in its texts. Findings of SARIF but the first have a comma before them.
///
/// # Errors
///
/// Memory was refused, and the text is as it was.
pub fn put_finding(
    alloc: Global,
    text: &mut Vec<u8>,
    format: Format,
    is_first: bool,
    finding: &Finding<'_>,
) -> Result<(), AllocError>
    ensures ok { OnOk result (
        text.new.items ≡ text.old.items ++ finding_text format is_first (told finding.now)) }
    ensures err { OnErr result (text.new.items ≡ text.old.items) }
{
    match format {
        Format::Human(style) => put_human(alloc, text, style, finding),
        Format::Short => put_short(alloc, text, finding),
        Format::Json => put_json(alloc, text, finding),
        Format::Github => put_github(alloc, text, finding),
        Format::Sarif => put_sarif_result(alloc, text, is_first, finding),
    }
}

/// Appends what stands behind all findings.
///
/// # Errors
///
/// Memory was refused, and the text is as it was.
pub fn put_ending(text: &mut Vec<u8>, format: Format) -> Result<(), AllocError>
    ensures ok { OnOk result (text.new.items ≡ text.old.items ++ ending format) }
    ensures err { OnErr result (text.new.items ≡ text.old.items) }
{
    match format {
        Format::Human(_) | Format::Short | Format::Json | Format::Github => Ok(()),
        Format::Sarif => put_sarif_ending(text),
    }
}
