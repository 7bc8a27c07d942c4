// The form for people, with carets under the fault.

ghost use Rattle.std.specs.Prelude.{◌≡◌, ℕ, ◌++◌, OnOk, OnErr, IfOk, string_bytes};
ghost use Rattle.finding_forms.specs.Finding.{aid_of, seen_of, told};
ghost use Rattle.finding_forms.specs.Forms.{caret_line, help_line, human_text, reason_text};
ghost use Rattle.finding_forms.specs.Frames.{before_human, behind_human, column_human, framed, on_line};

use crate::findings::{Finding, Help, Sight};
use crate::forms::Style;
use crate::messages::{put_column, put_help};
use crate::text::excerpt::{put_carets_under, put_excerpt_line};
use crate::text::frames::Frame;
use crate::text::paint::{begin_paint, end_paint, put_painted};
use foreign_text::{Sink, put_text};
use std::alloc::{AllocError, Global};

/// Appends a finding as people read it: the place of the fault and the reason, the text in which it is seen, carets under
/// it by the columns of a terminal, and what helps. A text of more than 200 bytes is shown round the fault, as by
/// `put_excerpt_line`.
///
/// # Errors
///
/// Memory was refused, and the text is as it was.
pub fn put_human(
    alloc: Global,
    text: &mut Vec<u8>,
    style: Style,
    finding: &Finding<'_>,
) -> Result<(), AllocError>
    ensures ok { OnOk result (
        text.new.items ≡ text.old.items ++ human_text style (told finding.now)) }
    ensures err { OnErr result (text.new.items ≡ text.old.items) }
{
    human_frame(alloc, style, finding)?.put(text, finding.sight().line)
}

/// The lines of a finding round the number of its line.
pub(crate) fn human_frame(
    alloc: Global,
    style: Style,
    finding: &Finding<'_>,
) -> Result<Frame, AllocError>
    ensures { IfOk result (λ frame. (line : ℕ) →
        human_text style (on_line (told finding.now) line) ≡ framed frame line) }
{
    Ok(Frame {
        before: before_human(alloc, style, finding.place.file)?,
        behind: behind_human(alloc, style, finding)?,
    })
}

// What stands before the number.
fn before_human(alloc: Global, style: Style, file: &str) -> Result<String, AllocError>
    ensures { IfOk result (λ lines. string_bytes lines ≡ before_human style file.now) }
{
    let mut lines = String::new(alloc);
    begin_paint(&mut lines, style, "[1m")?;
    put_text(&mut lines, Sink::Line, file)?;
    lines.push(':')?;
    Ok(lines)
}

// What stands behind the number.
fn behind_human(alloc: Global, style: Style, finding: &Finding<'_>) -> Result<String, AllocError>
    ensures { IfOk result (λ lines. string_bytes lines ≡ behind_human style (told finding.now)) }
{
    let mut lines = String::new(alloc);
    put_place_end(&mut lines, style, finding)?;
    put_reason(&mut lines, style, finding)?;
    let sight = finding.sight();
    put_excerpt_line(&mut lines, sight.text, sight.start)?;
    put_carets(alloc, &mut lines, style, sight)?;
    put_help_line(&mut lines, style, &finding.help)?;
    Ok(lines)
}

// The column of the fault, which ends the place.
fn put_place_end(lines: &mut String, style: Style, finding: &Finding<'_>) -> Result<(), AllocError>
    ensures { OnOk result (string_bytes lines.new ≡
        string_bytes lines.old ++ column_human style (told finding.now)) }
{
    put_column(lines, finding)?;
    end_paint(lines, style)?;
    Ok(())
}

// What is wrong, to the end of its line.
fn put_reason(lines: &mut String, style: Style, finding: &Finding<'_>) -> Result<(), AllocError>
    ensures { OnOk result (string_bytes lines.new ≡
        string_bytes lines.old ++ reason_text style (told finding.now)) }
{
    lines.push_str(": ")?;
    put_painted(lines, style, "[1;31m", "error")?;
    lines.push_str(": ")?;
    put_text(lines, Sink::Line, finding.reason)?;
    lines.push('\n')?;
    Ok(())
}

// The line of the carets.
fn put_carets(
    alloc: Global,
    lines: &mut String,
    style: Style,
    sight: Sight<'_>,
) -> Result<(), AllocError>
    ensures { OnOk result (string_bytes lines.new ≡
        string_bytes lines.old ++ caret_line style (seen_of sight.entry)) }
{
    put_carets_under(alloc, lines, style, sight.text, sight.start, sight.end)?;
    lines.push('\n')?;
    Ok(())
}

fn put_help_line(lines: &mut String, style: Style, help: &Help<'_>) -> Result<(), AllocError>
    ensures { OnOk result (
        string_bytes lines.new ≡ string_bytes lines.old ++ help_line style (aid_of help.now)) }
{
    if !help.helps() {
        return Ok(());
    }
    lines.push_str("  ")?;
    put_painted(lines, style, "[1;36m", "help")?;
    lines.push_str(": ")?;
    put_help(lines, Sink::Line, help)?;
    lines.push('\n')
}
