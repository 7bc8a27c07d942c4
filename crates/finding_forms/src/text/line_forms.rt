// A line for each finding.

ghost use Rattle.std.specs.Prelude.{◌≡◌, ℕ, ◌++◌, OnOk, OnErr, IfOk, string_bytes};
ghost use Rattle.finding_forms.specs.Finding.{seen_in, told};
ghost use Rattle.finding_forms.specs.Forms.{IsOneLine, short_text, github_place, github_text};
ghost use Rattle.finding_forms.specs.Frames.{before_short, behind_short, framed, on_line};

use crate::findings::Finding;
use crate::messages::{put_column, put_message};
use crate::text::frames::Frame;
use foreign_text::{Sink, put_text, text_for};
use std::alloc::{AllocError, Global};

/// Appends a finding as one line: `deps.txt:3:1: unknown term; did you mean `MIT`?`.
///
/// # Errors
///
/// Memory was refused, and the text is as it was.
pub fn put_short(alloc: Global, text: &mut Vec<u8>, finding: &Finding<'_>) -> Result<(), AllocError>
    ensures ok { OnOk result (text.new.items ≡ text.old.items ++ short_text (told finding.now)) }
    ensures err { OnErr result (text.new.items ≡ text.old.items) }
    ensures one_line { IsOneLine (short_text (told finding.now)) }
{
    short_frame(alloc, finding)?.put(text, finding.sight().line)
}

/// The line of a finding round the number of its line.
pub(crate) fn short_frame(alloc: Global, finding: &Finding<'_>) -> Result<Frame, AllocError>
    ensures { IfOk result (λ frame. (line : ℕ) →
        short_text (on_line (told finding.now) line) ≡ framed frame line) }
{
    Ok(Frame {
        before: before_short(alloc, finding.place.file)?,
        behind: behind_short(alloc, finding)?,
    })
}

// What stands before the number.
fn before_short(alloc: Global, file: &str) -> Result<String, AllocError>
    ensures { IfOk result (λ line. string_bytes line ≡ before_short file.now) }
{
    let mut line = text_for(alloc, Sink::Line, file)?;
    line.push(':')?;
    Ok(line)
}

// What stands behind the number.
fn behind_short(alloc: Global, finding: &Finding<'_>) -> Result<String, AllocError>
    ensures { IfOk result (λ line. string_bytes line ≡ behind_short (told finding.now)) }
{
    let mut line = String::new(alloc);
    put_column(&mut line, finding)?;
    line.push_str(": ")?;
    put_message(&mut line, Sink::Line, finding)?;
    line.push('\n')?;
    Ok(line)
}

/// Appends a finding as an error of a GitHub workflow: `::error file=deps.txt,line=3,col=1::unknown term`.
///
/// # Errors
///
/// Memory was refused, and the text is as it was.
pub fn put_github(
    alloc: Global,
    text: &mut Vec<u8>,
    finding: &Finding<'_>,
) -> Result<(), AllocError>
    ensures ok { OnOk result (text.new.items ≡ text.old.items ++ github_text (told finding.now)) }
    ensures err { OnErr result (text.new.items ≡ text.old.items) }
    ensures one_line { IsOneLine (github_text (told finding.now)) }
{
    let line = github_line(alloc, finding)?;
    text.extend_from_slice(line.as_bytes())
}

fn github_line(alloc: Global, finding: &Finding<'_>) -> Result<String, AllocError>
    ensures { IfOk result (λ line. string_bytes line ≡ github_text (told finding.now)) }
{
    let mut line = String::new(alloc);
    line.push_str("::error file=")?;
    put_text(&mut line, Sink::Property, finding.place.file)?;
    put_properties(&mut line, finding)?;
    put_message(&mut line, Sink::Command, finding)?;
    line.push('\n')?;
    Ok(line)
}

fn put_properties(line: &mut String, finding: &Finding<'_>) -> Result<(), AllocError>
    ensures { OnOk result (string_bytes line.new ≡
        string_bytes line.old ++ github_place (seen_in finding.now)) }
{
    let sight = finding.sight();
    match write!(line, ",line={},col={}::", sight.line, sight.column) {
        Ok(()) => Ok(()),
        Err(_) => Err(AllocError),
    }
}
