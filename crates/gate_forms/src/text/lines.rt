// A line for each package that is refused.

ghost use Rattle.std.specs.Prelude.{◌≡◌, ◌++◌, OnOk, OnErr, IfOk, string_bytes};
ghost use Rattle.gate_forms.specs.Lines.{short_line, short_text, github_line, github_text};

use crate::messages::put_message;
use crate::reports::Report;
use foreign_text::{Sink, put_text};
use std::alloc::{AllocError, Global};

/// Appends a refused package as one line: `Cargo.lock: ring 0.17: refused by policy.toml: OpenSSL not allowed; ..`.
/// Of a package that passes nothing is said.
///
/// # Errors
///
/// Memory was refused, and the text is as it was.
pub fn put_short(alloc: Global, text: &mut Vec<u8>, report: &Report<'_>) -> Result<(), AllocError>
    ensures ok { OnOk result (text.new.items ≡ text.old.items ++ short_text report.now) }
    ensures err { OnErr result (text.new.items ≡ text.old.items) }
{
    if !report.verdict.is_refused() {
        return Ok(());
    }
    let line = short_line(alloc, report)?;
    text.extend_from_slice(line.as_bytes())
}

fn short_line(alloc: Global, report: &Report<'_>) -> Result<String, AllocError>
    ensures { IfOk result (λ line. string_bytes line ≡ short_line report.now) }
{
    let mut line = String::new(alloc);
    put_text(&mut line, Sink::Line, report.file)?;
    line.push_str(": ")?;
    put_message(&mut line, Sink::Line, report)?;
    line.push('\n')?;
    Ok(line)
}

/// Appends a refused package as an error of a GitHub workflow: `::error file=Cargo.lock::ring 0.17: refused by ..`. Of a
/// package that passes nothing is said.
///
/// # Errors
///
/// Memory was refused, and the text is as it was.
pub fn put_github(alloc: Global, text: &mut Vec<u8>, report: &Report<'_>) -> Result<(), AllocError>
    ensures ok { OnOk result (text.new.items ≡ text.old.items ++ github_text report.now) }
    ensures err { OnErr result (text.new.items ≡ text.old.items) }
{
    if !report.verdict.is_refused() {
        return Ok(());
    }
    let line = github_line(alloc, report)?;
    text.extend_from_slice(line.as_bytes())
}

fn github_line(alloc: Global, report: &Report<'_>) -> Result<String, AllocError>
    ensures { IfOk result (λ line. string_bytes line ≡ github_line report.now) }
{
    let mut line = String::new(alloc);
    line.push_str("::error file=")?;
    put_text(&mut line, Sink::Property, report.file)?;
    line.push_str("::")?;
    put_message(&mut line, Sink::Command, report)?;
    line.push('\n')?;
    Ok(line)
}
