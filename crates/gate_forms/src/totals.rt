// The line of totals, and what warns.

ghost use Rattle.std.specs.Prelude.{◌≡◌, ◌++◌, OnOk, OnErr, IfOk, string_bytes};
ghost use Rattle.finding_forms.specs.Totals.{counted};
ghost use Rattle.gate_forms.specs.Totals.{number_words, totals_words, totals_text, unused_line, unused_text};

use crate::messages::put_names;
use crate::reports::Totals;
use foreign_text::{Sink, put_text};
use std::alloc::{AllocError, Global};

/// Appends the line of totals: `312 packages: 309 allowed (2 by exception), 2 refused, 1 without a licence`.
///
/// # Errors
///
/// Memory was refused, and the text is as it was.
pub fn put_totals(alloc: Global, text: &mut Vec<u8>, totals: &Totals) -> Result<(), AllocError>
    ensures ok { OnOk result (text.new.items ≡ text.old.items ++ totals_text totals.now) }
    ensures err { OnErr result (text.new.items ≡ text.old.items) }
{
    let mut line = totals_words(alloc, totals)?;
    line.push('\n')?;
    text.extend_from_slice(line.as_bytes())
}

pub(crate) fn totals_words(alloc: Global, totals: &Totals) -> Result<String, AllocError>
    ensures { IfOk result (λ line. string_bytes line ≡ totals_words totals.now) }
{
    let mut line = String::new(alloc);
    put_counted(&mut line, totals.packages, "package")?;
    line.push_str(": ")?;
    put_number(&mut line, totals.allowed, " allowed (")?;
    put_number(&mut line, totals.by_exception, " by exception), ")?;
    put_number(&mut line, totals.refused, " refused, ")?;
    put_number(&mut line, totals.unstated, " without a licence")?;
    Ok(line)
}

/// Appends so many of a noun.
pub(crate) fn put_counted(line: &mut String, count: u64, noun: &str) -> Result<(), AllocError>
    ensures { OnOk result (
        string_bytes line.new ≡ string_bytes line.old ++ counted count noun.now) }
{
    let ending = if count == 1 { "" } else { "s" };
    match write!(line, "{count} {noun}{ending}") {
        Ok(()) => Ok(()),
        Err(_) => Err(AllocError),
    }
}

/// Appends the number, and words behind it.
pub(crate) fn put_number(line: &mut String, number: u64, words: &str) -> Result<(), AllocError>
    ensures { OnOk result (
        string_bytes line.new ≡ string_bytes line.old ++ number_words number words.now) }
{
    match write!(line, "{number}{words}") {
        Ok(()) => Ok(()),
        Err(_) => Err(AllocError),
    }
}

/// Appends a warning with the entries of the policy that are not used:
/// `warning: policy.toml: not used: allow "Zlib", deny "GPL-3.0-only"`. Where all are used nothing is said.
///
/// # Errors
///
/// Memory was refused, and the text is as it was.
pub fn put_unused(
    alloc: Global,
    text: &mut Vec<u8>,
    policy: &str,
    entries: &[&str],
) -> Result<(), AllocError>
    ensures ok { OnOk result (
        text.new.items ≡ text.old.items ++ unused_text policy.now entries.now) }
    ensures err { OnErr result (text.new.items ≡ text.old.items) }
{
    if entries.is_empty() {
        return Ok(());
    }
    let line = unused_line(alloc, policy, entries)?;
    text.extend_from_slice(line.as_bytes())
}

fn unused_line(alloc: Global, policy: &str, entries: &[&str]) -> Result<String, AllocError>
    ensures { IfOk result (λ line. string_bytes line ≡ unused_line policy.now entries.now) }
{
    let mut line = String::new(alloc);
    line.push_str("warning: ")?;
    put_text(&mut line, Sink::Line, policy)?;
    line.push_str(": not used: ")?;
    put_names(&mut line, Sink::Line, entries)?;
    line.push('\n')?;
    Ok(line)
}
