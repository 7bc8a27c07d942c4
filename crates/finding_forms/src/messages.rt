// What is wrong and what helps, and the column of the fault.

ghost use Rattle.std.specs.Prelude.{◌≡◌, ℕ, ◌∷◌, ◌++◌, List, OnOk, decimal, map, string_bytes};
ghost use Rattle.std.specs.Borrow.{Bor};
ghost use Rattle.finding_forms.specs.Finding.{told, aid_of, seen_in};
ghost use Rattle.finding_forms.specs.Message.{named, names_text, other_names, help_text, message_text};

use crate::findings::{Finding, Help};
use foreign_text::{Sink, put_text};
use std::alloc::AllocError;

/// Appends a colon and the column of the fault.
pub(crate) fn put_column(line: &mut String, finding: &Finding<'_>) -> Result<(), AllocError>
    ensures { OnOk result (string_bytes line.new ≡
        string_bytes line.old ++ (58 ∷ decimal (seen_in finding.now).column)) }
{
    let column = finding.sight().column;
    match write!(line, ":{column}") {
        Ok(()) => Ok(()),
        Err(_) => Err(AllocError),
    }
}

/// Appends the reason, and behind it what helps.
pub(crate) fn put_message(
    line: &mut String,
    how: Sink,
    finding: &Finding<'_>,
) -> Result<(), AllocError>
    ensures { OnOk result (
        string_bytes line.new ≡ string_bytes line.old ++ message_text how (told finding.now)) }
{
    put_text(line, how, finding.reason)?;
    if !finding.help.helps() {
        return Ok(());
    }
    line.push_str("; ")?;
    put_help(line, how, &finding.help)
}

/// Appends what helps.
pub(crate) fn put_help(line: &mut String, how: Sink, help: &Help<'_>) -> Result<(), AllocError>
    ensures { OnOk result (
        string_bytes line.new ≡ string_bytes line.old ++ help_text how (aid_of help.now)) }
{
    match help {
        Help::Nothing => Ok(()),
        Help::Write(mended) => {
            line.push_str("write ")?;
            put_named(line, how, mended)
        }
        Help::Names { names, rule: _ } => put_names(line, how, names),
        Help::Note(words) => put_text(line, how, words),
    }
}

fn put_named(line: &mut String, how: Sink, name: &str) -> Result<(), AllocError>
    ensures { OnOk result (
        string_bytes line.new ≡ string_bytes line.old ++ named how name.now) }
{
    line.push('`')?;
    put_text(line, how, name)?;
    line.push('`')
}

fn put_names(line: &mut String, how: Sink, names: &[&str]) -> Result<(), AllocError>
    ensures { OnOk result (string_bytes line.new ≡
        string_bytes line.old ++ names_text how (map (λ (x : Bor (List ℕ)). x.now) names.now)) }
{
    let Some((first, others)) = names.split_first() else {
        return Ok(());
    };
    line.push_str("did you mean ")?;
    put_named(line, how, first)?;
    put_others(line, how, others)?;
    line.push_str("?")?;
    Ok(())
}

// Commas stand between the names, and `or` before the last.
fn put_others(line: &mut String, how: Sink, names: &[&str]) -> Result<(), AllocError>
    ensures { OnOk result (string_bytes line.new ≡
        string_bytes line.old ++ other_names how (map (λ (x : Bor (List ℕ)). x.now) names.now)) }
{
    let Some((last, front)) = names.split_last() else {
        return Ok(());
    };
    for name in front {
        line.push_str(", ")?;
        put_named(line, how, name)?;
    }
    line.push_str(" or ")?;
    put_named(line, how, last)?;
    Ok(())
}
