// What is said of a package, as one text.

ghost use Rattle.std.specs.Prelude.{◌≡◌, ◌++◌, ◌∷◌, ℕ, List, OnOk, map, flat_map, codes, string_bytes};
ghost use Rattle.std.specs.Borrow.{Bor};
ghost use Rattle.foreign_text.specs.Written.{text_for};
ghost use Rattle.gate_forms.specs.Report.{advice_text, by_text, decided_text, leaf_decided, leaf_text, message_text, name_text, not_sought_text, package_text, separated, verdict_by, verdict_text, version_text, why_text};

use crate::reports::{Advice, Leaf, Mark, Report, Verdict, Why};
use foreign_text::{Sink, put_text};
use std::alloc::AllocError;

/// Appends the package, the verdict and why.
pub(crate) fn put_message(
    line: &mut String,
    how: Sink,
    report: &Report<'_>,
) -> Result<(), AllocError>
    ensures { OnOk result (
        string_bytes line.new ≡ string_bytes line.old ++ message_text how report.now) }
{
    put_package(line, how, report)?;
    line.push_str(": ")?;
    put_verdict(line, how, report)?;
    put_why(line, how, &report.why)?;
    Ok(())
}

/// Appends the name and the version of the package.
pub(crate) fn put_package(
    line: &mut String,
    how: Sink,
    report: &Report<'_>,
) -> Result<(), AllocError>
    ensures { OnOk result (
        string_bytes line.new ≡ string_bytes line.old ++ package_text how report.now) }
{
    put_text(line, how, report.name)?;
    put_version(line, how, report.version)?;
    Ok(())
}

fn put_version(line: &mut String, how: Sink, version: Option<&str>) -> Result<(), AllocError>
    ensures { OnOk result (
        string_bytes line.new ≡ string_bytes line.old ++ version_text how version.entry) }
{
    match version {
        None => Ok(()),
        Some(version) => {
            line.push(' ')?;
            put_text(line, how, version)
        }
    }
}

pub(crate) fn put_verdict(
    line: &mut String,
    how: Sink,
    report: &Report<'_>,
) -> Result<(), AllocError>
    ensures { OnOk result (
        string_bytes line.new ≡ string_bytes line.old ++ verdict_text how report.now) }
{
    match report.verdict {
        Verdict::Allowed => put_words(line, how, "allowed by ", report.policy),
        Verdict::ByException => put_words(line, how, "allowed by an exception of ", report.policy),
        Verdict::Refused => put_words(line, how, "refused by ", report.policy),
        Verdict::Unstated { .. } => line.push_str("without a licence"),
    }
}

// Words of ours, and a text.
fn put_words(line: &mut String, how: Sink, words: &str, text: &str) -> Result<(), AllocError>
    ensures { OnOk result (string_bytes line.new ≡
        string_bytes line.old ++ (words.now ++ text_for how text.now)) }
{
    line.push_str(words)?;
    put_text(line, how, text)?;
    Ok(())
}

/// Appends what the policy says of the requirement, and which entry said it.
pub(crate) fn put_decided(line: &mut String, how: Sink, leaf: &Leaf<'_>) -> Result<(), AllocError>
    ensures { OnOk result (
        string_bytes line.new ≡ string_bytes line.old ++ leaf_decided how leaf.now) }
{
    match leaf.mark {
        Mark::Accepted => put_decided_by(line, how, "allowed", leaf.by),
        Mark::Denied => put_decided_by(line, how, "denied", leaf.by),
        Mark::Open => line.push_str("not allowed"),
    }
}

fn put_decided_by(line: &mut String, how: Sink, word: &str, by: &str) -> Result<(), AllocError>
    ensures { OnOk result (
        string_bytes line.new ≡ string_bytes line.old ++ (word.now ++ by_text how by.now)) }
{
    line.push_str(word)?;
    if by.is_empty() {
        return Ok(());
    }
    put_words(line, how, " by ", by)
}

fn put_leaf(line: &mut String, how: Sink, leaf: &Leaf<'_>) -> Result<(), AllocError>
    ensures { OnOk result (
        string_bytes line.new ≡ string_bytes line.old ++ leaf_text how leaf.now) }
{
    put_text(line, how, leaf.text)?;
    line.push(' ')?;
    put_decided(line, how, leaf)?;
    Ok(())
}

fn put_leaves(line: &mut String, how: Sink, leaves: &[Leaf<'_>]) -> Result<(), AllocError>
    ensures { OnOk result (string_bytes line.new ≡
        string_bytes line.old ++ separated (leaf_text how) leaves.now) }
{
    let Some((first, others)) = leaves.split_first() else {
        return Ok(());
    };
    put_leaf(line, how, first)?;
    for leaf in others {
        line.push_str(", ")?;
        put_leaf(line, how, leaf)?;
    }
    Ok(())
}

/// Appends the names with commas between them.
pub(crate) fn put_names(line: &mut String, how: Sink, names: &[&str]) -> Result<(), AllocError>
    ensures { OnOk result (string_bytes line.new ≡
        string_bytes line.old ++ separated (name_text how) names.now) }
{
    let Some((first, others)) = names.split_first() else {
        return Ok(());
    };
    put_text(line, how, first)?;
    for name in others {
        line.push_str(", ")?;
        put_text(line, how, name)?;
    }
    Ok(())
}

/// Appends what would help.
pub(crate) fn put_advice(line: &mut String, how: Sink, advice: Advice<'_>) -> Result<(), AllocError>
    ensures { OnOk result (
        string_bytes line.new ≡ string_bytes line.old ++ advice_text how advice.entry) }
{
    match advice {
        Advice::Unmet => line.push_str("nothing that may be allowed makes it pass"),
        Advice::Allow(names) => {
            line.push_str("to pass, also allow: ")?;
            put_names(line, how, names)?;
            Ok(())
        }
        Advice::NotSought { entries } => put_not_sought(line, entries),
    }
}

fn put_not_sought(line: &mut String, entries: usize) -> Result<(), AllocError>
    ensures { OnOk result (
        string_bytes line.new ≡ string_bytes line.old ++ not_sought_text entries) }
{
    match write!(
        line,
        "what makes it pass was not sought among {entries} entries"
    ) {
        Ok(()) => Ok(()),
        Err(_) => Err(AllocError),
    }
}

fn put_why(line: &mut String, how: Sink, why: &Why<'_>) -> Result<(), AllocError>
    ensures { OnOk result (
        string_bytes line.new ≡ string_bytes line.old ++ why_text how why.now) }
{
    match *why {
        Why::Nothing => Ok(()),
        Why::Fault { reason, .. } => put_words(line, how, ": ", reason),
        Why::Missing { leaves, advice } => {
            line.push_str(": ")?;
            put_leaves(line, how, leaves)?;
            line.push_str("; ")?;
            put_advice(line, how, advice)?;
            Ok(())
        }
    }
}
