// A line of JSON for each package that is refused.

ghost use Rattle.std.specs.Prelude.{◌≡◌, ℕ, ◌++◌, List, Some, OnOk, OnErr, IfOk, map, true};
ghost use Rattle.std.specs.Borrow.{Bor};
ghost use Rattle.json.specs.Json.{document, array};
ghost use Rattle.json.specs.Tree.{json_tokens, members_tokens};
ghost use Rattle.finding_forms.specs.Json.{HasNoNewline, texts_of};
ghost use Rattle.gate_forms.specs.Report.{is_refused};
ghost use Rattle.gate_forms.specs.Json.{advice_members, baseline_tokens, fault_members, json_line, json_lines, json_of, json_text, leaf_texts, package_tokens, state_tokens, version_json, verdict_tokens, verdict_word, why_members};

use crate::reports::{Advice, Baseline, Leaf, Report, Verdict, Why};
use json::Writer;
use std::alloc::{AllocError, Global};

/// Appends a refused package as a line of JSON, which reads back as what it says: the file, the package and its version,
/// the expression, the verdict, and the reason with its bytes, or the requirements that are missing and what would help:
/// `advice` where something does, and `advice_from` with the number of entries where it was not sought among so many. With
/// a baseline, the member `baseline` is `new` or `known`. Of a package that passes nothing is said.
///
/// # Errors
///
/// Memory was refused, and the text is as it was.
pub fn put_json(alloc: Global, text: &mut Vec<u8>, report: &Report<'_>) -> Result<(), AllocError>
    ensures ok { OnOk result (text.new.items ≡ text.old.items ++ json_lines report.now) }
    ensures err { OnErr result (text.new.items ≡ text.old.items) }
    ensures reads_back { OnOk result (is_refused report.now.verdict ≡ true →
        document (json_text report.now) ≡ Some (json_of report.now)) }
    ensures one_line { HasNoNewline (json_text report.now) }
{
    if !report.verdict.is_refused() {
        return Ok(());
    }
    let line = report_line(alloc, report)?;
    text.extend_from_slice(line.as_slice())?;
    Ok(())
}

fn report_line(alloc: Global, report: &Report<'_>) -> Result<Vec<u8>, AllocError>
    ensures line { IfOk result (λ line. line.items ≡ json_line report.now) }
    ensures reads_back { OnOk result (
        document (json_text report.now) ≡ Some (json_of report.now)) }
{
    let mut writer = Writer::new(Vec::new(alloc));
    writer.begin_object()?;
    put_package_members(&mut writer, report)?;
    put_verdict_members(&mut writer, report)?;
    put_why_members(&mut writer, report)?;
    let mut line = writer.into_inner();
    line.push(b'\n')?;
    Ok(line)
}

fn put_package_members(writer: &mut Writer, report: &Report<'_>) -> Result<(), AllocError>
    ensures tokens { OnOk result (
        writer.new.tokens ≡ writer.old.tokens ++ package_tokens report.now) }
    ensures before { OnOk result (writer.new.before ≡ writer.old.before) }
{
    writer.key("file")?;
    writer.string(report.file)?;
    writer.key("name")?;
    writer.string(report.name)?;
    writer.key("version")?;
    put_version_value(writer, report.version)?;
    Ok(())
}

fn put_version_value(writer: &mut Writer, version: Option<&str>) -> Result<(), AllocError>
    ensures tokens { OnOk result (
        writer.new.tokens ≡ writer.old.tokens ++ json_tokens (version_json version.entry)) }
    ensures before { OnOk result (writer.new.before ≡ writer.old.before) }
{
    match version {
        None => writer.null(),
        Some(version) => writer.string(version),
    }
}

fn put_verdict_members(writer: &mut Writer, report: &Report<'_>) -> Result<(), AllocError>
    ensures tokens { OnOk result (
        writer.new.tokens ≡ writer.old.tokens ++ verdict_tokens report.now) }
    ensures before { OnOk result (writer.new.before ≡ writer.old.before) }
{
    writer.key("expression")?;
    writer.string(report.expression)?;
    writer.key("verdict")?;
    writer.string(report.verdict.word())?;
    put_baseline_member(writer, report.baseline)?;
    Ok(())
}

fn put_baseline_member(writer: &mut Writer, baseline: Baseline) -> Result<(), AllocError>
    ensures tokens { OnOk result (
        writer.new.tokens ≡ writer.old.tokens ++ baseline_tokens baseline) }
    ensures before { OnOk result (writer.new.before ≡ writer.old.before) }
{
    match baseline {
        Baseline::Absent => Ok(()),
        Baseline::New => put_state(writer, "new"),
        Baseline::Known => put_state(writer, "known"),
    }
}

fn put_state(writer: &mut Writer, state: &str) -> Result<(), AllocError>
    ensures tokens { OnOk result (
        writer.new.tokens ≡ writer.old.tokens ++ state_tokens state.now) }
    ensures before { OnOk result (writer.new.before ≡ writer.old.before) }
{
    writer.key("baseline")?;
    writer.string(state)?;
    Ok(())
}

// Why, and the end of the object.
fn put_why_members(writer: &mut Writer, report: &Report<'_>) -> Result<(), AllocError>
    ensures tokens { OnOk result (writer.new.tokens ≡ writer.old.tokens
        ++ members_tokens (why_members report.now.why)) }
    ensures before { OnOk result (writer.new.before ≡ writer.old.before) }
{
    match report.why {
        Why::Nothing => writer.end_object(),
        Why::Fault { reason, start, end } => put_fault_members(writer, reason, start, end),
        Why::Missing { leaves, advice } => {
            writer.key("missing")?;
            put_leaf_texts(writer, leaves)?;
            put_advice_members(writer, advice)?;
            Ok(())
        }
    }
}

fn put_fault_members(
    writer: &mut Writer,
    reason: &str,
    start: usize,
    end: usize,
) -> Result<(), AllocError>
    ensures tokens { OnOk result (writer.new.tokens ≡
        writer.old.tokens ++ members_tokens (fault_members reason.now start end)) }
    ensures before { OnOk result (writer.new.before ≡ writer.old.before) }
{
    writer.key("reason")?;
    writer.string(reason)?;
    writer.key("start")?;
    writer.u64(start as u64)?;
    writer.key("end")?;
    writer.u64(end as u64)?;
    writer.end_object()?;
    Ok(())
}

fn put_leaf_texts(writer: &mut Writer, leaves: &[Leaf<'_>]) -> Result<(), AllocError>
    ensures tokens { OnOk result (
        writer.new.tokens ≡ writer.old.tokens ++ json_tokens (array (leaf_texts leaves.now))) }
    ensures before { OnOk result (writer.new.before ≡ writer.old.before) }
{
    writer.begin_array()?;
    for leaf in leaves {
        writer.string(leaf.text)?;
    }
    writer.end_array()?;
    Ok(())
}

fn put_advice_members(writer: &mut Writer, advice: Advice<'_>) -> Result<(), AllocError>
    ensures tokens { OnOk result (writer.new.tokens ≡ writer.old.tokens
        ++ members_tokens (advice_members advice.entry)) }
    ensures before { OnOk result (writer.new.before ≡ writer.old.before) }
{
    match advice {
        Advice::Unmet => writer.end_object(),
        Advice::Allow(names) => {
            writer.key("advice")?;
            put_texts(writer, names)?;
            writer.end_object()?;
            Ok(())
        }
        Advice::NotSought { entries } => {
            writer.key("advice_from")?;
            writer.u64(entries as u64)?;
            writer.end_object()?;
            Ok(())
        }
    }
}

fn put_texts(writer: &mut Writer, texts: &[&str]) -> Result<(), AllocError>
    ensures tokens { OnOk result (writer.new.tokens ≡ writer.old.tokens
        ++ json_tokens (array (texts_of (map (λ (x : Bor (List ℕ)). x.now) texts.now)))) }
    ensures before { OnOk result (writer.new.before ≡ writer.old.before) }
{
    writer.begin_array()?;
    for text in texts {
        writer.string(text)?;
    }
    writer.end_array()?;
    Ok(())
}

impl Verdict {
    // The word for machines.
    pub(crate) fn word(self) -> &'static str
        ensures { result.now ≡ verdict_word self }
    {
        match self {
            Verdict::Allowed => "allowed",
            Verdict::ByException => "allowed by exception",
            Verdict::Refused => "refused",
            Verdict::Unstated { .. } => "unstated",
        }
    }
}
