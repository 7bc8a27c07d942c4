// A log of SARIF 2.1.0: a result for each package that is refused.

ghost use Rattle.std.specs.Prelude.{◌≡◌, ◌++◌, ◌∷◌, [], OnOk, OnErr, IfOk, if◌then◌else◌};
ghost use Rattle.json.specs.Tree.{json_tokens};
ghost use Rattle.finding_forms.specs.SarifLog.{artifact, text_object, sarif_beginning, sarif_ending};
ghost use Rattle.gate_forms.specs.Report.{message_text};
ghost use Rattle.gate_forms.specs.Sarif.{LogReadsBack, level_tokens, location, result_of, sarif_result, sarif_text, state_tokens, text_tokens};

use crate::messages::put_message;
use crate::reports::{Baseline, Report};
use foreign_text::{Sink, text_for};
use json::Writer;
use std::alloc::{AllocError, Global};

/// Appends what stands before all results. The version is that of the program.
///
/// # Errors
///
/// Memory was refused, and the text is as it was.
pub fn put_sarif_beginning(
    alloc: Global,
    text: &mut Vec<u8>,
    version: &str,
) -> Result<(), AllocError>
    ensures ok { OnOk result (text.new.items ≡ text.old.items ++ sarif_beginning version.now) }
    ensures err { OnErr result (text.new.items ≡ text.old.items) }
{
    finding_forms::put_sarif_beginning(alloc, text, version)
}

/// Appends a refused package as a result, behind a comma where it isn't the first. With a baseline it has a
/// `baselineState`, and one that is known is a note, and no error. Of a package that passes nothing is said.
///
/// # Errors
///
/// Memory was refused, and the text is as it was.
pub fn put_sarif_result(
    alloc: Global,
    text: &mut Vec<u8>,
    is_first: bool,
    report: &Report<'_>,
) -> Result<(), AllocError>
    ensures ok { OnOk result (
        text.new.items ≡ text.old.items ++ sarif_text is_first report.now) }
    ensures err { OnErr result (text.new.items ≡ text.old.items) }
{
    if !report.verdict.is_refused() {
        return Ok(());
    }
    let result = result_text(alloc, is_first, report)?;
    text.extend_from_slice(result.as_slice())
}

/// Appends what stands behind all results. A log of any refused packages reads back as their results.
///
/// # Errors
///
/// Memory was refused, and the text is as it was.
pub fn put_sarif_ending(text: &mut Vec<u8>) -> Result<(), AllocError>
    ensures ok { OnOk result (text.new.items ≡ text.old.items ++ sarif_ending) }
    ensures err { OnErr result (text.new.items ≡ text.old.items) }
    ensures reads_back { LogReadsBack }
{
    finding_forms::put_sarif_ending(text)
}

fn result_text(alloc: Global, is_first: bool, report: &Report<'_>) -> Result<Vec<u8>, AllocError>
    ensures { IfOk result (λ text. text.items
        ≡ (if is_first then [] else 44 ∷ []) ++ sarif_result report.now) }
{
    let mut text = Vec::new(alloc);
    if !is_first {
        text.push(b',')?;
    }
    let mut writer = Writer::new(text);
    put_result(alloc, &mut writer, report)?;
    Ok(writer.into_inner())
}

fn put_result(alloc: Global, writer: &mut Writer, report: &Report<'_>) -> Result<(), AllocError>
    ensures tokens { OnOk result (
        writer.new.tokens ≡ writer.old.tokens ++ json_tokens (result_of report.now)) }
    ensures before { OnOk result (writer.new.before ≡ writer.old.before) }
{
    writer.begin_object()?;
    writer.key("ruleId")?;
    writer.string(report.verdict.word())?;
    put_level(writer, report.baseline)?;
    writer.key("message")?;
    put_message_object(alloc, writer, report)?;
    writer.key("locations")?;
    writer.begin_array()?;
    put_location(alloc, writer, report)?;
    writer.end_array()?;
    writer.end_object()?;
    Ok(())
}

// How much a result counts, and whether it is known, where there is a baseline.
fn put_level(writer: &mut Writer, baseline: Baseline) -> Result<(), AllocError>
    ensures tokens { OnOk result (writer.new.tokens ≡ writer.old.tokens ++ level_tokens baseline) }
    ensures before { OnOk result (writer.new.before ≡ writer.old.before) }
{
    match baseline {
        Baseline::Absent => put_text_member(writer, "level", "error"),
        Baseline::New => put_state(writer, "error", "new"),
        Baseline::Known => put_state(writer, "note", "unchanged"),
    }
}

fn put_state(writer: &mut Writer, level: &str, state: &str) -> Result<(), AllocError>
    ensures tokens { OnOk result (
        writer.new.tokens ≡ writer.old.tokens ++ state_tokens level.now state.now) }
    ensures before { OnOk result (writer.new.before ≡ writer.old.before) }
{
    put_text_member(writer, "level", level)?;
    put_text_member(writer, "baselineState", state)?;
    Ok(())
}

fn put_text_member(writer: &mut Writer, key: &str, text: &str) -> Result<(), AllocError>
    ensures tokens { OnOk result (
        writer.new.tokens ≡ writer.old.tokens ++ text_tokens key.now text.now) }
    ensures before { OnOk result (writer.new.before ≡ writer.old.before) }
{
    writer.key(key)?;
    writer.string(text)?;
    Ok(())
}

fn put_message_object(
    alloc: Global,
    writer: &mut Writer,
    report: &Report<'_>,
) -> Result<(), AllocError>
    ensures tokens { OnOk result (writer.new.tokens ≡
        writer.old.tokens ++ json_tokens (text_object (message_text Sink.Message report.now))) }
    ensures before { OnOk result (writer.new.before ≡ writer.old.before) }
{
    let mut message = String::new(alloc);
    put_message(&mut message, Sink::Message, report)?;
    writer.begin_object()?;
    writer.key("text")?;
    writer.string(message.as_str())?;
    writer.end_object()?;
    Ok(())
}

fn put_location(alloc: Global, writer: &mut Writer, report: &Report<'_>) -> Result<(), AllocError>
    ensures tokens { OnOk result (
        writer.new.tokens ≡ writer.old.tokens ++ json_tokens (location report.now)) }
    ensures before { OnOk result (writer.new.before ≡ writer.old.before) }
{
    let path = text_for(alloc, Sink::Path, report.file)?;
    writer.begin_object()?;
    writer.key("physicalLocation")?;
    writer.begin_object()?;
    writer.key("artifactLocation")?;
    put_artifact(writer, path.as_str())?;
    writer.end_object()?;
    writer.end_object()?;
    Ok(())
}

fn put_artifact(writer: &mut Writer, path: &str) -> Result<(), AllocError>
    ensures tokens { OnOk result (
        writer.new.tokens ≡ writer.old.tokens ++ json_tokens (artifact path.now)) }
    ensures before { OnOk result (writer.new.before ≡ writer.old.before) }
{
    writer.begin_object()?;
    writer.key("uri")?;
    writer.string(path)?;
    writer.end_object()?;
    Ok(())
}
