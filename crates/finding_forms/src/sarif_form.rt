// A log of SARIF 2.1.0.

ghost use Rattle.std.specs.Prelude.{◌≡◌, ◌++◌, ◌∷◌, [], OnOk, OnErr, IfOk, if◌then◌else◌};
ghost use Rattle.json.specs.Tree.{json_tokens, members_tokens};
ghost use Rattle.finding_forms.specs.Finding.{told};
ghost use Rattle.finding_forms.specs.Message.{message_text};
ghost use Rattle.finding_forms.specs.Sarif.{LogReadsBack, fix, fix_members, location, region, region_tokens, replacement, result_of, sarif_result};
ghost use Rattle.finding_forms.specs.SarifLog.{artifact, sarif_beginning, sarif_ending, text_object, tool_tokens};

use crate::findings::{Finding, Help, Place, column_behind};
use crate::messages::put_message;
use crate::rules::rule_name;
use foreign_text::{Sink, text_for};
use json::Writer;
use std::alloc::{AllocError, Global};

/// Appends what stands before all results: the log, its one run, and its tool, in the version that is given.
///
/// # Errors
///
/// Memory was refused, and the text is as it was.
pub fn put_sarif_beginning(
    alloc: Global,
    text: &mut Vec<u8>,
    version: &str,
) -> Result<(), AllocError>
    ensures ok { OnOk result (text.new.items ≡ text.old.items ++ sarif_beginning version.now) }
    ensures err { OnErr result (text.new.items ≡ text.old.items) }
{
    let beginning = beginning(alloc, version)?;
    text.extend_from_slice(beginning.as_slice())
}

/// Appends a finding as a result, behind a comma where it isn't the first.
///
/// # Errors
///
/// Memory was refused, and the text is as it was.
pub fn put_sarif_result(
    alloc: Global,
    text: &mut Vec<u8>,
    is_first: bool,
    finding: &Finding<'_>,
) -> Result<(), AllocError>
    ensures ok { OnOk result (text.new.items ≡ text.old.items
        ++ ((if is_first then [] else 44 ∷ []) ++ sarif_result (told finding.now))) }
    ensures err { OnErr result (text.new.items ≡ text.old.items) }
{
    let result = result_text(alloc, is_first, finding)?;
    text.extend_from_slice(result.as_slice())
}

/// Appends what stands behind all results. A log of any findings reads back as those findings.
///
/// # Errors
///
/// Memory was refused, and the text is as it was.
pub fn put_sarif_ending(text: &mut Vec<u8>) -> Result<(), AllocError>
    ensures ok { OnOk result (text.new.items ≡ text.old.items ++ sarif_ending) }
    ensures err { OnErr result (text.new.items ≡ text.old.items) }
    ensures reads_back { LogReadsBack }
{
    text.extend_from_slice(b"]}]}\n")
}

fn beginning(alloc: Global, version: &str) -> Result<Vec<u8>, AllocError>
    ensures { IfOk result (λ text. text.items ≡ sarif_beginning version.now) }
{
    let mut writer = Writer::new(Vec::new(alloc));
    writer.begin_object()?;
    writer.key("$schema")?;
    writer.string("https://json.schemastore.org/sarif-2.1.0.json")?;
    writer.key("version")?;
    writer.string("2.1.0")?;
    writer.key("runs")?;
    writer.begin_array()?;
    writer.begin_object()?;
    put_tool(&mut writer, version)?;
    writer.key("columnKind")?;
    writer.string("unicodeCodePoints")?;
    writer.key("results")?;
    writer.begin_array()?;
    Ok(writer.into_inner())
}

fn put_tool(writer: &mut Writer, version: &str) -> Result<(), AllocError>
    ensures tokens { OnOk result (
        writer.new.tokens ≡ writer.old.tokens ++ tool_tokens version.now) }
    ensures before { OnOk result (writer.new.before ≡ writer.old.before) }
{
    writer.key("tool")?;
    writer.begin_object()?;
    writer.key("driver")?;
    writer.begin_object()?;
    writer.key("name")?;
    writer.string("spdx")?;
    writer.key("version")?;
    writer.string(version)?;
    writer.end_object()?;
    writer.end_object()?;
    Ok(())
}

fn result_text(alloc: Global, is_first: bool, finding: &Finding<'_>) -> Result<Vec<u8>, AllocError>
    ensures { IfOk result (λ text. text.items
        ≡ (if is_first then [] else 44 ∷ []) ++ sarif_result (told finding.now)) }
{
    let mut text = Vec::new(alloc);
    if !is_first {
        text.push(b',')?;
    }
    let mut writer = Writer::new(text);
    put_result(alloc, &mut writer, finding)?;
    Ok(writer.into_inner())
}

fn put_result(alloc: Global, writer: &mut Writer, finding: &Finding<'_>) -> Result<(), AllocError>
    ensures tokens { OnOk result (
        writer.new.tokens ≡ writer.old.tokens ++ json_tokens (result_of (told finding.now))) }
    ensures before { OnOk result (writer.new.before ≡ writer.old.before) }
{
    let rule = rule_name(alloc, finding.reason)?;
    let path = text_for(alloc, Sink::Path, finding.place.file)?;
    writer.begin_object()?;
    writer.key("ruleId")?;
    writer.string(rule.as_str())?;
    writer.key("level")?;
    writer.string("error")?;
    writer.key("message")?;
    put_message_object(alloc, writer, finding)?;
    writer.key("locations")?;
    writer.begin_array()?;
    put_location(writer, path.as_str(), finding)?;
    writer.end_array()?;
    put_fixes(writer, path.as_str(), finding)?;
    Ok(())
}

fn put_message_object(
    alloc: Global,
    writer: &mut Writer,
    finding: &Finding<'_>,
) -> Result<(), AllocError>
    ensures tokens { OnOk result (writer.new.tokens ≡
        writer.old.tokens
        ++ json_tokens (text_object (message_text Sink.Message (told finding.now)))) }
    ensures before { OnOk result (writer.new.before ≡ writer.old.before) }
{
    let mut message = String::new(alloc);
    put_message(&mut message, Sink::Message, finding)?;
    put_text_object(writer, message.as_str())?;
    Ok(())
}

fn put_text_object(writer: &mut Writer, text: &str) -> Result<(), AllocError>
    ensures tokens { OnOk result (
        writer.new.tokens ≡ writer.old.tokens ++ json_tokens (text_object text.now)) }
    ensures before { OnOk result (writer.new.before ≡ writer.old.before) }
{
    writer.begin_object()?;
    writer.key("text")?;
    writer.string(text)?;
    writer.end_object()?;
    Ok(())
}

fn put_artifact(writer: &mut Writer, path: &str) -> Result<(), AllocError>
    ensures tokens { OnOk result (
        writer.new.tokens ≡ writer.old.tokens ++ json_tokens (artifact path.now)) }
    ensures before { OnOk result (writer.new.before ≡ writer.old.before) }
{
    writer.begin_object()?;
    writer.key("uri")?;
    writer.string(path)?;
    writer.end_object()?;
    Ok(())
}

fn put_location(writer: &mut Writer, path: &str, finding: &Finding<'_>) -> Result<(), AllocError>
    ensures tokens { OnOk result (writer.new.tokens ≡
        writer.old.tokens ++ json_tokens (location path.now (told finding.now))) }
    ensures before { OnOk result (writer.new.before ≡ writer.old.before) }
{
    let Place { line, column, .. } = finding.place;
    writer.begin_object()?;
    writer.key("physicalLocation")?;
    writer.begin_object()?;
    writer.key("artifactLocation")?;
    put_artifact(writer, path)?;
    writer.key("region")?;
    let sight = finding.sight();
    put_region(writer, sight.line, sight.column, finding.fault())?;
    writer.key("contextRegion")?;
    put_region(writer, line, column, finding.expression)?;
    writer.end_object()?;
    writer.end_object()?;
    Ok(())
}

fn put_region(writer: &mut Writer, line: u64, column: u64, text: &str) -> Result<(), AllocError>
    ensures tokens { OnOk result (
        writer.new.tokens ≡ writer.old.tokens ++ json_tokens (region line column text.now)) }
    ensures before { OnOk result (writer.new.before ≡ writer.old.before) }
{
    writer.begin_object()?;
    put_region_members(writer, line, column, text)?;
    writer.key("snippet")?;
    put_text_object(writer, text)?;
    writer.end_object()?;
    Ok(())
}

fn put_region_members(
    writer: &mut Writer,
    line: u64,
    column: u64,
    text: &str,
) -> Result<(), AllocError>
    ensures tokens { OnOk result (
        writer.new.tokens ≡ writer.old.tokens ++ region_tokens line column text.now) }
    ensures before { OnOk result (writer.new.before ≡ writer.old.before) }
{
    writer.key("startLine")?;
    writer.u64(line)?;
    writer.key("startColumn")?;
    writer.u64(column)?;
    writer.key("endColumn")?;
    writer.u64(column_behind(column, text))?;
    Ok(())
}

// The mended text in the place of the expression, where there is one, and the end of the result.
fn put_fixes(writer: &mut Writer, path: &str, finding: &Finding<'_>) -> Result<(), AllocError>
    ensures tokens { OnOk result (writer.new.tokens ≡ writer.old.tokens
        ++ members_tokens (fix_members path.now (told finding.now))) }
    ensures before { OnOk result (writer.new.before ≡ writer.old.before) }
{
    if let Help::Write(mended) = finding.help {
        writer.key("fixes")?;
        writer.begin_array()?;
        put_fix(writer, path, finding, mended)?;
        writer.end_array()?;
    }
    writer.end_object()?;
    Ok(())
}

fn put_fix(
    writer: &mut Writer,
    path: &str,
    finding: &Finding<'_>,
    mended: &str,
) -> Result<(), AllocError>
    ensures tokens { OnOk result (writer.new.tokens ≡ writer.old.tokens
        ++ json_tokens (fix path.now (told finding.now) mended.now)) }
    ensures before { OnOk result (writer.new.before ≡ writer.old.before) }
{
    writer.begin_object()?;
    writer.key("artifactChanges")?;
    writer.begin_array()?;
    writer.begin_object()?;
    writer.key("artifactLocation")?;
    put_artifact(writer, path)?;
    writer.key("replacements")?;
    writer.begin_array()?;
    put_replacement(writer, finding, mended)?;
    writer.end_array()?;
    writer.end_object()?;
    writer.end_array()?;
    writer.end_object()?;
    Ok(())
}

fn put_replacement(
    writer: &mut Writer,
    finding: &Finding<'_>,
    mended: &str,
) -> Result<(), AllocError>
    ensures tokens { OnOk result (writer.new.tokens ≡ writer.old.tokens
        ++ json_tokens (replacement (told finding.now) mended.now)) }
    ensures before { OnOk result (writer.new.before ≡ writer.old.before) }
{
    let Place { line, column, .. } = finding.place;
    writer.begin_object()?;
    writer.key("deletedRegion")?;
    writer.begin_object()?;
    put_region_members(writer, line, column, finding.expression)?;
    writer.end_object()?;
    writer.key("insertedContent")?;
    put_text_object(writer, mended)?;
    writer.end_object()?;
    Ok(())
}
