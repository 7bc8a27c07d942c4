// A line of JSON for each finding.

ghost use Rattle.std.specs.Prelude.{◌≡◌, ℕ, ◌++◌, List, Some, OnOk, OnErr, IfOk, map};
ghost use Rattle.std.specs.Borrow.{Bor};
ghost use Rattle.json.specs.Json.{document, array};
ghost use Rattle.json.specs.Tree.{json_tokens, members_tokens};
ghost use Rattle.finding_forms.specs.Finding.{told, aid_of};
ghost use Rattle.finding_forms.specs.JsonTokens.{place_tokens, fault_tokens};
ghost use Rattle.finding_forms.specs.Json.{HasNoNewline, aid_members, texts_of, json_of, json_text, json_line};

use crate::findings::{Finding, Help};
use json::Writer;
use std::alloc::{AllocError, Global};

/// Appends a finding as a line of JSON, which reads back as the finding. Line and column are those of the fault, and
/// `start` and `end` its bytes in the expression.
///
/// # Errors
///
/// Memory was refused, and the text is as it was.
pub fn put_json(alloc: Global, text: &mut Vec<u8>, finding: &Finding<'_>) -> Result<(), AllocError>
    ensures ok { OnOk result (text.new.items ≡ text.old.items ++ json_line (told finding.now)) }
    ensures err { OnErr result (text.new.items ≡ text.old.items) }
    ensures reads_back { OnOk result (
        document (json_text (told finding.now)) ≡ Some (json_of (told finding.now))) }
    ensures one_line { OnOk result (HasNoNewline (json_text (told finding.now))) }
{
    let line = finding_line(alloc, finding)?;
    text.extend_from_slice(line.as_slice())?;
    Ok(())
}

fn finding_line(alloc: Global, finding: &Finding<'_>) -> Result<Vec<u8>, AllocError>
    ensures line { IfOk result (λ line. line.items ≡ json_line (told finding.now)) }
    ensures reads_back { OnOk result (
        document (json_text (told finding.now)) ≡ Some (json_of (told finding.now))) }
{
    let mut writer = Writer::new(Vec::new(alloc));
    writer.begin_object()?;
    put_place(&mut writer, finding)?;
    put_fault(&mut writer, finding)?;
    put_aid(&mut writer, &finding.help)?;
    let mut line = writer.into_inner();
    line.push(b'\n')?;
    Ok(line)
}

fn put_place(writer: &mut Writer, finding: &Finding<'_>) -> Result<(), AllocError>
    ensures tokens { OnOk result (
        writer.new.tokens ≡ writer.old.tokens ++ place_tokens (told finding.now)) }
    ensures before { OnOk result (writer.new.before ≡ writer.old.before) }
{
    writer.key("file")?;
    writer.string(finding.place.file)?;
    writer.key("line")?;
    let sight = finding.sight();
    writer.u64(sight.line)?;
    writer.key("column")?;
    writer.u64(sight.column)?;
    Ok(())
}

fn put_fault(writer: &mut Writer, finding: &Finding<'_>) -> Result<(), AllocError>
    ensures tokens { OnOk result (
        writer.new.tokens ≡ writer.old.tokens ++ fault_tokens (told finding.now)) }
    ensures before { OnOk result (writer.new.before ≡ writer.old.before) }
{
    writer.key("expression")?;
    writer.string(finding.expression)?;
    writer.key("verdict")?;
    writer.string("refused")?;
    writer.key("start")?;
    writer.u64(finding.from() as u64)?;
    writer.key("end")?;
    writer.u64(finding.to() as u64)?;
    writer.key("reason")?;
    writer.string(finding.reason)?;
    Ok(())
}

// What helps, and the end of the object.
fn put_aid(writer: &mut Writer, help: &Help<'_>) -> Result<(), AllocError>
    ensures tokens { OnOk result (
        writer.new.tokens ≡ writer.old.tokens ++ members_tokens (aid_members (aid_of help.now))) }
    ensures before { OnOk result (writer.new.before ≡ writer.old.before) }
{
    match help {
        Help::Write(mended) => {
            writer.key("fix")?;
            writer.string(mended)?;
        }
        Help::Names { names, rule } if !names.is_empty() => {
            writer.key("hints")?;
            put_texts(writer, names)?;
            writer.key("rule")?;
            writer.string(rule)?;
        }
        Help::Note(words) => {
            writer.key("note")?;
            writer.string(words)?;
        }
        Help::Nothing | Help::Names { names: _, rule: _ } => {}
    }
    writer.end_object()?;
    Ok(())
}

fn put_texts(writer: &mut Writer, texts: &[&str]) -> Result<(), AllocError>
    ensures tokens { OnOk result (writer.new.tokens ≡ writer.old.tokens
        ++ json_tokens (array (texts_of (map (λ (x : Bor (List ℕ)). x.now) texts.now)))) }
    ensures before { OnOk result (writer.new.before ≡ writer.old.before) }
{
    writer.begin_array()?;
    for text in texts {
        writer.string(text)?;
    }
    writer.end_array()?;
    Ok(())
}
