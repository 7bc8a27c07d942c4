// The changes as one document of JSON.

ghost use Rattle.std.specs.Prelude.{◌≡◌, ◌∷◌, ◌++◌, [], Some, OnOk, IfOk};
ghost use Rattle.json.specs.Json.{document, array, string, boolean};
ghost use Rattle.json.specs.Tree.{json_tokens};
ghost use Rattle.package_changes.specs.Json.{text_json, side_json, json_of, items_of, json_of_all, json_text, member_tokens, what_tokens, why_tokens};

use crate::tellings::{Release, Telling};
use json::Writer;
use std::alloc::{AllocError, Global};

/// The document, and a newline.
pub(crate) fn json_document(alloc: Global, tellings: &[Telling<'_>]) -> Result<Vec<u8>, AllocError>
    ensures text { IfOk result (λ text. text.items ≡ json_text tellings.now ++ 10 ∷ []) }
    ensures reads_back { IfOk result (λ text.
        document (json_text tellings.now) ≡ Some (json_of_all tellings.now)) }
{
    let mut writer = Writer::new(Vec::new(alloc));
    writer.begin_object()?;
    writer.key("changes")?;
    put_list(&mut writer, tellings)?;
    writer.end_object()?;
    let mut text = writer.into_inner();
    text.push(b'\n')?;
    Ok(text)
}

fn put_list(writer: &mut Writer, tellings: &[Telling<'_>]) -> Result<(), AllocError>
    ensures tokens { OnOk result (writer.new.tokens
        ≡ writer.old.tokens ++ json_tokens (array (items_of tellings.now))) }
    ensures before { OnOk result (writer.new.before ≡ writer.old.before) }
{
    writer.begin_array()?;
    for telling in tellings {
        put_telling(writer, telling)?;
    }
    writer.end_array()?;
    Ok(())
}

fn put_telling(writer: &mut Writer, telling: &Telling<'_>) -> Result<(), AllocError>
    ensures tokens { OnOk result (writer.new.tokens
        ≡ writer.old.tokens ++ json_tokens (json_of telling.now)) }
    ensures before { OnOk result (writer.new.before ≡ writer.old.before) }
{
    writer.begin_object()?;
    put_what(writer, telling)?;
    put_why(writer, telling)?;
    writer.end_object()?;
    Ok(())
}

fn put_what(writer: &mut Writer, telling: &Telling<'_>) -> Result<(), AllocError>
    ensures tokens { OnOk result (writer.new.tokens
        ≡ writer.old.tokens ++ what_tokens telling.now) }
    ensures before { OnOk result (writer.new.before ≡ writer.old.before) }
{
    writer.key("change")?;
    writer.string(telling.how.name())?;
    writer.key("name")?;
    writer.string(telling.name)?;
    put_side_member(writer, "old", &telling.old)?;
    put_side_member(writer, "new", &telling.new)?;
    Ok(())
}

fn put_side_member(
    writer: &mut Writer,
    key: &str,
    side: &Option<Release<'_>>,
) -> Result<(), AllocError>
    ensures tokens { OnOk result (writer.new.tokens
        ≡ writer.old.tokens ++ member_tokens key.now (side_json side.now)) }
    ensures before { OnOk result (writer.new.before ≡ writer.old.before) }
{
    writer.key(key)?;
    let Some(release) = side else {
        writer.null()?;
        return Ok(());
    };
    put_release(writer, release)
}

fn put_release(writer: &mut Writer, release: &Release<'_>) -> Result<(), AllocError>
    ensures tokens { OnOk result (writer.new.tokens
        ≡ writer.old.tokens ++ json_tokens (side_json (Some release.now))) }
    ensures before { OnOk result (writer.new.before ≡ writer.old.before) }
{
    writer.begin_object()?;
    put_text_member(writer, "version", release.version)?;
    put_text_member(writer, "license", release.license)?;
    writer.end_object()?;
    Ok(())
}

fn put_text_member(writer: &mut Writer, key: &str, text: &str) -> Result<(), AllocError>
    ensures tokens { OnOk result (writer.new.tokens
        ≡ writer.old.tokens ++ member_tokens key.now (text_json text.now)) }
    ensures before { OnOk result (writer.new.before ≡ writer.old.before) }
{
    writer.key(key)?;
    if text.is_empty() {
        writer.null()?;
    } else {
        writer.string(text)?;
    }
    Ok(())
}

fn put_why(writer: &mut Writer, telling: &Telling<'_>) -> Result<(), AllocError>
    ensures tokens { OnOk result (writer.new.tokens
        ≡ writer.old.tokens ++ why_tokens telling.now) }
    ensures before { OnOk result (writer.new.before ≡ writer.old.before) }
{
    put_text_member(writer, "enough_before", telling.enough_before)?;
    put_text_member(writer, "enough_now", telling.enough_now)?;
    put_text_member(writer, "untold_before", telling.untold_before.name())?;
    put_text_member(writer, "untold_now", telling.untold_now.name())?;
    writer.key("refused")?;
    writer.boolean(telling.is_refused)?;
    Ok(())
}
