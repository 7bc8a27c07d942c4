// The texts that a manifest of JSON declares.

ghost use Rattle.std.specs.Prelude.{◌≡◌, ◌++◌, IfOk, OnOk, codes, map, option_map};
ghost use Rattle.std.specs.Option.{option_copied, option_to_list};
ghost use Rattle.serde_json.specs.View.{items_view, view};
ghost use Rattle.manifests.specs.Json as spec;
ghost use Rattle.manifests.specs.Steps.{json_steps};

use json_places::{Path, Step};
use serde_json::Value;
use std::alloc::{AllocError, Global};

/// The texts that a document declares, and the way to each of them.
#[derive(Drop)]
pub(crate) struct JsonTexts<'d> {
    pub(crate) texts: Vec<&'d str>,
    pub(crate) paths: Vec<Path<'static>>,
}

// The text that a value is, or that an object has at `type`.
fn text_in<'d>(value: &'d Value) -> Option<&'d str>
    ensures { option_copied result ≡ spec.text_in (view value.now) }
{
    match value {
        Value::String(text) => Some(text.as_str()),
        _ => value.get("type")?.as_str(),
    }
}

fn is_text(value: &Value) -> bool
    ensures { result ≡ spec.is_text (view value.now) }
{
    matches!(value, Value::String(_))
}

// The way to the text in a value that is at an item of a member, or at the member itself.
fn path_to(
    alloc: Global,
    key: &'static str,
    item: Option<usize>,
    value: &Value,
) -> Result<Path<'static>, AllocError>
    ensures { IfOk result (λ path.
        json_steps path ≡ spec.way_in (spec.steps_to key.now item) (view value.now)) }
{
    let mut steps = Vec::new(alloc);
    steps.push(Step::Key(key))?;
    if let Some(index) = item {
        steps.push(Step::Item(index))?;
    }
    if !is_text(value) {
        steps.push(Step::Key("type"))?;
    }
    Ok(Path { steps })
}

// Adds the text in a value.
fn push_text<'d>(
    alloc: Global,
    found: &mut JsonTexts<'d>,
    key: &'static str,
    item: Option<usize>,
    value: &'d Value,
) -> Result<(), AllocError>
    ensures texts { OnOk result (map (λ t. t.now) found.new.texts.items ≡
        map (λ t. t.now) found.old.texts.items ++ option_to_list (spec.text_in (view value.now))) }
    ensures paths { OnOk result (map json_steps found.new.paths.items ≡
        map json_steps found.old.paths.items
        ++ option_to_list (spec.path_in (spec.steps_to key.now item) (view value.now))) }
{
    if let Some(text) = text_in(value) {
        found.texts.push(text)?;
        found.paths.push(path_to(alloc, key, item, value)?)?;
    }
    Ok(())
}

// Adds the texts among the items of a member.
fn push_items<'d>(
    alloc: Global,
    found: &mut JsonTexts<'d>,
    key: &'static str,
    items: &'d Vec<Value>,
) -> Result<(), AllocError>
    ensures texts { OnOk result (map (λ t. t.now) found.new.texts.items ≡
        map (λ t. t.now) found.old.texts.items ++ spec.texts_among (items_view items.now.items)) }
    ensures paths { OnOk result (map json_steps found.new.paths.items ≡
        map json_steps found.old.paths.items
        ++ spec.paths_among key.now 0 (items_view items.now.items)) }
{
    for (index, item) in items.iter().enumerate() {
        push_text(alloc, found, key, Some(index), item)?;
    }
    Ok(())
}

// Adds the texts at a member.
fn push_member<'d>(
    alloc: Global,
    found: &mut JsonTexts<'d>,
    key: &'static str,
    document: &'d Value,
) -> Result<(), AllocError>
    ensures texts { OnOk result (map (λ t. t.now) found.new.texts.items ≡
        map (λ t. t.now) found.old.texts.items ++ spec.texts_at key.now (view document.now)) }
    ensures paths { OnOk result (map json_steps found.new.paths.items ≡
        map json_steps found.old.paths.items ++ spec.paths_at key.now (view document.now)) }
{
    match document.get(key) {
        None => Ok(()),
        Some(Value::Array(items)) => push_items(alloc, found, key, items),
        Some(value) => push_text(alloc, found, key, None, value),
    }
}

/// The texts that a document has at `license` and at `licenses`: one, those of a list, or those that objects have at `type`.
pub(crate) fn license_texts<'d>(
    alloc: Global,
    document: &'d Value,
) -> Result<JsonTexts<'d>, AllocError>
    ensures texts { IfOk result (λ found.
        map (λ t. t.now) found.texts.items ≡ spec.license_texts (view document.now)) }
    ensures paths { IfOk result (λ found.
        map json_steps found.paths.items ≡ spec.license_paths (view document.now)) }
{
    let mut found = JsonTexts {
        texts: Vec::new(alloc),
        paths: Vec::new(alloc),
    };
    push_member(alloc, &mut found, "license", document)?;
    push_member(alloc, &mut found, "licenses", document)?;
    Ok(found)
}
