// The expressions that a manifest of TOML declares.

ghost use Rattle.std.specs.Prelude.{◌≡◌, [], ◌∷◌, ◌++◌, IfOk, OnOk, codes, map, option_map};
ghost use Rattle.std.specs.Option.{option_copied, option_to_list};
ghost use Rattle.toml.specs.Data.{as_str, get_member};
ghost use Rattle.toml.specs.View.{items_view, table_view, view};
ghost use Rattle.manifests.specs.Steps.{Key, toml_steps};
ghost use Rattle.manifests.specs.Toml as spec;

use std::alloc::{AllocError, Global};
use toml::{Table, Value};
use toml_places::{Path, Step};

/// The texts that a document declares, and the way to each of them.
#[derive(Drop)]
pub(crate) struct TomlTexts<'d> {
    pub(crate) texts: Vec<&'d str>,
    pub(crate) paths: Vec<Path<'static>>,
}

fn path_to(
    alloc: Global,
    key: &'static str,
    keys: &[&'static str],
) -> Result<Path<'static>, AllocError>
    ensures { IfOk result (λ path.
        toml_steps path ≡ Key key.now ∷ map Key (map (λ k. k.now) keys.now)) }
{
    let mut steps = Vec::new(alloc);
    steps.push(Step::Key(key))?;
    for key in keys {
        steps.push(Step::Key(*key))?;
    }
    Ok(Path { steps })
}

// What a table has at a key.
pub(crate) fn member<'d>(table: &'d Table, key: &str) -> Option<&'d Value>
    ensures { option_map (λ v. view v.now) result ≡ get_member key.now (table_view table.now) }
{
    table.get(key)
}

// The value that stands behind keys.
fn value_behind<'d>(value: &'d Value, keys: &[&str]) -> Option<&'d Value>
    ensures { option_map (λ v. view v.now) result ≡
        spec.value_behind (map (λ k. k.now) keys.now) (view value.now) }
{
    let mut value = value;
    for key in keys {
        value = value.get(*key)?;
    }
    Some(value)
}

// The text that stands behind a key and others.
fn text_behind<'d>(document: &'d Table, key: &str, keys: &[&str]) -> Option<&'d str>
    ensures { option_to_list (option_copied result) ≡
        spec.text_behind key.now (map (λ k. k.now) keys.now) (table_view document.now) }
{
    value_behind(member(document, key)?, keys)?.as_str()
}

// Adds the text that stands behind a key and others.
fn push_behind<'d>(
    alloc: Global,
    found: &mut TomlTexts<'d>,
    document: &'d Table,
    key: &'static str,
    keys: &[&'static str],
) -> Result<(), AllocError>
    ensures texts { OnOk result (map (λ t. t.now) found.new.texts.items ≡
        map (λ t. t.now) found.old.texts.items
        ++ spec.text_behind key.now (map (λ k. k.now) keys.now) (table_view document.now)) }
    ensures paths { OnOk result (map toml_steps found.new.paths.items ≡
        map toml_steps found.old.paths.items
        ++ spec.path_behind key.now (map (λ k. k.now) keys.now) (table_view document.now)) }
{
    if let Some(text) = text_behind(document, key, keys) {
        found.texts.push(text)?;
        found.paths.push(path_to(alloc, key, keys)?)?;
    }
    Ok(())
}

fn nothing<'d>(alloc: Global) -> TomlTexts<'d>
    ensures texts { result.texts.items ≡ [] }
    ensures paths { result.paths.items ≡ [] }
{
    TomlTexts {
        texts: Vec::new(alloc),
        paths: Vec::new(alloc),
    }
}

/// What a `Cargo.toml` declares.
pub(crate) fn cargo_texts<'d>(
    alloc: Global,
    document: &'d Table,
) -> Result<TomlTexts<'d>, AllocError>
    ensures texts { IfOk result (λ found.
        map (λ t. t.now) found.texts.items ≡ spec.cargo_texts (table_view document.now)) }
    ensures paths { IfOk result (λ found.
        map toml_steps found.paths.items ≡ spec.cargo_paths (table_view document.now)) }
{
    let mut found = nothing(alloc);
    push_behind(alloc, &mut found, document, "package", &["license"])?;
    push_behind(
        alloc,
        &mut found,
        document,
        "workspace",
        &["package", "license"],
    )?;
    Ok(found)
}

// Adds Poetry's expression. The word that it has for a license which isn't open is none.
fn push_of_poetry<'d>(
    alloc: Global,
    found: &mut TomlTexts<'d>,
    document: &'d Table,
) -> Result<(), AllocError>
    ensures texts { OnOk result (map (λ t. t.now) found.new.texts.items ≡
        map (λ t. t.now) found.old.texts.items ++ spec.poetry_texts (table_view document.now)) }
    ensures paths { OnOk result (map toml_steps found.new.paths.items ≡
        map toml_steps found.old.paths.items ++ spec.poetry_paths (table_view document.now)) }
{
    if text_behind(document, "tool", &["poetry", "license"]) == Some("Proprietary") {
        return Ok(());
    }
    push_behind(alloc, found, document, "tool", &["poetry", "license"])
}

/// What a `pyproject.toml` declares.
pub(crate) fn pyproject_texts<'d>(
    alloc: Global,
    document: &'d Table,
) -> Result<TomlTexts<'d>, AllocError>
    ensures texts { IfOk result (λ found.
        map (λ t. t.now) found.texts.items ≡ spec.pyproject_texts (table_view document.now)) }
    ensures paths { IfOk result (λ found.
        map toml_steps found.paths.items ≡ spec.pyproject_paths (table_view document.now)) }
{
    let mut found = nothing(alloc);
    push_behind(alloc, &mut found, document, "project", &["license"])?;
    push_of_poetry(alloc, &mut found, document)?;
    Ok(found)
}

// The way to an item of what an annotation says, or to all that it says.
fn annotation_path(
    alloc: Global,
    annotation: usize,
    item: Option<usize>,
) -> Result<Path<'static>, AllocError>
    ensures { IfOk result (λ path. toml_steps path ≡ spec.steps_to annotation item) }
{
    let mut steps = Vec::new(alloc);
    steps.push(Step::Key("annotations"))?;
    steps.push(Step::Item(annotation))?;
    steps.push(Step::Key("SPDX-License-Identifier"))?;
    if let Some(index) = item {
        steps.push(Step::Item(index))?;
    }
    Ok(Path { steps })
}

// Adds what a value says that is a text.
fn push_said<'d>(
    alloc: Global,
    found: &mut TomlTexts<'d>,
    annotation: usize,
    item: Option<usize>,
    value: &'d Value,
) -> Result<(), AllocError>
    ensures texts { OnOk result (map (λ t. t.now) found.new.texts.items ≡
        map (λ t. t.now) found.old.texts.items ++ option_to_list (as_str (view value.now))) }
    ensures paths { OnOk result (map toml_steps found.new.paths.items ≡
        map toml_steps found.old.paths.items
        ++ option_to_list (spec.path_in annotation item (view value.now))) }
{
    if let Some(text) = value.as_str() {
        found.texts.push(text)?;
        found.paths.push(annotation_path(alloc, annotation, item)?)?;
    }
    Ok(())
}

// Adds the texts among items of an annotation.
fn push_items<'d>(
    alloc: Global,
    found: &mut TomlTexts<'d>,
    annotation: usize,
    items: &'d Vec<Value>,
) -> Result<(), AllocError>
    ensures texts { OnOk result (map (λ t. t.now) found.new.texts.items ≡
        map (λ t. t.now) found.old.texts.items ++ spec.texts_among (items_view items.now.items)) }
    ensures paths { OnOk result (map toml_steps found.new.paths.items ≡
        map toml_steps found.old.paths.items
        ++ spec.paths_among annotation 0 (items_view items.now.items)) }
{
    for (index, item) in items.iter().enumerate() {
        push_said(alloc, found, annotation, Some(index), item)?;
    }
    Ok(())
}

// Adds what an annotation says.
fn push_annotation<'d>(
    alloc: Global,
    found: &mut TomlTexts<'d>,
    number: usize,
    annotation: &'d Value,
) -> Result<(), AllocError>
    ensures texts { OnOk result (map (λ t. t.now) found.new.texts.items ≡
        map (λ t. t.now) found.old.texts.items ++ spec.annotation_texts (view annotation.now)) }
    ensures paths { OnOk result (map toml_steps found.new.paths.items ≡
        map toml_steps found.old.paths.items
        ++ spec.annotation_paths number (view annotation.now)) }
{
    match annotation.get("SPDX-License-Identifier") {
        None => Ok(()),
        Some(Value::Array(items)) => push_items(alloc, found, number, items),
        Some(value) => push_said(alloc, found, number, None, value),
    }
}

// Adds what the annotations say.
fn push_annotations<'d>(
    alloc: Global,
    found: &mut TomlTexts<'d>,
    annotations: &'d Vec<Value>,
) -> Result<(), AllocError>
    ensures texts { OnOk result (map (λ t. t.now) found.new.texts.items ≡
        map (λ t. t.now) found.old.texts.items
        ++ spec.annotations_texts (items_view annotations.now.items)) }
    ensures paths { OnOk result (map toml_steps found.new.paths.items ≡
        map toml_steps found.old.paths.items
        ++ spec.annotations_paths 0 (items_view annotations.now.items)) }
{
    for (number, annotation) in annotations.iter().enumerate() {
        push_annotation(alloc, found, number, annotation)?;
    }
    Ok(())
}

/// What a `REUSE.toml` declares.
pub(crate) fn reuse_texts<'d>(
    alloc: Global,
    document: &'d Table,
) -> Result<TomlTexts<'d>, AllocError>
    ensures texts { IfOk result (λ found.
        map (λ t. t.now) found.texts.items ≡ spec.reuse_texts (table_view document.now)) }
    ensures paths { IfOk result (λ found.
        map toml_steps found.paths.items ≡ spec.reuse_paths (table_view document.now)) }
{
    let mut found = nothing(alloc);
    if let Some(Value::Array(annotations)) = member(document, "annotations") {
        push_annotations(alloc, &mut found, annotations)?;
    }
    Ok(found)
}
