// What a document of SPDX 2 is about.

ghost use Rattle.std.specs.Prelude.{◌≡◌, ◌++◌, IfOk, OnOk, bytes_eq, codes, map};
ghost use Rattle.std.specs.List.{list_all};
ghost use Rattle.std.specs.Option.{option_copied, option_to_list};
ghost use Rattle.serde_json.specs.Find.{get};
ghost use Rattle.serde_json.specs.View.{items_view, view};
ghost use Rattle.package_items.specs.Values.{seen};
ghost use Rattle.package_sources.specs.Described as spec;

use serde_json::Value;
use std::alloc::{AllocError, Global};

// Adds the text, if it is one.
fn push_text<'v>(texts: &mut Vec<&'v str>, text: Option<&'v str>) -> Result<(), AllocError>
    ensures { OnOk result (map (λ t. t.now) texts.new.items
        ≡ map (λ t. t.now) texts.old.items ++ option_to_list (option_copied text.entry)) }
{
    if let Some(text) = text {
        texts.push(text)?;
    }
    Ok(())
}

// Adds the texts among the items of a list.
fn push_texts<'v>(texts: &mut Vec<&'v str>, items: &'v Vec<Value>) -> Result<(), AllocError>
    ensures { OnOk result (map (λ t. t.now) texts.new.items
        ≡ map (λ t. t.now) texts.old.items ++ spec.texts_among (items_view items.now.items)) }
{
    for item in items.iter() {
        push_text(texts, item.as_str())?;
    }
    Ok(())
}

fn is_describes(found: Option<&Value>) -> bool
    ensures { result ≡ spec.is_describes (seen found.entry) }
{
    match found {
        Some(Value::String(text)) => text.as_str() == "DESCRIBES",
        _ => false,
    }
}

// What a relationship says that the document describes.
fn related<'v>(relationship: &'v Value) -> Option<&'v str>
    ensures { option_to_list (option_copied result) ≡ spec.related (view relationship.now) }
{
    if !is_describes(relationship.get("relationshipType")) {
        return None;
    }
    relationship.get("relatedSpdxElement")?.as_str()
}

// Adds what the relationships of a list say that the document describes.
fn push_related<'v>(texts: &mut Vec<&'v str>, items: &'v Vec<Value>) -> Result<(), AllocError>
    ensures { OnOk result (map (λ t. t.now) texts.new.items
        ≡ map (λ t. t.now) texts.old.items ++ spec.related_among (items_view items.now.items)) }
{
    for item in items.iter() {
        push_text(texts, related(item))?;
    }
    Ok(())
}

// The elements that the document tells to describe, in one way or in the other.
fn described<'v>(alloc: Global, document: &'v Value) -> Result<Vec<&'v str>, AllocError>
    ensures { IfOk result (λ texts.
        map (λ t. t.now) texts.items ≡ spec.described (view document.now)) }
{
    let mut texts = Vec::new(alloc);
    if let Some(Value::Array(items)) = document.get("documentDescribes") {
        push_texts(&mut texts, items)?;
    }
    if let Some(Value::Array(items)) = document.get("relationships") {
        push_related(&mut texts, items)?;
    }
    Ok(texts)
}

fn are_all(id: &str, ids: &[&str]) -> bool
    ensures { result ≡ list_all (bytes_eq id.now) (map (λ t. t.now) ids.now) }
{
    for other in ids {
        if id != *other {
            return false;
        }
    }
    true
}

// The element that all of these are.
fn only<'t>(ids: &[&'t str]) -> Option<&'t str>
    ensures { option_copied result ≡ spec.only (map (λ t. t.now) ids.now) }
{
    match ids {
        [id, others @ ..] if are_all(*id, others) => Some(*id),
        _ => None,
    }
}

// GitHub wraps a document.
fn bill_in(document: &Value) -> &Value
    ensures { view result.now ≡ spec.bill_in (view document.now)
        (get (codes "sbom") (view document.now)) }
{
    match document.get("sbom") {
        Some(bill) => bill,
        None => document,
    }
}

/// The one element that a document is about; none where it describes several. Linear in what it describes.
///
/// # Errors
///
/// Memory was refused.
pub(crate) fn root<'v>(alloc: Global, document: &'v Value) -> Result<Option<&'v str>, AllocError>
    ensures { IfOk result (λ id. option_copied id ≡ spec.root (view document.now)) }
{
    let ids = described(alloc, bill_in(document))?;
    Ok(only(&ids))
}
