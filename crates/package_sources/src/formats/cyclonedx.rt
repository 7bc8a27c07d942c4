// CycloneDX.

ghost use Rattle.std.specs.Prelude.{◌≡◌, ◌++◌, Ok, Err, IfOk, IfErr, map, codes, string_bytes, length, option_and_then};
ghost use Rattle.serde_json.specs.Find.{get};
ghost use Rattle.serde_json.specs.View.{view};
ghost use Rattle.package_items.specs.Rows.{Says, item_row, license_of, row_of};
ghost use Rattle.package_items.specs.Values.{seen};
ghost use Rattle.package_sources.specs.CycloneDx as spec;
ghost use Rattle.std.specs.List.{list_any};

use package_items::{
    Item, License, Package, Parts, SourceError, all_with_parts, check_object, license_of_all,
    list_in_if_any, list_items, list_items_if_any, object_in, said, text_if_any, text_of,
    with_parts,
};
use serde_json::Value;
use std::alloc::{AllocError, Global};

// JSON nests less deep, with two levels for each item.
const LEVELS: usize = 64;

// What stands at a member of a member.
fn inner<'v>(value: &'v Value, outer: &str, key: &str) -> Option<&'v Value>
    ensures { seen result ≡ spec.inner outer.now key.now (view value.now) }
{
    value.get(outer)?.get(key)
}

// The text of an entry that is no expression: the id of its license, or else its name.
fn license_text<'v>(alloc: Global, entry: &Item<'v>) -> Result<&'v str, SourceError>
    ensures ok { IfOk result (λ t. spec.license_text (item_row entry.now) ≡ Ok t.now) }
    ensures err { IfErr result (Says (λ f. spec.license_text (item_row entry.now) ≡ Err f)) }
{
    let license = object_in(alloc, entry, "/license", entry.value.get("license"))?;
    match text_if_any(alloc, entry, "/license/id", license.get("id"))? {
        Some(text) => Ok(text),
        None => text_of(alloc, entry, "/license/name", license.get("name")),
    }
}

// The text of an entry: an expression, or the id of a license, or else its name.
fn entry_text<'v>(alloc: Global, entry: &Item<'v>) -> Result<&'v str, SourceError>
    ensures ok { IfOk result (λ t. spec.entry_text (item_row entry.now) ≡ Ok t.now) }
    ensures err { IfErr result (Says (λ f. spec.entry_text (item_row entry.now) ≡ Err f)) }
{
    check_object(alloc, entry)?;
    match text_if_any(alloc, entry, "/expression", entry.value.get("expression"))? {
        Some(text) => Ok(text),
        None => license_text(alloc, entry),
    }
}

fn says_concluded(found: Option<&Value>) -> bool
    ensures { result ≡ spec.says_concluded (seen found.entry) }
{
    match found {
        Some(Value::String(text)) => text.as_str() == "concluded",
        _ => false,
    }
}

// Whether an entry is what an analysis concluded.
fn is_concluded(entry: &Item<'_>) -> bool
    ensures { result ≡ spec.is_concluded (item_row entry.now) }
{
    says_concluded(entry.value.get("acknowledgement"))
        || says_concluded(inner(entry.value, "license", "acknowledgement"))
}

fn has_concluded(entries: &[Item<'_>]) -> bool
    ensures { result ≡ list_any spec.is_concluded (map item_row entries.now) }
{
    for entry in entries {
        if is_concluded(entry) {
            return true;
        }
    }
    false
}

// The texts of the entries that count: of the concluded ones alone, or of all.
fn texts_in<'v>(
    alloc: Global,
    only_concluded: bool,
    entries: &[Item<'v>],
) -> Result<Vec<&'v str>, SourceError>
    ensures ok { IfOk result (λ ts. spec.texts_in only_concluded (map item_row entries.now)
        ≡ Ok (map (λ t. t.now) ts.items)) }
    ensures err { IfErr result (Says (λ f.
        spec.texts_in only_concluded (map item_row entries.now) ≡ Err f)) }
{
    let mut texts = Vec::new(alloc);
    for entry in entries {
        if !only_concluded || is_concluded(entry) {
            texts.push(entry_text(alloc, entry)?)?;
        }
    }
    Ok(texts)
}

fn license(alloc: Global, item: &Item<'_>) -> Result<License, SourceError>
    ensures ok { IfOk result (λ l. spec.license (item_row item.now) ≡ Ok (license_of l)) }
    ensures err { IfErr result (Says (λ f. spec.license (item_row item.now) ≡ Err f)) }
{
    let entries = list_in_if_any(alloc, item, "/licenses", item.value.get("licenses"))?;
    let texts = texts_in(alloc, has_concluded(&entries), &entries)?;
    Ok(license_of_all(alloc, " AND ", texts.as_slice())?)
}

#[tactic(auto, using(crate::proofs::Counts::same_count))]
fn count(items: &[Item<'_>]) -> usize
    ensures { result ≡ length (map item_row items.now) }
{
    items.len()
}

// How many licenses were seen in the files of a component.
fn evidence(alloc: Global, item: &Item<'_>) -> Result<usize, SourceError>
    ensures ok { IfOk result (λ n. spec.evidence (item_row item.now) ≡ Ok n) }
    ensures err { IfErr result (Says (λ f. spec.evidence (item_row item.now) ≡ Err f)) }
{
    let found = inner(item.value, "evidence", "licenses");
    let seen = list_in_if_any(alloc, item, "/evidence/licenses", found)?;
    Ok(count(&seen))
}

// The name of a component, behind its group if it has one.
fn name_of(alloc: Global, item: &Item<'_>) -> Result<String, SourceError>
    ensures ok { IfOk result (λ n. spec.name_of (item_row item.now) ≡ Ok (string_bytes n)) }
    ensures err { IfErr result (Says (λ f. spec.name_of (item_row item.now) ≡ Err f)) }
{
    let group = text_if_any(alloc, item, "/group", item.value.get("group"))?;
    let name = text_of(alloc, item, "/name", item.value.get("name"))?;
    match group {
        Some(group) if !group.is_empty() => Ok(format!(in alloc; "{group}/{name}")?),
        _ => Ok(String::from_str(alloc, name)?),
    }
}

/// The package that a component or a service is.
pub(crate) fn cyclonedx(alloc: Global, item: &Item<'_>) -> Result<Package, SourceError>
    ensures ok { IfOk result (λ p. spec.cyclonedx (item_row item.now) ≡ Ok (row_of p)) }
    ensures err { IfErr result (Says (λ f. spec.cyclonedx (item_row item.now) ≡ Err f)) }
{
    check_object(alloc, item)?;
    let name = name_of(alloc, item)?;
    let version = text_if_any(alloc, item, "/version", item.value.get("version"))?;
    let license = license(alloc, item)?;
    let evidence = evidence(alloc, item)?;
    let mut package = said(alloc, item, name.as_str(), version, license)?;
    package.evidence = evidence;
    Ok(package)
}

fn is_bom(document: &Value) -> bool
    ensures { result ≡ spec.is_bom (view document.now) }
{
    match document.get("bomFormat") {
        Some(Value::String(text)) => text.as_str() == "CycloneDX",
        _ => false,
    }
}

// The component that the document is about.
#[tactic(auto, unfolding(crate::specs::CycloneDx::subject_item))]
fn subject_item<'v>(alloc: Global, value: &'v Value) -> Result<Item<'v>, AllocError>
    ensures { IfOk result (λ i. item_row i ≡ spec.subject_item (view value.now)) }
{
    Ok(Item {
        key: "",
        at: String::from_str(alloc, "/metadata/component")?,
        value,
        is_own: true,
    })
}

// The component that the document is about, with its parts.
fn subject_parts<'v>(alloc: Global, value: &'v Value) -> Result<Vec<Item<'v>>, SourceError>
    ensures ok { IfOk result (λ v.
        spec.subject_parts (view value.now) ≡ Ok (map item_row v.items)) }
    ensures err { IfErr result (Says (λ f. spec.subject_parts (view value.now) ≡ Err f)) }
{
    let item = subject_item(alloc, value)?;
    with_parts(alloc, Parts::List("components"), LEVELS, &item)
}

// The same, if one is told.
fn subject<'v>(alloc: Global, document: &'v Value) -> Result<Vec<Item<'v>>, SourceError>
    ensures ok { IfOk result (λ v.
        spec.subject (view document.now) ≡ Ok (map item_row v.items)) }
    ensures err { IfErr result (Says (λ f. spec.subject (view document.now) ≡ Err f)) }
{
    match inner(document, "metadata", "component") {
        Some(value) => subject_parts(alloc, value),
        None => Ok(Vec::new(alloc)),
    }
}

// The list of components, which a document may lack if it says what it is.
#[tactic(auto, unfolding(crate::specs::CycloneDx::component_list))]
fn component_list<'v>(alloc: Global, document: &'v Value) -> Result<Vec<Item<'v>>, SourceError>
    ensures ok { IfOk result (λ v.
        spec.component_list (view document.now) ≡ Ok (map item_row v.items)) }
    ensures err { IfErr result (Says (λ f. spec.component_list (view document.now) ≡ Err f)) }
{
    let found = document.get("components");
    if is_bom(document) {
        return list_items_if_any(alloc, "/components", found);
    }
    list_items(alloc, "/components", found)
}

// The components, each with its parts behind it.
fn components<'v>(alloc: Global, document: &'v Value) -> Result<Vec<Item<'v>>, SourceError>
    ensures ok { IfOk result (λ v.
        spec.components (view document.now) ≡ Ok (map item_row v.items)) }
    ensures err { IfErr result (Says (λ f. spec.components (view document.now) ≡ Err f)) }
{
    let items = component_list(alloc, document)?;
    all_with_parts(alloc, Parts::List("components"), LEVELS, &items)
}

fn services<'v>(alloc: Global, document: &'v Value) -> Result<Vec<Item<'v>>, SourceError>
    ensures ok { IfOk result (λ v.
        spec.services (view document.now) ≡ Ok (map item_row v.items)) }
    ensures err { IfErr result (Says (λ f. spec.services (view document.now) ≡ Err f)) }
{
    let items = list_items_if_any(alloc, "/services", document.get("services"))?;
    all_with_parts(alloc, Parts::List("services"), LEVELS, &items)
}

/// What a document lists: its subject, its components and its services, each with its parts behind it.
pub(crate) fn cyclonedx_items<'v>(
    alloc: Global,
    document: &'v Value,
) -> Result<Vec<Item<'v>>, SourceError>
    ensures ok { IfOk result (λ v.
        spec.items (view document.now) ≡ Ok (map item_row v.items)) }
    ensures err { IfErr result (Says (λ f. spec.items (view document.now) ≡ Err f)) }
{
    let mut all = subject(alloc, document)?;
    let mut components = components(alloc, document)?;
    let mut services = services(alloc, document)?;
    all.append(&mut components)?;
    all.append(&mut services)?;
    Ok(all)
}
