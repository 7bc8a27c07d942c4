// What npm writes.

ghost use Rattle.std.specs.Prelude.{◌≡◌, ◌++◌, Ok, Err, IfOk, IfErr, map, codes, string_bytes};
ghost use Rattle.std.specs.Option.{option_copied};
ghost use Rattle.serde_json.specs.Find.{get};
ghost use Rattle.serde_json.specs.View.{view, members_view};
ghost use Rattle.package_items.specs.Rows.{Says, item_row, license_of};
ghost use Rattle.package_items.specs.Values.{seen};
ghost use Rattle.package_sources.specs.Npm as spec;

use crate::formats::folder::folder_name;
use crate::several::{Entry, choice_of};
use package_items::{
    Item, License, Parts, SourceError, license_at, list_in, member_items, root_item, text_if_any,
    text_of, with_parts,
};
use serde_json::{Map, Value};
use std::alloc::{AllocError, Global};

// JSON nests less deep, with two levels for each item.
const LEVELS: usize = 64;

/// The name of an item, or else that of its folder, which is its key.
pub(crate) fn name_of(alloc: Global, item: &Item<'_>) -> Result<String, SourceError>
    ensures ok { IfOk result (λ n. spec.name_of (item_row item.now) ≡ Ok (string_bytes n)) }
    ensures err { IfErr result (Says (λ f. spec.name_of (item_row item.now) ≡ Err f)) }
{
    let found = item.value.get("name");
    let folder = folder_name(alloc, item.key)?;
    if is_absent(found) && !folder.is_empty() {
        return Ok(folder);
    }
    let name = text_of(alloc, item, "/name", found)?;
    Ok(String::from_str(alloc, name)?)
}

// Whether nothing or null stands there.
fn is_absent(found: Option<&Value>) -> bool
    ensures { result ≡ spec.is_absent (seen found.entry) }
{
    match found {
        None => true,
        Some(Value::Null) => true,
        _ => false,
    }
}

/// Whether a list stands there.
pub(crate) fn is_list(found: Option<&Value>) -> bool
    ensures { result ≡ spec.is_list (seen found.entry) }
{
    matches!(found, Some(Value::Array(_)))
}

// What stands at `type` of what stands there.
fn type_of(found: Option<&Value>) -> Option<&Value>
    ensures { seen result ≡ spec.type_of (seen found.entry) }
{
    found?.get("type")
}

// Whether an object stands there.
fn has_members(found: Option<&Value>) -> bool
    ensures { result ≡ spec.has_members (seen found.entry) }
{
    matches!(found, Some(Value::Object(_)))
}

// What one of the two members of a package says: a text, an object with one at `type`, or a list of such, of which each is a
// choice. It says nothing where nothing or null stands.
fn license_in(
    alloc: Global,
    item: &Item<'_>,
    pointer: &str,
    type_pointer: &str,
    found: Option<&Value>,
) -> Result<License, SourceError>
    ensures ok { IfOk result (λ l. spec.license_in ((item_row item.now).at ++ pointer.now)
        ((item_row item.now).at ++ type_pointer.now) (seen found.entry) ≡ Ok (license_of l)) }
    ensures err { IfErr result (Says (λ f. spec.license_in ((item_row item.now).at ++ pointer.now)
        ((item_row item.now).at ++ type_pointer.now) (seen found.entry) ≡ Err f)) }
{
    if is_list(found) {
        let entries = list_in(alloc, item, pointer, found)?;
        return choice_of(alloc, Entry::Npm, entries.as_slice());
    }
    if has_members(found) {
        return license_at(alloc, item, type_pointer, type_of(found));
    }
    license_at(alloc, item, pointer, found)
}

/// The license of a package: `license`, or the old `licenses` where nothing or null stands there.
pub(crate) fn npm_license(alloc: Global, item: &Item<'_>) -> Result<License, SourceError>
    ensures ok { IfOk result (λ l.
        spec.npm_license (item_row item.now) ≡ Ok (license_of l)) }
    ensures err { IfErr result (Says (λ f. spec.npm_license (item_row item.now) ≡ Err f)) }
{
    let found = item.value.get("license");
    if is_absent(found) {
        let old = item.value.get("licenses");
        return license_in(alloc, item, "/licenses", "/licenses/type", old);
    }
    license_in(alloc, item, "/license", "/license/type", found)
}

// Whether an entry of a lock file only points to another entry.
fn is_link(entries: &Value, entry: &Value) -> bool
    ensures { result ≡ spec.is_link (view entries.now) (view entry.now) }
{
    match (entry.get("link"), entry.get("resolved")) {
        (Some(Value::Bool(true)), Some(Value::String(target))) => {
            entries.get(target.as_str()).is_some()
        }
        _ => false,
    }
}

// The package of an entry of a lock file: the empty key is that of the root.
fn lock_item<'v>(alloc: Global, stand_in: &'v str, entry: &Item<'v>) -> Result<Item<'v>, AllocError>
    ensures { IfOk result (λ i. item_row i ≡ spec.lock_item stand_in.now (item_row entry.now)) }
{
    let at = String::from_str(alloc, entry.at.as_str())?;
    if entry.key.is_empty() {
        return Ok(Item {
            key: stand_in,
            at,
            value: entry.value,
            is_own: true,
        });
    }
    Ok(Item {
        key: entry.key,
        at,
        value: entry.value,
        is_own: entry.is_own,
    })
}

// The packages of the entries of a lock file, but for those that point to others.
fn lock_items<'v>(
    alloc: Global,
    stand_in: &'v str,
    entries: &Value,
    members: &[Item<'v>],
) -> Result<Vec<Item<'v>>, AllocError>
    ensures { IfOk result (λ v. map item_row v.items
        ≡ spec.lock_items stand_in.now (view entries.now) (map item_row members.now)) }
{
    let mut items = Vec::new(alloc);
    for entry in members {
        if !is_link(entries, entry.value) {
            items.push(lock_item(alloc, stand_in, entry)?)?;
        }
    }
    Ok(items)
}

fn entry_items<'v>(
    alloc: Global,
    stand_in: &'v str,
    entries: &'v Value,
) -> Result<Vec<Item<'v>>, SourceError>
    ensures ok { IfOk result (λ v.
        spec.entry_items stand_in.now (view entries.now) ≡ Ok (map item_row v.items)) }
    ensures err { IfErr result (Says (λ f.
        spec.entry_items stand_in.now (view entries.now) ≡ Err f)) }
{
    let members = member_items(alloc, "/packages", Some(entries))?;
    Ok(lock_items(alloc, stand_in, entries, members.as_slice())?)
}

fn is_object(value: &Value) -> bool
    ensures { result ≡ spec.is_object (view value.now) }
{
    matches!(value, Value::Object(_))
}

// Whether some member is an object.
fn has_object(members: &Map<String, Value>) -> bool
    ensures { result ≡ spec.has_object (members_view members.now.entries) }
{
    for entry in members.iter() {
        if is_object(entry.1) {
            return true;
        }
    }
    false
}

fn holds_object(found: Option<&Value>) -> bool
    ensures { result ≡ spec.holds_object (seen found.entry) }
{
    match found {
        Some(Value::Object(members)) => has_object(members),
        _ => false,
    }
}

// Whether the document is a tree of packages: an old lock file, or what `npm ls` writes.
fn is_tree(document: &Value) -> bool
    ensures { result ≡ spec.is_tree (view document.now) }
{
    document.get("lockfileVersion").is_some() || holds_object(document.get("dependencies"))
}

// The packages of a tree, from its root on.
fn tree_parts<'v>(
    alloc: Global,
    stand_in: &'v str,
    document: &'v Value,
) -> Result<Vec<Item<'v>>, SourceError>
    ensures ok { IfOk result (λ v.
        spec.tree_parts stand_in.now (view document.now) ≡ Ok (map item_row v.items)) }
    ensures err { IfErr result (Says (λ f.
        spec.tree_parts stand_in.now (view document.now) ≡ Err f)) }
{
    let root = root_item(alloc, stand_in, true, document);
    with_parts(alloc, Parts::Object("dependencies"), LEVELS, &root)
}

/// Where a package of npm's lies.
#[derive(Clone, Copy)]
pub(crate) enum Lies {
    /// In the folder of the file.
    Here,
    /// In the folder that is its key, but for the root, which lies in the folder of the file.
    AtKey,
    /// In the folder that it says, if it says one.
    AtPath,
}

/// Where the packages of what npm writes lie.
pub(crate) fn lies_in(document: &Value) -> Lies
    ensures { result ≡ spec.lies_in (view document.now) }
{
    if !is_tree(document) {
        return Lies::Here;
    }
    match document.get("packages") {
        None | Some(Value::Null) => Lies::AtPath,
        Some(_) => Lies::AtKey,
    }
}

/// The folder of an item.
pub(crate) fn folder<'v>(
    alloc: Global,
    lies: Lies,
    item: &Item<'v>,
) -> Result<Option<&'v str>, SourceError>
    ensures ok { IfOk result (λ f.
        spec.folder lies (item_row item.now) ≡ Ok (option_copied f)) }
    ensures err { IfErr result (Says (λ f. spec.folder lies (item_row item.now) ≡ Err f)) }
{
    match lies {
        Lies::Here => Ok(Some(".")),
        Lies::AtKey if item.is_own => Ok(Some(".")),
        Lies::AtKey => Ok(Some(item.key)),
        Lies::AtPath => text_if_any(alloc, item, "/path", item.value.get("path")),
    }
}

/// The packages of what npm writes: of the entries of a lock file, of a tree, or of a package.json.
pub(crate) fn npm_items<'v>(
    alloc: Global,
    stand_in: &'v str,
    document: &'v Value,
) -> Result<Vec<Item<'v>>, SourceError>
    ensures ok { IfOk result (λ v.
        spec.npm_items stand_in.now (view document.now) ≡ Ok (map item_row v.items)) }
    ensures err { IfErr result (Says (λ f.
        spec.npm_items stand_in.now (view document.now) ≡ Err f)) }
{
    if !is_tree(document) {
        let mut items = Vec::new(alloc);
        items.push(root_item(alloc, stand_in, false, document))?;
        return Ok(items);
    }
    match document.get("packages") {
        None | Some(Value::Null) => tree_parts(alloc, stand_in, document),
        Some(entries) => entry_items(alloc, stand_in, entries),
    }
}
