// The items of lists and objects, each at its place.

ghost use Rattle.std.specs.Prelude.{◌≡◌, ◌++◌, Some, Ok, Err, IfOk, IfErr, OnOk, map, string_bytes};
ghost use Rattle.serde_json.specs.View.{items_view, members_view, view};
ghost use Rattle.package_items.specs.Items as spec;
ghost use Rattle.package_items.specs.Rows.{Says, item_row, not_list, not_object};
ghost use Rattle.package_items.specs.Values.{found_of as kind_found, seen};

use crate::error::{SourceError, SourceFault};
use crate::json::found_of;
use serde_json::{Map, Value};
use std::alloc::{AllocError, Global};

/// A value in a document that may be a package.
#[derive(Drop)]
pub struct Item<'v> {
    /// Its name in the object that it stands in; empty in a list.
    pub key: &'v str,
    /// Its place, as a JSON pointer.
    pub at: String,
    pub value: &'v Value,
    /// Whether it is of the project that the document is about.
    pub is_own: bool,
}

// Appends a character of a name, as a pointer writes it.
fn put_letter(line: &mut String, letter: char) -> Result<(), AllocError>
    ensures { OnOk result (string_bytes line.new ≡ string_bytes line.old ++ spec.escape letter) }
{
    if letter == '~' {
        return line.push_str("~0");
    }
    if letter == '/' {
        return line.push_str("~1");
    }
    line.push(letter)
}

// The name of a member, as a pointer writes it.
fn escaped(alloc: Global, name: &str) -> Result<String, AllocError>
    ensures { IfOk result (λ t. string_bytes t ≡ spec.escaped name.now) }
{
    let mut line = String::new(alloc);
    for letter in name.chars() {
        put_letter(&mut line, letter)?;
    }
    Ok(line)
}

fn items_of<'v>(
    alloc: Global,
    at: &str,
    values: &'v Vec<Value>,
) -> Result<Vec<Item<'v>>, AllocError>
    ensures { IfOk result (λ v.
        map item_row v.items ≡ spec.items_from at.now 0 (items_view values.now.items)) }
{
    let mut items = Vec::new(alloc);
    for (index, value) in values.iter().enumerate() {
        items.push(Item {
            key: "",
            at: format!(in alloc; "{at}/{index}")?,
            value,
            is_own: false,
        })?;
    }
    Ok(items)
}

/// The item of that name, of the object at a pointer.
pub fn member_item<'v>(
    alloc: Global,
    at: &str,
    key: &'v str,
    value: &'v Value,
) -> Result<Item<'v>, AllocError>
    ensures { IfOk result (λ i. item_row i ≡ spec.member_item at.now key.now (view value.now)) }
{
    let name = escaped(alloc, key)?;
    Ok(Item {
        key,
        at: format!(in alloc; "{at}/{name}")?,
        value,
        is_own: false,
    })
}

fn items_of_members<'v>(
    alloc: Global,
    at: &str,
    members: &'v Map<String, Value>,
) -> Result<Vec<Item<'v>>, AllocError>
    ensures { IfOk result (λ v.
        map item_row v.items ≡ spec.items_named at.now (members_view members.now.entries)) }
{
    let mut items = Vec::new(alloc);
    for (key, value) in members.iter() {
        items.push(member_item(alloc, at, key.as_str(), value)?)?;
    }
    Ok(items)
}

/// The whole document; a folder may stand for its name.
pub fn root_item<'v>(alloc: Global, folder: &'v str, is_own: bool, document: &'v Value) -> Item<'v>
    ensures { item_row result ≡ spec.root_item folder.now is_own (view document.now) }
{
    Item {
        key: folder,
        at: String::new(alloc),
        value: document,
        is_own,
    }
}

// The fault that no list stands there.
fn no_list(alloc: Global, at: &str, found: Option<&Value>) -> SourceError
    ensures { Says (λ f. f ≡ not_list at.now (kind_found (seen found.entry))) result }
{
    match String::from_str(alloc, at) {
        Ok(at) => SourceError::Refused(SourceFault::NotList(at, found_of(found))),
        Err(_) => SourceError::NoMemory,
    }
}

// The fault that no object stands there.
fn no_object(alloc: Global, at: &str, found: Option<&Value>) -> SourceError
    ensures { Says (λ f. f ≡ not_object at.now (kind_found (seen found.entry))) result }
{
    match String::from_str(alloc, at) {
        Ok(at) => SourceError::Refused(SourceFault::NotObject(at, found_of(found))),
        Err(_) => SourceError::NoMemory,
    }
}

/// Refuses an item that is no object.
///
/// # Errors
///
/// That it is something else, or that memory was refused.
pub fn check_object(alloc: Global, item: &Item<'_>) -> Result<(), SourceError>
    ensures ok { IfOk result (λ _. spec.object_at (item_row item.now).at
        (Some (item_row item.now).holds) ≡ Ok (item_row item.now).holds) }
    ensures err { IfErr result (Says (λ f. spec.object_at (item_row item.now).at
        (Some (item_row item.now).holds) ≡ Err f)) }
{
    match item.value {
        Value::Object(_) => Ok(()),
        _ => Err(no_object(alloc, item.at.as_str(), Some(item.value))),
    }
}

/// The object that stands at a pointer.
///
/// # Errors
///
/// That no object stands there, or that memory was refused.
pub fn object_at<'v>(
    alloc: Global,
    at: &str,
    found: Option<&'v Value>,
) -> Result<&'v Value, SourceError>
    ensures ok { IfOk result (λ v. spec.object_at at.now (seen found.entry) ≡ Ok (view v.now)) }
    ensures err { IfErr result (Says (λ f. spec.object_at at.now (seen found.entry) ≡ Err f)) }
{
    match found {
        Some(value @ Value::Object(_)) => Ok(value),
        _ => Err(no_object(alloc, at, found)),
    }
}

/// The object that stands at a pointer from an item.
///
/// # Errors
///
/// That no object stands there, or that memory was refused.
pub fn object_in<'v>(
    alloc: Global,
    item: &Item<'_>,
    pointer: &str,
    found: Option<&'v Value>,
) -> Result<&'v Value, SourceError>
    ensures ok { IfOk result (λ v. spec.object_at ((item_row item.now).at ++ pointer.now)
        (seen found.entry) ≡ Ok (view v.now)) }
    ensures err { IfErr result (Says (λ f. spec.object_at ((item_row item.now).at ++ pointer.now)
        (seen found.entry) ≡ Err f)) }
{
    let start = item.at.as_str();
    let at = format!(in alloc; "{start}{pointer}")?;
    object_at(alloc, at.as_str(), found)
}

/// The items of the list that stands at a pointer, in their order.
///
/// # Errors
///
/// That no list stands there, or that memory was refused.
pub fn list_items<'v>(
    alloc: Global,
    at: &str,
    found: Option<&'v Value>,
) -> Result<Vec<Item<'v>>, SourceError>
    ensures ok { IfOk result (λ v.
        spec.list_items at.now (seen found.entry) ≡ Ok (map item_row v.items)) }
    ensures err { IfErr result (Says (λ f. spec.list_items at.now (seen found.entry) ≡ Err f)) }
{
    match found {
        Some(Value::Array(values)) => Ok(items_of(alloc, at, values)?),
        _ => Err(no_list(alloc, at, found)),
    }
}

/// The items of the list that stands at a pointer; there are none where nothing or null stands.
///
/// # Errors
///
/// That something else stands there, or that memory was refused.
pub fn list_items_if_any<'v>(
    alloc: Global,
    at: &str,
    found: Option<&'v Value>,
) -> Result<Vec<Item<'v>>, SourceError>
    ensures ok { IfOk result (λ v.
        spec.list_items_if_any at.now (seen found.entry) ≡ Ok (map item_row v.items)) }
    ensures err { IfErr result (Says (λ f.
        spec.list_items_if_any at.now (seen found.entry) ≡ Err f)) }
{
    match found {
        None => Ok(Vec::new(alloc)),
        Some(Value::Null) => Ok(Vec::new(alloc)),
        _ => list_items(alloc, at, found),
    }
}

/// The items of the object that stands at a pointer, in the order of the bytes of their names.
///
/// # Errors
///
/// That no object stands there, or that memory was refused.
pub fn member_items<'v>(
    alloc: Global,
    at: &str,
    found: Option<&'v Value>,
) -> Result<Vec<Item<'v>>, SourceError>
    ensures ok { IfOk result (λ v.
        spec.member_items at.now (seen found.entry) ≡ Ok (map item_row v.items)) }
    ensures err { IfErr result (Says (λ f. spec.member_items at.now (seen found.entry) ≡ Err f)) }
{
    match found {
        Some(Value::Object(members)) => Ok(items_of_members(alloc, at, members)?),
        _ => Err(no_object(alloc, at, found)),
    }
}

/// The items of the object that stands at a pointer; there are none where nothing or null stands.
///
/// # Errors
///
/// That something else stands there, or that memory was refused.
pub fn member_items_if_any<'v>(
    alloc: Global,
    at: &str,
    found: Option<&'v Value>,
) -> Result<Vec<Item<'v>>, SourceError>
    ensures ok { IfOk result (λ v.
        spec.member_items_if_any at.now (seen found.entry) ≡ Ok (map item_row v.items)) }
    ensures err { IfErr result (Says (λ f.
        spec.member_items_if_any at.now (seen found.entry) ≡ Err f)) }
{
    match found {
        None => Ok(Vec::new(alloc)),
        Some(Value::Null) => Ok(Vec::new(alloc)),
        _ => member_items(alloc, at, found),
    }
}

/// The items of the list that stands at a pointer from an item.
///
/// # Errors
///
/// That no list stands there, or that memory was refused.
pub fn list_in<'v>(
    alloc: Global,
    item: &Item<'_>,
    pointer: &str,
    found: Option<&'v Value>,
) -> Result<Vec<Item<'v>>, SourceError>
    ensures ok { IfOk result (λ v. spec.list_items ((item_row item.now).at ++ pointer.now)
        (seen found.entry) ≡ Ok (map item_row v.items)) }
    ensures err { IfErr result (Says (λ f. spec.list_items ((item_row item.now).at ++ pointer.now)
        (seen found.entry) ≡ Err f)) }
{
    let start = item.at.as_str();
    let at = format!(in alloc; "{start}{pointer}")?;
    list_items(alloc, at.as_str(), found)
}

/// The items of the list that stands at a pointer from an item; there are none where nothing or null stands.
///
/// # Errors
///
/// That something else stands there, or that memory was refused.
pub fn list_in_if_any<'v>(
    alloc: Global,
    item: &Item<'_>,
    pointer: &str,
    found: Option<&'v Value>,
) -> Result<Vec<Item<'v>>, SourceError>
    ensures ok { IfOk result (λ v. spec.list_items_if_any
        ((item_row item.now).at ++ pointer.now) (seen found.entry) ≡ Ok (map item_row v.items)) }
    ensures err { IfErr result (Says (λ f. spec.list_items_if_any
        ((item_row item.now).at ++ pointer.now) (seen found.entry) ≡ Err f)) }
{
    let start = item.at.as_str();
    let at = format!(in alloc; "{start}{pointer}")?;
    list_items_if_any(alloc, at.as_str(), found)
}
