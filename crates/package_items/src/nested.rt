// Items, and the items in them.

ghost use Rattle.std.specs.Prelude.{◌≡◌, Ok, Err, IfOk, IfErr, map};
ghost use Rattle.package_items.specs.Nested as spec;
ghost use Rattle.package_items.specs.Rows.{Says, item_row};

use crate::error::{SourceError, SourceFault};
use crate::item::{Item, list_items_if_any, member_items_if_any};
use std::alloc::{AllocError, Global};

/// Where the parts of an item stand in it: at that member.
#[derive(Clone, Copy)]
pub enum Parts<'k> {
    /// Which is a list of them.
    List(&'k str),
    /// Which is an object, each under its name.
    Object(&'k str),
}

/// The parts of an item; it has none where nothing or null stands.
fn parts_of<'v>(
    alloc: Global,
    parts: Parts<'_>,
    item: &Item<'v>,
) -> Result<Vec<Item<'v>>, SourceError>
    ensures ok { IfOk result (λ v.
        spec.parts_of (spec.parts_row parts.entry) (item_row item.now)
        ≡ Ok (map item_row v.items)) }
    ensures err { IfErr result (Says (λ f.
        spec.parts_of (spec.parts_row parts.entry) (item_row item.now) ≡ Err f)) }
{
    let at = item.at.as_str();
    match parts {
        Parts::List(key) => {
            let at = format!(in alloc; "{at}/{key}")?;
            list_items_if_any(alloc, at.as_str(), item.value.get(key))
        }
        Parts::Object(key) => {
            let at = format!(in alloc; "{at}/{key}")?;
            member_items_if_any(alloc, at.as_str(), item.value.get(key))
        }
    }
}

fn copy_of<'v>(alloc: Global, item: &Item<'v>) -> Result<Item<'v>, AllocError>
    ensures { IfOk result (λ copy. item_row copy ≡ item_row item.now) }
{
    Ok(Item {
        key: item.key,
        at: String::from_str(alloc, item.at.as_str())?,
        value: item.value,
        is_own: item.is_own,
    })
}

// The fault that items nest too deep.
fn too_deep(alloc: Global, item: &Item<'_>) -> SourceError
    ensures { Says (λ f. f ≡ spec.too_deep (item_row item.now)) result }
{
    match String::from_str(alloc, item.at.as_str()) {
        Ok(at) => SourceError::Refused(SourceFault::TooDeep(at)),
        Err(_) => SourceError::NoMemory,
    }
}

/// An item, and behind it its parts, each with its own parts, through so many levels.
///
/// # Errors
///
/// The first fault: that items nest deeper, or that parts are no list or object; or that memory was refused.
#[tactic(auto, using(crate::proofs::Levels::with_parts_below, crate::proofs::Levels::with_parts_above))]
pub fn with_parts<'v>(
    alloc: Global,
    parts: Parts<'_>,
    levels: usize,
    item: &Item<'v>,
) -> Result<Vec<Item<'v>>, SourceError>
    ensures ok { IfOk result (λ v.
        spec.with_parts (spec.parts_row parts.entry) levels (item_row item.now)
        ≡ Ok (map item_row v.items)) }
    ensures err { IfErr result (Says (λ f.
        spec.with_parts (spec.parts_row parts.entry) levels (item_row item.now) ≡ Err f)) }
{
    if levels == 0 {
        return Err(too_deep(alloc, item));
    }
    let inner = parts_of(alloc, parts, item)?;
    let mut all = Vec::new(alloc);
    all.push(copy_of(alloc, item)?)?;
    for part in &inner {
        let mut more = with_parts(alloc, parts, levels - 1, part)?;
        all.append(&mut more)?;
    }
    Ok(all)
}

/// Each of the items, with its parts behind it.
///
/// # Errors
///
/// The first fault, or that memory was refused.
pub fn all_with_parts<'v>(
    alloc: Global,
    parts: Parts<'_>,
    levels: usize,
    items: &[Item<'v>],
) -> Result<Vec<Item<'v>>, SourceError>
    ensures ok { IfOk result (λ v. spec.all_with_parts (spec.parts_row parts.entry) levels
        (map item_row items.now) ≡ Ok (map item_row v.items)) }
    ensures err { IfErr result (Says (λ f. spec.all_with_parts (spec.parts_row parts.entry) levels
        (map item_row items.now) ≡ Err f)) }
{
    let mut all = Vec::new(alloc);
    for item in items {
        let mut more = with_parts(alloc, parts, levels, item)?;
        all.append(&mut more)?;
    }
    Ok(all)
}
