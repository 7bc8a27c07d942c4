// What stands at members.

ghost use Rattle.std.specs.Prelude.{◌≡◌, ◌++◌, Ok, Err, IfOk, IfErr, map};
ghost use Rattle.package_items.specs.Rows.{Says, item_row, not_text, license_of};
ghost use Rattle.package_items.specs.Items.{texts_of as all_texts};
ghost use Rattle.package_items.specs.Members as spec;
ghost use Rattle.package_items.specs.Values.{found_of as kind_found, seen};
ghost use Rattle.std.specs.Option.{option_copied};

use crate::error::{SourceError, SourceFault};
use crate::item::Item;
use crate::json::found_of;
use crate::package::License;
use crate::texts::license_in;
use serde_json::Value;
use std::alloc::Global;

// The fault that no text stands there.
fn no_text(alloc: Global, item: &Item<'_>, pointer: &str, found: Option<&Value>) -> SourceError
    ensures { Says (λ f. f ≡ not_text ((item_row item.now).at ++ pointer.now)
        (kind_found (seen found.entry))) result }
{
    let start = item.at.as_str();
    match format!(in alloc; "{start}{pointer}") {
        Ok(at) => SourceError::Refused(SourceFault::NotText(at, found_of(found))),
        Err(_) => SourceError::NoMemory,
    }
}

/// The text that stands at a pointer from an item.
///
/// # Errors
///
/// That no text stands there, or that memory was refused.
pub fn text_of<'v>(
    alloc: Global,
    item: &Item<'_>,
    pointer: &str,
    found: Option<&'v Value>,
) -> Result<&'v str, SourceError>
    ensures ok { IfOk result (λ t. spec.text_of ((item_row item.now).at ++ pointer.now)
        (seen found.entry) ≡ Ok t.now) }
    ensures err { IfErr result (Says (λ f. spec.text_of ((item_row item.now).at ++ pointer.now)
        (seen found.entry) ≡ Err f)) }
{
    match found {
        Some(Value::String(text)) => Ok(text.as_str()),
        _ => Err(no_text(alloc, item, pointer, found)),
    }
}

/// The text that stands there; null is as nothing.
///
/// # Errors
///
/// That something else stands there, or that memory was refused.
pub fn text_if_any<'v>(
    alloc: Global,
    item: &Item<'_>,
    pointer: &str,
    found: Option<&'v Value>,
) -> Result<Option<&'v str>, SourceError>
    ensures ok { IfOk result (λ t. spec.text_if_any ((item_row item.now).at ++ pointer.now)
        (seen found.entry) ≡ Ok (option_copied t)) }
    ensures err { IfErr result (Says (λ f. spec.text_if_any ((item_row item.now).at ++ pointer.now)
        (seen found.entry) ≡ Err f)) }
{
    match found {
        None => Ok(None),
        Some(Value::Null) => Ok(None),
        Some(Value::String(text)) => Ok(Some(text.as_str())),
        _ => Err(no_text(alloc, item, pointer, found)),
    }
}

/// The license that stands there; it is unstated where nothing or null stands.
///
/// # Errors
///
/// That something else stands there, or that memory was refused.
pub fn license_at(
    alloc: Global,
    item: &Item<'_>,
    pointer: &str,
    found: Option<&Value>,
) -> Result<License, SourceError>
    ensures ok { IfOk result (λ l. spec.license_at ((item_row item.now).at ++ pointer.now)
        (seen found.entry) ≡ Ok (license_of l)) }
    ensures err { IfErr result (Says (λ f. spec.license_at ((item_row item.now).at ++ pointer.now)
        (seen found.entry) ≡ Err f)) }
{
    match text_if_any(alloc, item, pointer, found)? {
        Some(text) => Ok(license_in(alloc, text)?),
        None => Ok(License::Unstated),
    }
}

/// The texts that items are, in their order.
///
/// # Errors
///
/// That an item is no text, the first such, or that memory was refused.
pub fn texts_of<'v>(alloc: Global, items: &[Item<'v>]) -> Result<Vec<&'v str>, SourceError>
    ensures ok { IfOk result (λ ts.
        all_texts (map item_row items.now) ≡ Ok (map (λ t. t.now) ts.items)) }
    ensures err { IfErr result (Says (λ f. all_texts (map item_row items.now) ≡ Err f)) }
{
    let mut texts = Vec::new(alloc);
    for item in items {
        texts.push(text_of(alloc, item, "", Some(item.value))?)?;
    }
    Ok(texts)
}
