// What the text of a license says.

ghost use Rattle.std.specs.Prelude.{◌≡◌, IfOk, map, option_map, string_bytes};
ghost use Rattle.std.specs.Option.{option_copied, option_to_list};
ghost use Rattle.package_items.specs.Rows.{license_of};
ghost use Rattle.package_items.specs.Texts as spec;

use crate::package::License;
use std::alloc::{AllocError, Global};

/// Whether the text has nothing but white space.
pub fn is_blank(text: &[u8]) -> bool
    ensures { result ≡ spec.is_blank text.now }
{
    text.iter().all(|b| b.is_ascii_whitespace())
}

/// Whether the text says nothing of a license: it is blank, `NONE` or `NOASSERTION`.
pub fn is_unstated(text: &str) -> bool
    ensures { result ≡ spec.is_unstated text.now }
{
    is_blank(text.as_bytes()) || text == "NONE" || text == "NOASSERTION"
}

/// What a text that is there says.
pub fn license_in(alloc: Global, text: &str) -> Result<License, AllocError>
    ensures { IfOk result (λ l. license_of l ≡ spec.license_in text.now) }
{
    if is_unstated(text) {
        return Ok(License::Unstated);
    }
    Ok(License::Stated(String::from_str(alloc, text)?))
}

/// A copy of the text, if there is one.
pub fn copy_of(alloc: Global, text: Option<&str>) -> Result<Option<String>, AllocError>
    ensures { IfOk result (λ copy. option_map string_bytes copy ≡ option_copied text.entry) }
{
    match text {
        Some(text) => Ok(Some(String::from_str(alloc, text)?)),
        None => Ok(None),
    }
}

/// A copy of the text in a list, which is empty if there is none.
pub fn in_list(alloc: Global, text: Option<&str>) -> Result<Vec<String>, AllocError>
    ensures { IfOk result (λ copies.
        map string_bytes copies.items ≡ option_to_list (option_copied text.entry)) }
{
    let mut copies = Vec::new(alloc);
    if let Some(text) = text {
        copies.push(String::from_str(alloc, text)?)?;
    }
    Ok(copies)
}
