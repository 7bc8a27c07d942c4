// Texts of licenses as the ecosystems write them.

ghost use Rattle.std.specs.Prelude.{◌≡◌, ◌++◌, IfOk, OnOk, string_bytes};
ghost use Rattle.package_sources.specs.Texts as spec;

use std::alloc::{AllocError, Global};

// Appends a character, and ` OR ` for a slash.
fn put_letter(line: &mut String, letter: char) -> Result<(), AllocError>
    ensures { OnOk result (
        string_bytes line.new ≡ string_bytes line.old ++ spec.slash_as_or letter) }
{
    if letter == '/' {
        return line.push_str(" OR ");
    }
    line.push(letter)
}

/// The text, with ` OR ` for each slash.
pub(crate) fn slashes_as_or(alloc: Global, text: &str) -> Result<String, AllocError>
    ensures { IfOk result (λ t. string_bytes t ≡ spec.slashes_as_or text.now) }
{
    let mut line = String::new(alloc);
    for letter in text.chars() {
        put_letter(&mut line, letter)?;
    }
    Ok(line)
}
