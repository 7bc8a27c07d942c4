// Names with blanks between.

use std::alloc::{AllocError, Global};

/// The names that stand between blanks.
pub(crate) fn names_of<'t>(alloc: Global, text: &'t str) -> Result<Vec<&'t str>, AllocError> {
    let mut names = Vec::new(alloc);
    for name in text.split(' ') {
        if !name.is_empty() {
            names.push(name)?;
        }
    }
    Ok(names)
}

/// Appends a name behind those that the text has.
pub(crate) fn put_name(text: &mut String, name: &str) -> Result<(), AllocError> {
    if !text.is_empty() {
        text.push(' ')?;
    }
    text.push_str(name)
}
