// By what a list differs from an older one, over a shelf of values.
//
// The first rows are the shelf's files, as `shelf` reads them. A row `diff OLD | NEW => WANTED`, where `-` is the list inside,
// has what is told, with ` / ` between lines; or why nothing is. In a row `unread OLD | NEW` what is to stand in the place of
// deprecated names isn't readable.

use crate::parts::shows::untold;
use crate::shelf::{REPLACEMENTS, inside, lines_of};
use list_told::{Lists, diff};
use shelves::Held;
use std::alloc::{AllocError, Global};

pub(crate) fn answer(alloc: Global, shelf: &Held, given: &str) -> Result<String, AllocError> {
    let (head, new) = given.split_once(" | ").unwrap_or((given, ""));
    let (how, old) = head.split_once(' ').unwrap_or((head, "-"));
    let replacements = if how == "unread" { "[]" } else { REPLACEMENTS };
    let lists = Lists {
        old: if old == "-" { None } else { Some(old) },
        new,
    };
    match diff(alloc, shelf, inside(), replacements.as_bytes(), lists) {
        Ok(text) => {
            let lines = lines_of(alloc, &text)?;
            String::from_str(alloc, lines.as_str().trim_start())
        }
        Err(trouble) => untold(alloc, &trouble),
    }
}
