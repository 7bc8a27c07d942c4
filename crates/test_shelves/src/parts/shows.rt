// What a list says of names, over a shelf of values.
//
// The first rows are the shelf's files, as `shelf` reads them. A row `show LIST | NAME | .. => WANTED`, where `-` is the list
// inside, has the status and what is told, with ` / ` between lines, and behind it each name that isn't listed with what is told
// of it, in brackets; or why nothing is told. In a row `unread LIST | ..` what is to stand in the place of deprecated names isn't
// readable.

use crate::shelf::{REPLACEMENTS, inside, lines_of};
use list_program::ListTrouble;
use list_told::{NameQuery, show};
use shelves::Held;
use std::alloc::{AllocError, Global};

pub(crate) fn answer(alloc: Global, shelf: &Held, given: &str) -> Result<String, AllocError> {
    let (head, names) = given.split_once(" | ").unwrap_or((given, ""));
    let (how, list) = head.split_once(' ').unwrap_or((head, "-"));
    let replacements = if how == "unread" { "[]" } else { REPLACEMENTS };
    let mut asked = Vec::new(alloc);
    for name in names.split(" | ") {
        if !name.is_empty() {
            asked.push(name)?;
        }
    }
    shown(alloc, shelf, replacements, list, &asked)
}

fn shown(
    alloc: Global,
    shelf: &Held,
    replacements: &str,
    list: &str,
    names: &[&str],
) -> Result<String, AllocError> {
    let asked = NameQuery {
        list: if list == "-" { None } else { Some(list) },
        names,
    };
    match show(alloc, shelf, inside(), replacements.as_bytes(), asked) {
        Ok(shown) => {
            let status = shown.status();
            let lines = lines_of(alloc, &shown.text)?;
            let mut told = format!(in alloc; "{status}:{lines}")?;
            for one in &shown.unlisted {
                let (name, why) = (one.name.as_str(), one.told.as_str());
                told.push_str(format!(in alloc; " [{name}{why}]")?.as_str())?;
            }
            Ok(told)
        }
        Err(trouble) => untold(alloc, &trouble),
    }
}

/// Why nothing is told of lists.
pub(crate) fn untold(alloc: Global, trouble: &ListTrouble) -> Result<String, AllocError> {
    match trouble {
        ListTrouble::Unreadable(path, _) => format!(in alloc; "unreadable {path}"),
        ListTrouble::Nameless => String::from_str(alloc, "nameless"),
        ListTrouble::NoList(path, _) => format!(in alloc; "no list {path}"),
        ListTrouble::NotMade(path, _) => format!(in alloc; "not made {path}"),
        ListTrouble::NoExtras(_) => String::from_str(alloc, "no extras"),
        ListTrouble::Output => String::from_str(alloc, "no output"),
        ListTrouble::Memory => Err(AllocError),
    }
}
