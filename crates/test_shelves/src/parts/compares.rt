// What is told of how two texts compare, over a shelf of values.
//
// The first rows are the shelf's files, as `shelf` reads them. A row `MODE LIST | ONE | OTHER => WANTED`, where the mode is `strict` or
// `lax` and `-` is the list inside, has `same` or `other` and what is told, with ` / ` between lines; or why nothing is.

use crate::shelf::{inside, lines_of};
use meaning_program::{MeaningTrouble, TextPair, Unsaid, compare};
use shelves::Held;
use std::alloc::{AllocError, Global};

pub(crate) fn answer(alloc: Global, shelf: &Held, given: &str) -> Result<String, AllocError> {
    let (head, texts) = given.split_once(" | ").unwrap_or((given, ""));
    let (mode, list) = head.split_once(' ').unwrap_or((head, "-"));
    let (one, other) = texts.split_once(" | ").unwrap_or((texts, ""));
    let asked = TextPair {
        list: if list == "-" { None } else { Some(list) },
        is_lax: mode == "lax",
        one,
        other,
    };
    match compare(alloc, shelf, inside(), asked) {
        Ok(told) => {
            let lines = lines_of(alloc, &told.text)?;
            let said = if told.is_same { "same" } else { "other" };
            format!(in alloc; "{said}:{lines}")
        }
        Err(MeaningTrouble::List(_)) => String::from_str(alloc, "no list"),
        Err(MeaningTrouble::Unsaid(Unsaid { text, why })) => {
            format!(in alloc; "unsaid {text}: {why}")
        }
        Err(MeaningTrouble::Memory) => Err(AllocError),
    }
}
