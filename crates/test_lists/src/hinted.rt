// Hints, and the phrases that they are asked of, over the list inside programs.
//
// A row is `PHRASE => NAMES by RULE`, the names that a phrase may mean with a blank between them, and the rule that gave them,
// or `PHRASE =>` of one that means none. `@ TEXT => PHRASE` is a row of phrases, where a `|` in the text says which place is
// asked. A line that begins with `#` says something to readers.

use spdx_catalogue::Catalogue;
use spdx_hints::{hints, phrase};
use std::alloc::{AllocError, Global};
use test_rows::{Tally, written_out};

/// Appends the rows that don't hold, and how many do; gives whether all do.
pub(crate) fn try_rows(
    alloc: Global,
    shown: &mut String,
    catalogue: &Catalogue,
    text: &str,
) -> Result<bool, AllocError> {
    let mut tally = Tally::new();
    for row in text.lines() {
        if !row.is_empty() && !row.starts_with('#') {
            let (given, wanted) = row.split_once("=>").unwrap_or((row, ""));
            let answered = answer(alloc, catalogue, given.trim())?;
            tally.count(shown, row, wanted.trim(), answered.as_str())?;
        }
    }
    tally.end(shown)
}

// The names that the phrase may mean, with a blank between them, and the rule.
fn named(alloc: Global, catalogue: &Catalogue, given: &str) -> Result<String, AllocError> {
    let mut shown = String::new(alloc);
    let meant = hints(alloc, catalogue, given.as_bytes())?;
    for name in meant.names {
        shown.push_str(name)?;
        shown.push(' ')?;
    }
    if let Some(rule) = meant.rule {
        shown.push_str("by ")?;
        shown.push_str(rule.word())?;
    }
    Ok(shown)
}

// The phrase at the place where the mark stands, or at the text's head.
fn phrased(alloc: Global, marked: &str) -> Result<String, AllocError> {
    let (before, behind) = marked.split_once('|').unwrap_or(("", marked));
    let text = format!(in alloc; "{before}{behind}")?;
    let found = phrase(text.as_bytes(), before.len());
    match std::str::from_utf8(found) {
        Ok(found) => String::from_str(alloc, found),
        Err(_) => String::from_str(alloc, "no text"),
    }
}

fn answer(alloc: Global, catalogue: &Catalogue, given: &str) -> Result<String, AllocError> {
    match given.strip_prefix("@ ") {
        Some(marked) => phrased(alloc, marked),
        None => named(alloc, catalogue, written_out(alloc, given)?.as_str()),
    }
}
