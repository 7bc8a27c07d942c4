// Which license texts a folder lacks, and which of its files nobody needs.
//
// A row is `USED | FILES => MISSING | UNUSED`, each a list of names with blanks between. A line that begins with `#` says
// something to readers.

use crate::names::{names_of, put_name};
use notice_texts::owed_texts;
use std::alloc::{AllocError, Global};

pub(crate) fn answer(alloc: Global, given: &str) -> Result<String, AllocError> {
    let (used, files) = given.split_once(" | ").unwrap_or((given, ""));
    let used = names_of(alloc, used)?;
    let files = names_of(alloc, files)?;
    let owed = owed_texts(alloc, &used, &files)?;
    let missing = text_of(alloc, &owed.missing)?;
    let unused = text_of(alloc, &owed.unused)?;
    format!(in alloc; "{missing} | {unused}")
}

fn text_of(alloc: Global, names: &[&str]) -> Result<String, AllocError> {
    let mut text = String::new(alloc);
    for name in names {
        put_name(&mut text, name)?;
    }
    Ok(text)
}
