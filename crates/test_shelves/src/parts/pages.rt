// What `notice` writes and tells of packages with their texts, and with which status it ends, over a shelf of values.
//
// The first rows are the shelf's files, as `shelf` reads them. A row `PATHS | ACCEPTED | WORDS => WANTED`, as `notices` has it, has
// the status, the page's lines as they are told there, each line that is told, in brackets, and behind a semicolon the line of
// totals. A line that begins with `#` says something to readers.

use crate::parts::notices::{lines_told, request};
use crate::shelf::{REPLACEMENTS, inside};
use crate::told::{Told, line_of};
use line_engine::stream::Output;
use notice_program::Request;
use package_commands::{NoticeEnd, notice};
use shelves::Held;
use std::alloc::{AllocError, Global};

pub(crate) fn answer(alloc: Global, shelf: &Held, given: &str) -> Result<String, AllocError> {
    let (paths, rest) = given.split_once(" | ").unwrap_or((given, ""));
    let (accepted, words) = rest.split_once(" | ").unwrap_or((rest, ""));
    let paths: Vec<&str> = paths.split(' ').collect(alloc)?;
    let words: Vec<&str> = words.split(' ').collect(alloc)?;
    let mut written = Output::new(Vec::new(alloc));
    let mut told = Told::new(alloc);
    let request = request(&paths, accepted, &words);
    let NoticeEnd { status, totals } = noticed(alloc, shelf, request, &mut written, &mut told)?;
    let page = lines_told(alloc, &written.into_inner())?;
    told.answer(alloc, status, page.as_str(), line_of(&totals))
}

// How the command ends; where it stops at a trouble, that is told last.
fn noticed(
    alloc: Global,
    shelf: &Held,
    request: Request<'_>,
    written: &mut Output<Vec<u8>>,
    told: &mut Told,
) -> Result<NoticeEnd, AllocError> {
    let replacements = REPLACEMENTS.as_bytes();
    match notice(alloc, shelf, inside(), replacements, request, written, told) {
        Ok(noticed) => Ok(noticed),
        Err(trouble) => Ok(NoticeEnd {
            status: told.hear_last(alloc, trouble)?,
            totals: None,
        }),
    }
}
