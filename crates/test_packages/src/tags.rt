// Where the tags of source files stand, and the difference of two texts.
//
// A line `= CALL` says of which call the rows behind it are (`diff`, or `tags PATH`: of the file at that path); a row is
// `GIVEN => WANTED`. A line that begins with `#` says something to readers, so a row's own `#` at the front is written
// `\x23`. Texts have the escapes of `escapes`. A tag is written `LINE START-END EXPRESSION`; the two texts of a diff are
// parted by ` | `.

mod answers;

use crate::tags::answers::{Call, answer};
use std::alloc::{AllocError, Global};
use test_rows::Tally;

/// Appends the rows that don't hold, and how many do; gives whether all do.
pub(crate) fn try_rows(alloc: Global, shown: &mut String, text: &str) -> Result<bool, AllocError> {
    let mut tally = Tally::new();
    let mut call = Call::named("");
    for row in text.lines() {
        if let Some(heading) = row.strip_prefix("= ") {
            call = Call::named(heading);
        } else if !row.is_empty() && !row.starts_with('#') {
            let (given, wanted) = row.split_once(" => ").unwrap_or((row, ""));
            let answered = answer(alloc, call, given)?;
            tally.count(shown, row, wanted, answered.as_str())?;
        }
    }
    tally.end(shown)
}
