// What the calls make of a row.

use crate::escapes::{bytes_of, put_bytes};
use license_tags::{Comment, comment_of, tags};
use line_diff::put_diff;
use std::alloc::{AllocError, Global};

/// The call that rows are of.
#[derive(Clone, Copy)]
pub(crate) enum Call {
    Tags(Comment),
    Diff,
}

impl Call {
    pub(crate) fn named(name: &str) -> Call {
        if name == "diff" {
            Call::Diff
        } else {
            let path = name.strip_prefix("tags ").unwrap_or("");
            Call::Tags(comment_of(path))
        }
    }
}

pub(crate) fn answer(alloc: Global, call: Call, given: &str) -> Result<String, AllocError> {
    match call {
        Call::Tags(comment) => tags_answer(alloc, comment, given),
        Call::Diff => diff_answer(alloc, given),
    }
}

fn tags_answer(alloc: Global, comment: Comment, given: &str) -> Result<String, AllocError> {
    let file = bytes_of(alloc, given)?;
    let mut shown = String::new(alloc);
    for tag in &tags(alloc, &file, comment)? {
        let between = if shown.is_empty() { "" } else { "; " };
        let (line, start, end) = (tag.line, tag.start, tag.end);
        write!(shown, "{between}{line} {start}-{end} ")?;
        put_bytes(&mut shown, file.get(start..end).unwrap_or(b"?"))?;
    }
    Ok(shown)
}

fn diff_answer(alloc: Global, given: &str) -> Result<String, AllocError> {
    let (old, new) = given.split_once(" | ").unwrap_or((given, ""));
    let old = bytes_of(alloc, old)?;
    let new = bytes_of(alloc, new)?;
    let mut diff = Vec::new(alloc);
    put_diff(alloc, &mut diff, "f", &old, &new)?;
    let mut shown = String::new(alloc);
    put_bytes(&mut shown, &diff)?;
    Ok(shown)
}
