// What `diff` writes and tells of two files, and with which status it ends, over a shelf of values.
//
// The first rows are the shelf's files, as `shelf` reads them; they have columns with tabs between. A row
// `OLD NEW | POLICY | WORDS => WANTED`, where `-` is no policy, has the status, what is written, with ` / ` between
// lines, each line that is told, in brackets, and behind a semicolon the line of totals. The words are `list PATH`,
// `empty`, `quiet`, without the totals, or `auto`, by which the form of the files is guessed; else their lines have
// columns. A line that begins with `#` says something to readers.

use crate::shelf::{REPLACEMENTS, inside, lines_of};
use crate::told::{Told, line_of};
use changes_program::Request;
use line_engine::stream::Output;
use package_changes::Format;
use package_commands::{DiffEnd, DiffTask, diff};
use package_files::{Source, Wanted};
use package_sources::Form;
use shelves::Held;
use std::alloc::{AllocError, Global};

pub(crate) fn answer(alloc: Global, shelf: &Held, given: &str) -> Result<String, AllocError> {
    let (paths, rest) = given.split_once(" | ").unwrap_or((given, "-"));
    let (policy, words) = rest.split_once(" | ").unwrap_or((rest, ""));
    let asked = DiffTask {
        run: request(paths, policy, words),
        tells_totals: words != "quiet",
    };
    let mut written = Output::new(Vec::new(alloc));
    let mut told = Told::new(alloc);
    let DiffEnd { status, totals } = changed(alloc, shelf, asked, &mut written, &mut told)?;
    let lines = lines_of(alloc, &written.into_inner())?;
    told.answer(alloc, status, lines.as_str(), line_of(&totals))
}

// How the command ends; where it stops at a trouble, that is told last.
fn changed(
    alloc: Global,
    shelf: &Held,
    asked: DiffTask<'_>,
    written: &mut Output<Vec<u8>>,
    told: &mut Told,
) -> Result<DiffEnd, AllocError> {
    let replacements = REPLACEMENTS.as_bytes();
    match diff(alloc, shelf, inside(), replacements, asked, written, told) {
        Ok(changed) => Ok(changed),
        Err(trouble) => Ok(DiffEnd {
            status: told.hear_last(alloc, trouble)?,
            totals: None,
        }),
    }
}

fn request<'r>(paths: &'r str, policy: &'r str, words: &'r str) -> Request<'r> {
    let (old, new) = paths.split_once(' ').unwrap_or((paths, ""));
    Request {
        list: words.strip_prefix("list "),
        policy: if policy == "-" { None } else { Some(policy) },
        wanted: Wanted {
            source: if words == "auto" {
                Source::Auto
            } else {
                Source::Named(Form::Tsv { header: false })
            },
            allow_empty: words == "empty",
            exclude_own: false,
        },
        old,
        new,
        format: Format::Text,
    }
}
