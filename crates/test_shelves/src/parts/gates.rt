// What `gate` writes and tells of files, and with which status it ends, over a shelf of values.
//
// The first rows are the shelf's files, as `shelf` reads them. A row `PATHS | POLICY | WORDS => WANTED` has the status, what is
// written in the short form, with ` / ` between lines, and each line that is told, in brackets. The words are `list PATH`,
// `before PATH`, `explain NAME`, `empty`, or `auto`, by which the form of the files is guessed; else each of their lines is a
// package. A line that begins with `#` says something to readers.

use crate::shelf::{REPLACEMENTS, inside, lines_of};
use crate::told::Told;
use finding_forms::Style;
use gate_program::{Look, Request};
use gate_told::Format;
use line_engine::stream::Output;
use package_commands::{GateTask, gate};
use package_files::{Source, Wanted};
use package_sources::Form;
use shelves::Held;
use std::alloc::{AllocError, Global};

pub(crate) fn answer(alloc: Global, shelf: &Held, given: &str) -> Result<String, AllocError> {
    let (paths, rest) = given.split_once(" | ").unwrap_or((given, ""));
    let (policy, words) = rest.split_once(" | ").unwrap_or((rest, ""));
    let paths: Vec<&str> = paths.split(' ').collect(alloc)?;
    let asked = GateTask {
        run: request(&paths, policy, words),
        is_quiet: false,
    };
    let mut written = Output::new(Vec::new(alloc));
    let mut told = Told::new(alloc);
    let status = status_of(alloc, shelf, asked, &mut written, &mut told)?;
    let lines = lines_of(alloc, &written.into_inner())?;
    told.answer(alloc, status, lines.as_str(), None)
}

// With which status the command ends; where it stops at a trouble, that is told last.
fn status_of(
    alloc: Global,
    shelf: &Held,
    asked: GateTask<'_>,
    written: &mut Output<Vec<u8>>,
    told: &mut Told,
) -> Result<u8, AllocError> {
    let replacements = REPLACEMENTS.as_bytes();
    match gate(alloc, shelf, inside(), replacements, asked, written, told) {
        Ok(status) => Ok(status),
        Err(trouble) => told.hear_last(alloc, trouble),
    }
}

fn request<'r>(paths: &'r [&'r str], policy: &'r str, words: &'r str) -> Request<'r> {
    Request {
        list: words.strip_prefix("list "),
        policy,
        wanted: Wanted {
            source: if words == "auto" {
                Source::Auto
            } else {
                Source::Named(Form::Lines)
            },
            allow_empty: words == "empty",
            exclude_own: false,
        },
        paths,
        baseline: words.strip_prefix("before "),
        look: Look {
            format: Format::Short,
            style: Style::Plain,
            explain: words.strip_prefix("explain "),
            tells_unused: false,
        },
    }
}
