// What comes of the page of packages with their texts, over a shelf of values.
//
// The first rows are the shelf's files, as `shelf` reads them; a blank line of theirs with tabs has a package's name, version and
// licence. A row `PATHS | ACCEPTED | WORDS => WANTED` has the status and the faults of files that are left out, in brackets; and
// then how the run ends. Of a page its lines are told that are not blank, each without the blanks about it and with ` / ` before
// it; then what is missing, in brackets, and the line of the totals. What is accepted is a list with commas, or `policy PATH`.
// The words are `texts DIR`, `sources DIR`, `installed`, `strict`, `follow`, `plain`, `html`, `together`, `list PATH`, and `auto`,
// with which the form of the files is guessed. A line that begins with `#` says something to readers.

use crate::shelf::{REPLACEMENTS, inside, told_faults};
use choice_program::Accepted;
use notice_forms::Format;
use notice_program::{End, NoticeTrouble, Request, Run, ToldPage, notice};
use owed_texts::{Folders, Obstacle, OwnTexts, TextTrouble};
use package_files::{Source, Wanted};
use package_sources::Form;
use shelves::Held;
use spdx_lexer::token::ParseMode;
use std::alloc::{AllocError, Global};

pub(crate) fn answer(alloc: Global, shelf: &Held, given: &str) -> Result<String, AllocError> {
    let (paths, rest) = given.split_once(" | ").unwrap_or((given, ""));
    let (accepted, words) = rest.split_once(" | ").unwrap_or((rest, ""));
    let paths: Vec<&str> = paths.split(' ').collect(alloc)?;
    let words: Vec<&str> = words.split(' ').collect(alloc)?;
    let request = request(&paths, accepted, &words);
    match notice(alloc, shelf, inside(), REPLACEMENTS.as_bytes(), request) {
        Ok(run) => told(alloc, &run),
        Err(NoticeTrouble::List(_)) => String::from_str(alloc, "no list"),
        Err(NoticeTrouble::Memory) => Err(AllocError),
    }
}

/// What a row asks for.
pub(crate) fn request<'r>(
    paths: &'r [&'r str],
    accepted: &'r str,
    words: &'r [&'r str],
) -> Request<'r> {
    Request {
        list: behind(words, "list"),
        wanted: Wanted {
            source: source(words),
            allow_empty: true,
            exclude_own: false,
        },
        paths,
        accepted: match accepted.strip_prefix("policy ") {
            Some(path) => Accepted::Policy(path),
            None => Accepted::List {
                list: accepted,
                mode: ParseMode::STRICT,
            },
        },
        one_for_all: has(words, "together"),
        folders: Folders {
            texts: behind(words, "texts"),
            own: own(words),
            follow: has(words, "follow"),
        },
        plain: has(words, "plain"),
        format: if has(words, "html") {
            Format::Html
        } else {
            Format::Text
        },
        is_strict: has(words, "strict"),
    }
}

fn source<'r>(words: &[&str]) -> Source<'r> {
    if has(words, "auto") {
        Source::Auto
    } else {
        Source::Named(Form::Tsv { header: false })
    }
}

fn own<'r>(words: &'r [&'r str]) -> OwnTexts<'r> {
    match behind(words, "sources") {
        Some(folder) => OwnTexts::Below(folder),
        None if has(words, "installed") => OwnTexts::Installed,
        None => OwnTexts::Left,
    }
}

fn has(words: &[&str], word: &str) -> bool {
    words.iter().any(|one| *one == word)
}

// The word behind this one.
fn behind<'r>(words: &'r [&'r str], word: &str) -> Option<&'r str> {
    let mut found = None;
    for (place, one) in words.iter().enumerate() {
        if *one == word {
            found = words.get(place + 1).copied();
        }
    }
    found
}

fn told(alloc: Global, run: &Run) -> Result<String, AllocError> {
    let status = run.status();
    let mut told = format!(in alloc; "{status}:")?;
    told.push_str(told_faults(alloc, &run.left_out)?.as_str())?;
    told.push_str(told_end(alloc, &run.end)?.as_str())?;
    Ok(told)
}

fn told_end(alloc: Global, end: &End) -> Result<String, AllocError> {
    match end {
        End::LeftOut => String::from_str(alloc, " left out"),
        End::NoChoice(_) => String::from_str(alloc, " no choice"),
        End::NoFolder(trouble) => {
            let path = &trouble.path;
            format!(in alloc; " no folder {path}")
        }
        End::NoOwn(troubles) | End::NoGeneral(troubles) => told_troubles(alloc, troubles),
        End::NotUtf8(name) => format!(in alloc; " no UTF-8: {name}"),
        End::Told(notice) => told_notice(alloc, notice),
    }
}

fn told_troubles(alloc: Global, troubles: &[TextTrouble]) -> Result<String, AllocError> {
    let mut told = String::new(alloc);
    for trouble in troubles {
        let TextTrouble { name, path, why } = trouble;
        let why = match why {
            Obstacle::Unreadable(_) => "unreadable",
            Obstacle::Unnamed => "no name",
            Obstacle::Special => "special",
            Obstacle::LeadsOut => "leads out",
            Obstacle::NoPath => "no path",
            Obstacle::Empty => "empty",
            Obstacle::NoFolder => "no folder",
        };
        told.push_str(format!(in alloc; " [{name}: {path}: {why}]")?.as_str())?;
    }
    Ok(told)
}

fn told_notice(alloc: Global, notice: &ToldPage) -> Result<String, AllocError> {
    let mut told = match &notice.page {
        Some(page) => lines_told(alloc, page)?,
        None => String::from_str(alloc, " no page")?,
    };
    for missing in &notice.missing {
        let (package, text) = (&missing.package, &missing.text);
        told.push_str(format!(in alloc; " [{package}: {text}]")?.as_str())?;
    }
    if let Some(totals) = &notice.totals {
        told.push_str(" ")?;
        told.push_str(totals.as_str().trim())?;
    }
    Ok(told)
}

/// The lines that aren't blank, nor rules.
pub(crate) fn lines_told(alloc: Global, page: &[u8]) -> Result<String, AllocError> {
    let text = String::from_utf8_lossy(alloc, page)?;
    let mut told = String::new(alloc);
    for line in text.as_str().lines() {
        let line = line.trim();
        if !line.is_empty() && !line.starts_with("----") {
            told.push_str(if told.is_empty() { " " } else { " / " })?;
            told.push_str(line)?;
        }
    }
    Ok(told)
}
