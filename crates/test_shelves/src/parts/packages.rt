// The packages of files, over a shelf of values.
//
// The first rows are the shelf's files, as `shelf` reads them. A row
// `PATH | WORDS => WANTED` has the packages of a file; its words are a form, `empty` where a file without packages passes, and
// `others` where one's own are left out. `before PATH | FORM => WANTED` reads a baseline. What is wanted is the path as it is
// told, the form if it was guessed, and each package by name, version and licence, or why there are none. A line that begins
// with `#` says something to readers.

use package_files::{FileFault, Listed, Source, Wanted, listed_at, listed_before};
use package_sources::{Form, License};
use shelves::Held;
use std::alloc::{AllocError, Global};

pub(crate) fn answer(alloc: Global, shelf: &Held, given: &str) -> Result<String, AllocError> {
    let (path, words) = given.split_once(" | ").unwrap_or((given, ""));
    let listed = match path.strip_prefix("before ") {
        Some(path) => listed_before(alloc, shelf, source_of(words), path),
        None => listed_at(alloc, shelf, wanted_by(words), path),
    };
    match listed {
        Ok(listed) => told(alloc, &listed),
        Err(FileFault::Unreadable(path, _)) => format!(in alloc; "unreadable {path}"),
        Err(FileFault::Source(path, _)) => format!(in alloc; "refused {path}"),
        Err(FileFault::Empty(path)) => format!(in alloc; "no packages in {path}"),
        Err(FileFault::Memory) => Err(AllocError),
    }
}

fn wanted_by(words: &str) -> Wanted<'_> {
    Wanted {
        source: source_of(words),
        allow_empty: words.split(' ').any(|word| word == "empty"),
        exclude_own: words.split(' ').any(|word| word == "others"),
    }
}

fn source_of(words: &str) -> Source<'_> {
    match words.split(' ').next() {
        Some("lines") => Source::Named(Form::Lines),
        Some("npm") => Source::Named(Form::Npm),
        Some("cargo") => Source::Named(Form::Cargo),
        _ => Source::Auto,
    }
}

fn told(alloc: Global, listed: &Listed) -> Result<String, AllocError> {
    let mut told = String::from_str(alloc, listed.path.as_str())?;
    if let Some(form) = listed.guessed {
        let form = format!(in alloc; " ({form:?})")?;
        told.push_str(form.as_str())?;
    }
    told.push(':')?;
    for package in &listed.packages {
        let name = package.name.as_str();
        let version = match &package.version {
            Some(version) => version.as_str(),
            None => "-",
        };
        let license = match &package.license {
            License::Stated(text) => text.as_str(),
            License::Unstated => "unstated",
        };
        told.push_str(format!(in alloc; " [{name} {version} {license}]")?.as_str())?;
    }
    Ok(told)
}
