// What mends files: what is put out, what they are to hold, and why others are left out.
//
// The first rows are the shelf's files and folders, as `shelf` reads them. A row `HOW WANTED LIST PATH PATH .. => ANSWER`, where
// HOW is `diff` or `write`, WANTED is `names`, `tags`, `manifests` or a form's word, and `-` is the list inside, and as a path the
// input, has the status, and behind a semicolon what comes of each path, its files with commas between; or why there is nothing.
// `\n` is a newline.

ghost use Rattle.std.specs.Prelude.{ℕ};

use crate::parts::simplifies::put_shown;
use crate::shelf::inside;
use fix_program::{Deed, FileEnd, FixFault, FixTrouble, Fixed, Progress, Request, Run, fix};
use shelves::Held;
use source_trees::Wanted;
use std::alloc::{AllocError, Global};

// Tells nobody how far a run is.
#[derive(Drop)]
struct Quiet {}

impl Progress for Quiet {
    ghost Shows = { λ _ _. Unit {0} };

    fn seen(&mut self, _alloc: Global, _files: u64) -> Result<(), AllocError> {
        Ok(())
    }

    fn ended(&mut self) {}
}

pub(crate) fn answer(alloc: Global, shelf: &Held, given: &str) -> Result<String, AllocError> {
    let words: Vec<&str> = given.split(' ').collect(alloc)?;
    let Some(request) = request(&words) else {
        return String::from_str(alloc, "no row");
    };
    match fix(alloc, shelf, inside(), request, &mut Quiet {}) {
        Ok(run) => told_of(alloc, &run),
        Err(FixFault::List(_)) => String::from_str(alloc, "no list"),
        Err(FixFault::Memory) => Err(AllocError),
    }
}

/// What the words of a row ask for. Whatever stands first, but for `diff`, files are written.
pub(crate) fn request<'w>(words: &'w [&'w str]) -> Option<Request<'w>> {
    let [how, wanted, list, paths @ ..] = words else {
        return None;
    };
    Some(Request {
        list: if *list == "-" { None } else { Some(*list) },
        wanted: wanted_by(*wanted),
        is_written: *how != "diff",
        breaks_links: *how == "break",
        paths,
    })
}

pub(crate) fn wanted_by<'w>(word: &'w str) -> Wanted<'w> {
    match word {
        "names" => Wanted::ByName,
        "tags" => Wanted::Headers,
        "manifests" => Wanted::Manifests,
        form => Wanted::Form(form),
    }
}

fn told_of(alloc: Global, run: &Run) -> Result<String, AllocError> {
    let status = run.status();
    let mut told = format!(in alloc; "{status}")?;
    for path in &run.paths {
        let mut before = "; ";
        for end in &path.ends {
            told.push_str(before)?;
            put_end(alloc, &mut told, end)?;
            before = ", ";
        }
    }
    Ok(told)
}

fn put_end(alloc: Global, told: &mut String, end: &FileEnd) -> Result<(), AllocError> {
    match end {
        FileEnd::Fixed(fixed) => put_fixed(told, fixed),
        FileEnd::LeftOut(trouble) => told.push_str(trouble_text(alloc, trouble)?.as_str()),
        FileEnd::LeftBehind(path) => {
            told.push_str("left behind ")?;
            told.push_str(path.as_str())
        }
    }
}

fn put_fixed(told: &mut String, fixed: &Fixed) -> Result<(), AllocError> {
    match &fixed.deed {
        Deed::Nothing => told.push_str("stays")?,
        Deed::Put(text) => {
            told.push_str("puts ")?;
            put_quoted(told, text)?;
        }
        Deed::Replace(new) => {
            told.push_str(new.path.as_str())?;
            told.push_str(" holds ")?;
            put_quoted(told, &new.bytes)?;
        }
    }
    if fixed.is_left {
        told.push_str(" with some left")?;
    }
    Ok(())
}

pub(crate) fn put_quoted(told: &mut String, bytes: &[u8]) -> Result<(), AllocError> {
    told.push('"')?;
    put_shown(told, bytes)?;
    told.push('"')
}

fn trouble_text(alloc: Global, trouble: &FixTrouble) -> Result<String, AllocError> {
    match trouble {
        FixTrouble::Unreadable(path, _) => format!(in alloc; "unreadable {path}"),
        FixTrouble::Special(path) => format!(in alloc; "special {path}"),
        FixTrouble::Above(path) => format!(in alloc; "above {path}"),
        FixTrouble::Manifest(path, fault) => {
            let line = fault.line;
            format!(in alloc; "refused {path}:{line}")
        }
        FixTrouble::NoManifest(path) => format!(in alloc; "no manifest {path}"),
        FixTrouble::Folder(path) => format!(in alloc; "folder {path}"),
        FixTrouble::Unnamed(path, count) => format!(in alloc; "{count} unnamed in {path}"),
        FixTrouble::Memory => Err(AllocError),
    }
}
