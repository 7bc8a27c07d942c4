// What is found in files and folders: what is written, and what is told.
//
// The first rows are the shelf's files and folders, as `shelf` reads them. A row `HOW WANTED LIST PATH PATH .. => ANSWER` has in HOW the
// format, `short`, `json` or `sarif`, and behind it perhaps `+lax`, `+untagged` or `+bare`, which leaves the last lines out; WANTED is `names`,
// `tags`, `manifests` or a form's word, and `-` is the list inside, and as a path the input. The answer is the status, what is written, in
// quotes, where `\n` is a newline, and behind a semicolon each what is told; or why there is nothing.

use crate::fragile::Fragile;
use crate::parts::fixes::{put_quoted, wanted_by};
use crate::shelf::{REPLACEMENTS, inside};
use check_files::{CheckTrouble, Telling};
use check_program::{CheckEnd, Inside, Request, check};
use finding_forms::Format;
use line_engine::stream::Output;
use shelves::Held;
use spdx_lexer::token::ParseMode;
use std::alloc::{AllocError, Global};

// What was told.
#[derive(Drop)]
struct Listener {
    told: String,
}

impl Telling for Listener {
    ghost use Rattle.check_files.specs.Told.{unkept};

    ghost told = { λ _. unkept };

    fn tell(&mut self, alloc: Global, trouble: CheckTrouble) -> Result<(), AllocError> {
        self.told.push_str("; ")?;
        self.told.push_str(trouble_text(alloc, &trouble)?.as_str())
    }

    fn seen(&mut self, _alloc: Global, _files: u64) -> Result<(), AllocError> {
        Ok(())
    }

    fn ended(&mut self) {}
}

pub(crate) fn answer(alloc: Global, shelf: &Held, given: &str) -> Result<String, AllocError> {
    let words: Vec<&str> = given.split(' ').collect(alloc)?;
    let [how, wanted, list, paths @ ..] = words.as_slice() else {
        return String::from_str(alloc, "no row");
    };
    let request = request(*how, *wanted, *list, paths);
    let shelf = Fragile { held: shelf };
    let mut output = Output::new(Vec::new(alloc));
    let mut listener = Listener {
        told: String::new(alloc),
    };
    match check(
        alloc,
        &shelf,
        what_is_inside(),
        request,
        &mut output,
        &mut listener,
    ) {
        Ok(status) => told_of(alloc, status, &output.into_inner(), listener.told.as_str()),
        Err(CheckEnd::List(_)) => String::from_str(alloc, "no list"),
        Err(CheckEnd::Output) => String::from_str(alloc, "no output"),
        Err(CheckEnd::Memory) => Err(AllocError),
    }
}

fn request<'r>(how: &str, wanted: &'r str, list: &'r str, paths: &'r [&'r str]) -> Request<'r> {
    Request {
        list: if list == "-" { None } else { Some(list) },
        mode: mode_of(how),
        format: format_of(how),
        wanted: wanted_by(wanted),
        texts: None,
        untagged: how.contains("+untagged"),
        summary: !how.contains("+bare"),
        paths,
    }
}

fn mode_of(how: &str) -> ParseMode {
    if how.contains("+lax") {
        ParseMode::LAX
    } else {
        ParseMode::STRICT
    }
}

fn format_of(how: &str) -> Format {
    if how.starts_with("json") {
        Format::Json
    } else if how.starts_with("sarif") {
        Format::Sarif
    } else {
        Format::Short
    }
}

fn what_is_inside() -> Inside<'static> {
    Inside {
        list: inside(),
        replacements: REPLACEMENTS.as_bytes(),
        version: "0",
    }
}

fn told_of(alloc: Global, status: u8, text: &[u8], troubles: &str) -> Result<String, AllocError> {
    let mut told = format!(in alloc; "{status} ")?;
    put_quoted(&mut told, text)?;
    told.push_str(troubles)?;
    Ok(told)
}

fn trouble_text(alloc: Global, trouble: &CheckTrouble) -> Result<String, AllocError> {
    match trouble {
        CheckTrouble::Unreadable(path, _) => format!(in alloc; "unreadable {path}"),
        CheckTrouble::Broken(path) => format!(in alloc; "broken {path}"),
        CheckTrouble::NoManifest(path) => format!(in alloc; "no manifest {path}"),
        CheckTrouble::Folder(path) => format!(in alloc; "folder {path}"),
        CheckTrouble::Unnamed(path, count) => format!(in alloc; "{count} unnamed in {path}"),
        CheckTrouble::LeftBehind(path) => format!(in alloc; "left behind {path}"),
    }
}
