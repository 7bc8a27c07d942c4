// What `fix` writes, puts in the places of files and tells, and with which status it ends, over a shelf of values.
//
// The first rows are the shelf's files, as `shelf` reads them. A row `HOW WANTED LIST PATH PATH .. => ANSWER`, as `fixes` has it,
// where HOW may be `break` too, to write files that have other names, has the status; what is written, in quotes; behind a
// semicolon each file that takes other bytes, and these; and each line that is told, in brackets. What stands in the way of new
// bytes is told by the file's name: `changed`, `linked`, `owned`, `full` or `starved`; with `set` in it the file loses its set-id
// bits. A line that begins with `#` says something to readers.

use crate::desk::Desk;
use crate::parts::fixes::{put_quoted, request};
use crate::shelf::inside;
use crate::told::Told;
use fix_program::Request;
use line_engine::stream::Output;
use shelves::{Held, HeldFile, Shelf, Stamp, Stamped};
use spdx_commands::{Loss, Obstacle, Replacing, fix};
use std::alloc::{AllocError, Global};
use std::io::{self, ErrorKind};

/// Puts bytes in the places of the shelf's files, as far as their names have it.
#[derive(Drop)]
pub(crate) struct Places<'d> {
    desk: &'d Desk<'d>,
}

impl<'d> Places<'d> {
    pub(crate) fn new(desk: &'d Desk<'d>) -> Places<'d> {
        Places { desk }
    }
}

impl Replacing for Places<'_> {
    ghost use Rattle.check_files.specs.Told.{unkept};

    ghost tried = { λ _. unkept };

    fn replace(
        &mut self,
        alloc: Global,
        path: &str,
        read: Stamp,
        breaks_links: bool,
        bytes: &[u8],
    ) -> Result<Loss, Obstacle> {
        if let Some(obstacle) = obstacle(path, breaks_links) {
            return Err(obstacle);
        }
        let Stamped { stamp, .. } = self.desk.read_stamped(alloc, path)?;
        if stamp != read {
            return Err(Obstacle::Changed);
        }
        self.desk.put(alloc, path, bytes)?;
        Ok(loss(path))
    }
}

fn obstacle(path: &str, breaks_links: bool) -> Option<Obstacle> {
    if path.contains("changed") {
        Some(Obstacle::Changed)
    } else if path.contains("linked") && !breaks_links {
        Some(Obstacle::Linked)
    } else if path.contains("owned") {
        Some(Obstacle::Owner(io::Error::from(ErrorKind::PermissionDenied)))
    } else if path.contains("full") {
        Some(Obstacle::Failed(io::Error::from(ErrorKind::StorageFull)))
    } else if path.contains("starved") {
        Some(Obstacle::Failed(io::Error::from(ErrorKind::OutOfMemory)))
    } else {
        None
    }
}

fn loss(path: &str) -> Loss {
    if path.contains("set") {
        Loss::SetId
    } else {
        Loss::Nothing
    }
}

pub(crate) fn answer(alloc: Global, shelf: &Held, given: &str) -> Result<String, AllocError> {
    let words: Vec<&str> = given.split(' ').collect(alloc)?;
    let Some(request) = request(&words) else {
        return String::from_str(alloc, "no row");
    };
    let desk = Desk::new(alloc, shelf);
    let mut written = Output::new(Vec::new(alloc));
    let mut told = Told::new(alloc);
    let status = status_of(alloc, &desk, request, &mut written, &mut told)?;
    let told = told.in_brackets(alloc)?;
    let said = said(alloc, status, &written.into_inner(), &desk.into_put())?;
    format!(in alloc; "{said}{told}")
}

// The status, what is written, and what files were to take.
fn said(alloc: Global, status: u8, written: &[u8], put: &[HeldFile]) -> Result<String, AllocError> {
    let mut said = format!(in alloc; "{status} ")?;
    put_quoted(&mut said, written)?;
    put_places(&mut said, put)?;
    Ok(said)
}

// With which status the command ends; where it stops at a trouble, that is told last.
fn status_of(
    alloc: Global,
    desk: &Desk<'_>,
    request: Request<'_>,
    written: &mut Output<Vec<u8>>,
    told: &mut Told,
) -> Result<u8, AllocError> {
    let mut places = Places::new(desk);
    match fix(alloc, desk, inside(), request, &mut places, written, told) {
        Ok(status) => Ok(status),
        Err(trouble) => told.hear_last(alloc, trouble),
    }
}

pub(crate) fn put_places(answer: &mut String, put: &[HeldFile]) -> Result<(), AllocError> {
    for file in put {
        answer.push_str("; ")?;
        answer.push_str(file.path.as_str())?;
        answer.push_str(" holds ")?;
        put_quoted(answer, &file.bytes)?;
    }
    Ok(())
}
