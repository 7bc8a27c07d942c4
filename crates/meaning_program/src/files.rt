//! What each line of files means, over a shelf.

ghost use Rattle.std.specs.Prelude.{◌≡◌, ◌<◌, IfErr, IfOk, map};
ghost use Rattle.std.specs.IoError.{error_kind};
ghost use Rattle.std.specs.List.{AllZip, list_any};
ghost use Rattle.list_program.specs.Named.{inside_of};
ghost use Rattle.meaning_program.specs.Files as spec;
ghost use Rattle.meaning_program.specs.Files.{
  IsAllMeant,
  IsEndOf,
  IsNoRun,
  IsRun,
  path_in,
  status_of,
};

use crate::simplified::{Simplified, simplify_lines};
use crate::trouble::MeaningTrouble;
use list_program::{Inside, named_list};
use shelves::{Shelf, bytes_at, told_path};
use spdx_catalogue::Catalogue;
use std::alloc::{AllocError, Global};
use std::io::{self, ErrorKind};

/// What is asked of a run.
#[derive(Clone, Copy)]
pub struct Request<'a> {
    /// The path of the list, where one is named.
    pub list: Option<&'a str>,
    pub is_lax: bool,
    /// `-` is standard input.
    pub paths: &'a [&'a str],
}

/// What comes of a file, which stands before it as it is told.
#[derive(Drop)]
pub enum FileEnd {
    Read(String, Simplified),
    /// It can't be read.
    Unread(String, io::Error),
}

/// What comes of a run.
#[derive(Drop)]
pub struct Run {
    /// The end of each path's file, in their order.
    pub files: Vec<FileEnd>,
}

impl Run {
    /// The status: 2 where a file can't be read; else 1 where a line has no meaning text; else 0.
    pub fn status(&self) -> u8
        ensures { result ≡ status_of self.now }
    {
        if is_one_unread(&self.files) {
            2
        } else {
            u8::from(has_one_unmeant(&self.files))
        }
    }
}

fn is_one_unread(files: &[FileEnd]) -> bool
    ensures { result ≡ list_any spec.is_unread files.now }
{
    files.iter().any(|file| is_unread(file))
}

fn has_one_unmeant(files: &[FileEnd]) -> bool
    ensures { result ≡ list_any spec.has_unmeant files.now }
{
    files.iter().any(|file| has_unmeant(file))
}

fn is_unread(file: &FileEnd) -> bool
    ensures { result ≡ spec.is_unread file.now }
{
    matches!(file, FileEnd::Unread(..))
}

fn has_unmeant(file: &FileEnd) -> bool
    ensures { result ≡ spec.has_unmeant file.now }
{
    match file {
        FileEnd::Read(_, simplified) => !simplified.unmeant.is_empty(),
        FileEnd::Unread(..) => false,
    }
}

/// Writes for each line of each file the meaning text of its expression, by the list that is named, and tells which lines have
/// none; a file that can't be read is left out with its error. All of it is held in memory.
///
/// # Errors
///
/// The list isn't had, or memory was refused.
pub fn simplify<S: Shelf>(
    alloc: Global,
    shelf: &S,
    inside: Inside<'_>,
    request: Request<'_>,
) -> Result<Run, MeaningTrouble>
    ensures ok { IfOk result (IsRun (S.told shelf.now)
        (inside_of inside.entry.list.now inside.entry.extras.now) request.entry) }
    ensures err { IfErr result (IsNoRun (S.told shelf.now)
        (inside_of inside.entry.list.now inside.entry.extras.now) request.entry) }
    ensures passes { IfOk result (λ run. status_of run < 1 → IsAllMeant (S.told shelf.now)
        (inside_of inside.entry.list.now inside.entry.extras.now) request.entry) }
{
    let catalogue = named_list(alloc, shelf, inside, request.list)?;
    let files = files_at(alloc, shelf, &catalogue, request.is_lax, request.paths)?;
    Ok(Run { files })
}

fn files_at<S: Shelf>(
    alloc: Global,
    shelf: &S,
    catalogue: &Catalogue,
    is_lax: bool,
    paths: &[&str],
) -> Result<Vec<FileEnd>, AllocError>
    ensures { IfOk result (λ files. AllZip (IsEndOf (S.told shelf.now) catalogue.now is_lax)
        (map path_in paths.now) files.items) }
{
    let mut files = Vec::new(alloc);
    for path in paths {
        files.push(end_of(alloc, shelf, catalogue, is_lax, *path)?)?;
    }
    Ok(files)
}

fn end_of<S: Shelf>(
    alloc: Global,
    shelf: &S,
    catalogue: &Catalogue,
    is_lax: bool,
    path: &str,
) -> Result<FileEnd, AllocError>
    ensures { IfOk result (IsEndOf (S.told shelf.now) catalogue.now is_lax path.now) }
{
    let name = String::from_str(alloc, told_path(path))?;
    match bytes_at(alloc, shelf, path) {
        Ok(bytes) => {
            let simplified = simplify_lines(alloc, catalogue, is_lax, &bytes)?;
            Ok(FileEnd::Read(name, simplified))
        }
        Err(error) if refuses_memory(&error) => Err(AllocError),
        Err(error) => Ok(FileEnd::Unread(name, error)),
    }
}

fn refuses_memory(error: &io::Error) -> bool
    ensures { result ≡ spec.refuses_memory (error_kind error.now) }
{
    matches!(error.kind(), ErrorKind::OutOfMemory)
}
