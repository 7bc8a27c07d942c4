// The command `simplify`.

ghost use Rattle.std.specs.Prelude.{◌<◌, IfErr, IfOk, OnOk};
ghost use Rattle.check_files.specs.Told.{Does, Tells};
ghost use Rattle.list_program.specs.Named.{inside_of};
ghost use Rattle.meaning_program.specs.Files.{IsAllMeant, IsNoRun};
ghost use Rattle.spdx_commands.specs.Said.{text_of, told_of};
ghost use Rattle.spdx_commands.specs.Simplify.{
  AreSaidOf,
  AreUnmeant,
  IsSimplify,
  IsToldOf,
  SaysMeant,
};
ghost use Rattle.spdx_commands.specs.Stops.{IsStopped};
ghost use Rattle.spdx_troubles.specs.Causes.{meaning_trouble};

use crate::listener::Listener;
use crate::said::{Said, say_each};
use line_engine::device::Sink;
use list_program::Inside;
use meaning_program::{FileEnd, Request, Run, Simplified, UnmeantLine};
use shelves::Shelf;
use spdx_troubles::Trouble;
use std::alloc::{AllocError, Global};

/// Writes each line's expression as its meaning text, tells which lines have none and which files can't be read, and answers
/// the status: 0 exactly if there are no such, 1 if there are such lines alone, else 2. A line without a meaning text is
/// written as it stands.
///
/// # Errors
///
/// The list isn't had: nothing is written. Or the output fails, or memory was refused: what was written and told is a beginning.
pub fn simplify<S: Shelf, O: Sink, T: Listener>(
    alloc: Global,
    shelf: &S,
    inside: Inside<'_>,
    request: Request<'_>,
    output: &mut O,
    listener: &mut T,
) -> Result<u8, Trouble>
    ensures ok { IfOk result (λ status. Does (O.told output.old) (O.told output.new)
        (T.heard listener.old) (T.heard listener.new) (λ text told. IsSimplify (S.told shelf.now)
        (inside_of inside.entry.list.now inside.entry.extras.now) request.entry text told
        status)) }
    ensures err { IfErr result (IsStopped meaning_trouble (IsNoRun (S.told shelf.now)
        (inside_of inside.entry.list.now inside.entry.extras.now) request.entry)
        (SaysMeant (S.told shelf.now) (inside_of inside.entry.list.now inside.entry.extras.now)
        request.entry) (O.told output.old) (O.told output.new) (T.heard listener.old)
        (T.heard listener.new)) }
    ensures passes { IfOk result (λ status. status < 1 → IsAllMeant (S.told shelf.now)
        (inside_of inside.entry.list.now inside.entry.extras.now) request.entry) }
{
    let run = meaning_program::simplify(alloc, shelf, inside, request)?;
    let status = run.status();
    let Run { files } = run;
    let all = all_said(alloc, files)?;
    say_each(alloc, all, output, listener)?;
    Ok(status)
}

// What is said of each file.
#[tactic(auto, using(crate::proofs::Steps::no_file, crate::proofs::Steps::file_said))]
fn all_said(alloc: Global, files: Vec<FileEnd>) -> Result<Vec<Said>, AllocError>
    ensures { IfOk result (λ all. AreSaidOf files.items all.items) }
{
    let mut all = Vec::new(alloc);
    for file in files {
        let said = file_said(alloc, file)?;
        all.push(said)?;
    }
    Ok(all)
}

// The lines of a file, behind what is told of it.
fn file_said(alloc: Global, file: FileEnd) -> Result<Said, AllocError>
    ensures { IfOk result (λ said. IsToldOf file (text_of said) (told_of said)) }
{
    let mut before = Vec::new(alloc);
    match file {
        FileEnd::Read(path, simplified) => {
            let Simplified { text, unmeant } = simplified;
            tell_unmeant(alloc, path.as_str(), unmeant, &mut before)?;
            Ok(Said {
                before,
                text,
                after: Vec::new(alloc),
            })
        }
        FileEnd::Unread(path, error) => {
            before.push(Trouble::of_path(path, error))?;
            Ok(Said {
                before,
                text: Vec::new(alloc),
                after: Vec::new(alloc),
            })
        }
    }
}

// Tells which lines have no meaning text, and why.
#[tactic(auto, using(crate::proofs::Steps::no_line))]
fn tell_unmeant<T: Listener>(
    alloc: Global,
    path: &str,
    unmeant: Vec<UnmeantLine>,
    listener: &mut T,
) -> Result<(), AllocError>
    ensures { OnOk result (Tells (T.heard listener.old) (T.heard listener.new)
        (AreUnmeant path.now unmeant.items)) }
{
    for line in unmeant {
        let UnmeantLine { number, why } = line;
        let place = format!(in alloc; "{path}:{number}")?;
        listener.hear(alloc, Trouble::Unmeant(place, why))?;
    }
    Ok(())
}
