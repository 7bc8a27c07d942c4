// The command `diff`.

ghost use Rattle.std.specs.Prelude.{◌≡◌, ◌<◌, ℕ, List, Some, IfErr, IfOk, OnOk, string_bytes, ◌++◌};
ghost use Rattle.std.specs.Option.{option_copied};
ghost use Rattle.changes_program.specs.Run.{IsNoRun, NewOnesPass};
ghost use Rattle.check_files.specs.Told.{Does};
ghost use Rattle.list_program.specs.Named.{inside_of};
ghost use Rattle.package_commands.specs.Changes as spec;
ghost use Rattle.package_commands.specs.Changes.{AreBothRead, IsDiff, IsDiffTold, SaysDiff, totals_line};
ghost use Rattle.spdx_commands.specs.Said.{text_of, told_of};
ghost use Rattle.spdx_commands.specs.Stops.{IsStopped};
ghost use Rattle.spdx_troubles.specs.Causes.{gate_trouble};

use crate::forms::tell_forms;
use crate::gated::tell_left_out;
use changes_program::{Request, Run, ToldChanges, Totals, changes};
use line_engine::device::Sink;
use list_program::Inside;
use shelves::Shelf;
use spdx_commands::{Listener, Said, say};
use spdx_troubles::Trouble;
use std::alloc::{AllocError, Global};

/// What `diff` is to do.
#[derive(Clone, Copy)]
pub struct DiffTask<'a> {
    /// What is asked of the run.
    pub run: Request<'a>,
    /// Whether the line of totals is wanted.
    pub tells_totals: bool,
}

/// How `diff` ended.
#[derive(Drop)]
pub struct DiffEnd {
    pub status: u8,
    /// The line of totals, where it is wanted and both files are read.
    pub totals: Option<String>,
}

/// Writes what changed between the packages of two files, tells which files are left out and how others were read, and
/// answers the status: 0 exactly if both are read and the policy, if there is one, refuses no package that came or
/// whose licence changed; 1 if both are read; else 2.
///
/// # Errors
///
/// The list or the policy isn't had: nothing is written. Or the output fails, or memory was refused: what was written and told is
/// a beginning.
pub fn diff<S: Shelf, O: Sink, T: Listener>(
    alloc: Global,
    shelf: &S,
    inside: Inside<'_>,
    replacements: &[u8],
    asked: DiffTask<'_>,
    output: &mut O,
    listener: &mut T,
) -> Result<DiffEnd, Trouble>
    ensures ok { IfOk result (λ changed. Does (O.told output.old) (O.told output.new)
        (T.heard listener.old) (T.heard listener.new) (λ text told. IsDiff (S.told shelf.now)
        (inside_of inside.entry.list.now inside.entry.extras.now) replacements.now
        asked.entry text told changed)) }
    ensures err { IfErr result (IsStopped gate_trouble (IsNoRun (S.told shelf.now)
        (inside_of inside.entry.list.now inside.entry.extras.now) replacements.now asked.entry.run)
        (SaysDiff (S.told shelf.now) (inside_of inside.entry.list.now inside.entry.extras.now)
        replacements.now asked.entry) (O.told output.old) (O.told output.new) (T.heard listener.old)
        (T.heard listener.new)) }
    ensures read { IfOk result (λ changed. changed.status < 2 →
        AreBothRead (S.told shelf.now) asked.entry.run) }
    ensures passes { IfOk result (λ changed. changed.status < 1 → (path : List ℕ) →
        option_copied asked.entry.run.policy ≡ Some path → NewOnesPass (S.told shelf.now)
        (inside_of inside.entry.list.now inside.entry.extras.now) replacements.now asked.entry.run
        path) }
{
    let outcome = changes(alloc, shelf, inside, replacements, asked.run)?;
    let status = outcome.status();
    let both = changes_said(alloc, asked.tells_totals, outcome)?;
    let (said, totals) = both;
    say(alloc, said, output, listener)?;
    Ok(DiffEnd { status, totals })
}

// What is said of a run, and the line of totals, where it is wanted and both files are read.
fn changes_said(
    alloc: Global,
    tells_totals: bool,
    outcome: Run,
) -> Result<(Said, Option<String>), AllocError>
    ensures { IfOk result (λ it. IsDiffTold tells_totals outcome (text_of it.0) (told_of it.0)
        it.1) }
{
    let Run {
        files,
        left_out,
        told,
    } = outcome;
    let mut before = Vec::new(alloc);
    tell_left_out(alloc, left_out, &mut before)?;
    tell_forms(alloc, &files, &mut before)?;
    told_said(alloc, tells_totals, told, before)
}

fn told_said(
    alloc: Global,
    tells_totals: bool,
    told: Option<ToldChanges>,
    before: Vec<Trouble>,
) -> Result<(Said, Option<String>), AllocError>
    ensures { IfOk result (λ it. spec.IsToldSaid before.items tells_totals told it.0 it.1) }
{
    let after = Vec::new(alloc);
    match told {
        Some(told) => {
            let ToldChanges { text, totals, .. } = told;
            let totals = totals_if(alloc, tells_totals, totals)?;
            Ok((
                Said {
                    before,
                    text,
                    after,
                },
                totals,
            ))
        }
        None => {
            let text = Vec::new(alloc);
            Ok((
                Said {
                    before,
                    text,
                    after,
                },
                None,
            ))
        }
    }
}

fn totals_if(
    alloc: Global,
    tells_totals: bool,
    totals: Totals,
) -> Result<Option<String>, AllocError>
    ensures { IfOk result (λ line. spec.line_of line ≡ spec.line_if tells_totals totals) }
{
    if tells_totals {
        Ok(Some(totals_text(alloc, totals)?))
    } else {
        Ok(None)
    }
}

fn totals_text(alloc: Global, totals: Totals) -> Result<String, AllocError>
    ensures { IfOk result (λ line. string_bytes line ≡ totals_line totals) }
{
    let mut line = String::new(alloc);
    put_packages(&mut line, totals)?;
    put_changed(&mut line, totals)?;
    put_refused(&mut line, totals.refused)?;
    line.push_str("\n")?;
    Ok(line)
}

fn packages_word(count: usize) -> &'static str
    ensures { result.now ≡ spec.packages_word count }
{
    if count == 1 { "package" } else { "packages" }
}

// How many packages there are, and how many came and went.
fn put_packages(line: &mut String, totals: Totals) -> Result<(), AllocError>
    ensures { OnOk result (string_bytes line.new
        ≡ string_bytes line.old ++ spec.packages_text totals) }
{
    let Totals {
        before,
        now,
        came,
        went,
        ..
    } = totals;
    let word = packages_word(before);
    write!(
        line,
        "{before} {word} before, {now} now: {came} came, {went} went"
    )
}

// How many changed their licence.
fn put_changed(line: &mut String, totals: Totals) -> Result<(), AllocError>
    ensures { OnOk result (string_bytes line.new
        ≡ string_bytes line.old ++ spec.changed_text totals) }
{
    let Totals { changed, more, .. } = totals;
    write!(
        line,
        ", {changed} changed license ({more} ask for more or other)"
    )
}

// How many the policy refuses, if it refuses some.
fn put_refused(line: &mut String, refused: usize) -> Result<(), AllocError>
    ensures { OnOk result (string_bytes line.new
        ≡ string_bytes line.old ++ spec.refused_text refused) }
{
    if refused > 0 {
        write!(line, ", {refused} refused")
    } else {
        Ok(())
    }
}
