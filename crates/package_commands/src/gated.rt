// The command `gate`.

ghost use Rattle.std.specs.Prelude.{◌≡◌, ◌<◌, None, IfErr, IfOk, OnOk, map};
ghost use Rattle.std.specs.Option.{option_copied};
ghost use Rattle.check_files.specs.Told.{Does, Hears, Tells};
ghost use Rattle.gate_program.specs.Run.{AreAllAllowed, IsNoRun};
ghost use Rattle.list_program.specs.Named.{inside_of};
ghost use Rattle.package_commands.specs.Gate as spec;
ghost use Rattle.package_commands.specs.Gate.{AreBothTold, IsGate, IsGateTold, IsReadTold, SaysGate};
ghost use Rattle.spdx_commands.specs.Said.{text_of, told_of};
ghost use Rattle.spdx_commands.specs.Stops.{IsStopped};
ghost use Rattle.spdx_troubles.specs.Causes.{file_trouble, gate_trouble};

use crate::forms::tell_forms;
use crate::shared::tell_shared;
use gate_program::{End, Request, Run};
use line_engine::device::Sink;
use list_program::Inside;
use package_files::{FileFault, Listed, Source};
use shelves::Shelf;
use spdx_commands::{Listener, Said, say};
use spdx_troubles::Trouble;
use std::alloc::{AllocError, Global};

/// What `gate` is to do.
#[derive(Clone, Copy)]
pub struct GateTask<'a> {
    /// What is asked of the run.
    pub run: Request<'a>,
    /// Whether it isn't told how files were read.
    pub is_quiet: bool,
}

/// Judges the packages of the files by the policy, writes what is told of them, tells which files are left out and how others
/// were read, and answers the status: 0 exactly if every file is read and every package allowed, or refused in the baseline
/// too; 1 if all is read; else 2.
///
/// # Errors
///
/// The list or the policy isn't had: nothing is written. Or the output fails, or memory was refused: what was written and told is
/// a beginning.
pub fn gate<S: Shelf, O: Sink, T: Listener>(
    alloc: Global,
    shelf: &S,
    inside: Inside<'_>,
    replacements: &[u8],
    asked: GateTask<'_>,
    output: &mut O,
    listener: &mut T,
) -> Result<u8, Trouble>
    ensures ok { IfOk result (λ status. Does (O.told output.old) (O.told output.new)
        (T.heard listener.old) (T.heard listener.new) (λ text told. IsGate (S.told shelf.now)
        (inside_of inside.entry.list.now inside.entry.extras.now) replacements.now
        asked.entry text told status)) }
    ensures err { IfErr result (IsStopped gate_trouble (IsNoRun (S.told shelf.now)
        (inside_of inside.entry.list.now inside.entry.extras.now) replacements.now asked.entry.run)
        (SaysGate (S.told shelf.now) (inside_of inside.entry.list.now inside.entry.extras.now)
        replacements.now asked.entry) (O.told output.old) (O.told output.new) (T.heard listener.old)
        (T.heard listener.new)) }
    ensures passes { IfOk result (λ status. status < 1 →
        option_copied asked.entry.run.baseline ≡ None →
        AreAllAllowed (S.told shelf.now) (inside_of inside.entry.list.now inside.entry.extras.now)
        replacements.now asked.entry.run) }
{
    let outcome = gate_program::gate(alloc, shelf, inside, replacements, asked.run)?;
    let status = outcome.status();
    let said = gate_said(alloc, asked, outcome)?;
    say(alloc, said, output, listener)?;
    Ok(status)
}

// What is said of a run.
fn gate_said(alloc: Global, asked: GateTask<'_>, outcome: Run) -> Result<Said, AllocError>
    ensures { IfOk result (λ said. IsGateTold asked.entry outcome (text_of said) (told_of said)) }
{
    let Run {
        files,
        left_out,
        end,
    } = outcome;
    let mut before = Vec::new(alloc);
    tell_left_out(alloc, left_out, &mut before)?;
    tell_read(alloc, asked, &files, &mut before)?;
    end_said(alloc, asked.run.look.explain, end, before)
}

/// Tells of each file that is left out why it is.
///
/// # Errors
///
/// Memory was refused.
#[tactic(auto, using(crate::proofs::Hearing::none_heard, crate::proofs::Hearing::one_more_heard))]
pub(crate) fn tell_left_out<T: Listener>(
    alloc: Global,
    left_out: Vec<FileFault>,
    listener: &mut T,
) -> Result<(), AllocError>
    ensures { OnOk result (Hears (T.heard listener.old) (T.heard listener.new)
        (map file_trouble left_out.items)) }
{
    for fault in left_out {
        listener.hear(alloc, Trouble::from(fault))?;
    }
    Ok(())
}

// Tells how files were read, unless it is to be quiet.
#[tactic(auto, using(crate::proofs::Ends::quiet_told, crate::proofs::Ends::read_told))]
fn tell_read<T: Listener>(
    alloc: Global,
    asked: GateTask<'_>,
    files: &[Listed],
    listener: &mut T,
) -> Result<(), AllocError>
    ensures { OnOk result (Tells (T.heard listener.old) (T.heard listener.new)
        (IsReadTold asked.entry.is_quiet asked.entry.run.wanted.source files.now)) }
{
    if asked.is_quiet {
        return Ok(());
    }
    tell_both(alloc, asked.run.wanted.source, files, listener)?;
    Ok(())
}

/// Tells in which forms files were read without being asked, and which references several of SPDX's documents have.
///
/// # Errors
///
/// Memory was refused.
#[tactic(auto, using(crate::proofs::Ends::both_told))]
pub(crate) fn tell_both<T: Listener>(
    alloc: Global,
    source: Source<'_>,
    files: &[Listed],
    listener: &mut T,
) -> Result<(), AllocError>
    ensures { OnOk result (Tells (T.heard listener.old) (T.heard listener.new)
        (AreBothTold source.entry files.now)) }
{
    tell_forms(alloc, files, listener)?;
    tell_shared(alloc, source, files, listener)?;
    Ok(())
}

// What is said of the end, behind what is told before.
fn end_said(
    alloc: Global,
    explain: Option<&str>,
    end: End,
    before: Vec<Trouble>,
) -> Result<Said, AllocError>
    ensures { IfOk result (spec.IsEndSaid before.items (option_copied explain.entry) end) }
{
    let mut after = Vec::new(alloc);
    match end {
        End::NoFile => Ok(Said {
            before,
            text: Vec::new(alloc),
            after,
        }),
        End::NoBaseline(fault) => {
            after.push(Trouble::from(fault))?;
            Ok(Said {
                before,
                text: Vec::new(alloc),
                after,
            })
        }
        End::Told(text) => Ok(Said {
            before,
            text: text.bytes,
            after,
        }),
        End::NoPackage(text) => {
            let name = String::from_str(alloc, explain.unwrap_or(""))?;
            after.push(Trouble::NoPackage(name))?;
            Ok(Said {
                before,
                text: text.bytes,
                after,
            })
        }
    }
}
