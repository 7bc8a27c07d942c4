// The command `compare`.

ghost use Rattle.std.specs.Prelude.{◌≡◌, IfErr, IfOk, if◌then◌else◌};
ghost use Rattle.check_files.specs.Told.{Writes, unkept};
ghost use Rattle.list_program.specs.Named.{inside_of};
ghost use Rattle.meaning_program.specs.Compared.{IsNotCompared};
ghost use Rattle.spdx_commands.specs.Compare as spec;
ghost use Rattle.spdx_commands.specs.Compare.{IsCompare, SaysCompared, SaysSame};
ghost use Rattle.spdx_commands.specs.Stops.{IsStopped};
ghost use Rattle.spdx_troubles.specs.Causes.{meaning_trouble};

use line_engine::device::Sink;
use line_engine::lines::write_all;
use list_program::Inside;
use meaning_program::TextPair;
use shelves::Shelf;
use spdx_troubles::Trouble;
use std::alloc::Global;

/// Writes how what two expressions ask compares, and answers the status: 0 exactly if they mean the same, else 1.
///
/// # Errors
///
/// The list isn't had, or a text has no meaning: nothing is written. Or the output fails, and what was
/// written is a beginning; or memory was refused.
pub fn compare<S: Shelf, O: Sink>(
    alloc: Global,
    shelf: &S,
    inside: Inside<'_>,
    asked: TextPair<'_>,
    output: &mut O,
) -> Result<u8, Trouble>
    ensures ok { IfOk result (λ status. Writes (O.told output.old) (O.told output.new)
        (λ text. IsCompare (S.told shelf.now)
        (inside_of inside.entry.list.now inside.entry.extras.now) asked.entry text status)) }
    ensures err { IfErr result (IsStopped meaning_trouble (IsNotCompared (S.told shelf.now)
        (inside_of inside.entry.list.now inside.entry.extras.now) asked.entry)
        (SaysCompared (S.told shelf.now) (inside_of inside.entry.list.now inside.entry.extras.now)
        asked.entry) (O.told output.old) (O.told output.new) unkept unkept) }
    ensures same { IfOk result (SaysSame (S.told shelf.now)
        (inside_of inside.entry.list.now inside.entry.extras.now) asked.entry) }
{
    let told = meaning_program::compare(alloc, shelf, inside, asked)?;
    write_all(output, &told.text)?;
    Ok(status_of(told.is_same))
}

fn status_of(is_same: bool) -> u8
    ensures { result ≡ spec.status_of is_same }
{
    if is_same { 0 } else { 1 }
}
