// The commands below `list`.

ghost use Rattle.std.specs.Prelude.{◌≡◌, IfErr, IfOk, OnOk, map};
ghost use Rattle.std.specs.Option.{option_copied};
ghost use Rattle.check_files.specs.Told.{Does, Hears, Writes, unkept};
ghost use Rattle.list_program.specs.Named.{inside_of};
ghost use Rattle.list_program.specs.Written.{IsMadeText, IsNoText, made_of};
ghost use Rattle.list_told.specs.Diffs.{IsDiff, IsNoDiff};
ghost use Rattle.list_told.specs.Shown.{IsNotShown};
ghost use Rattle.spdx_commands.specs.Lists as spec;
ghost use Rattle.spdx_commands.specs.Lists.{IsShow, SaysDiffer, SaysListed, SaysShown, unlisted_trouble};
ghost use Rattle.spdx_commands.specs.Stops.{IsStopped};
ghost use Rattle.spdx_troubles.specs.Causes.{list_trouble};

use crate::listener::Listener;
use crate::said::{Said, say};
use line_engine::device::Sink;
use line_engine::lines::write_all;
use list_program::{Inside, MadeOf, put_made_list};
use list_told::{Lists, NameQuery, Shown, Unlisted};
use shelves::Shelf;
use spdx_troubles::Trouble;
use std::alloc::{AllocError, Global};

/// Writes what the list says of the names, tells those that it hasn't, and answers the status: 0 exactly if the list has each
/// of the names, else 2.
///
/// # Errors
///
/// The list or the replacements can't be read: nothing is written. Or the output fails, or memory was refused: what was written and
/// told is a beginning.
pub fn show<S: Shelf, O: Sink, T: Listener>(
    alloc: Global,
    shelf: &S,
    inside: Inside<'_>,
    replacements: &[u8],
    asked: NameQuery<'_>,
    output: &mut O,
    listener: &mut T,
) -> Result<u8, Trouble>
    ensures ok { IfOk result (λ status. Does (O.told output.old) (O.told output.new)
        (T.heard listener.old) (T.heard listener.new) (λ text told. IsShow (S.told shelf.now)
        (inside_of inside.entry.list.now inside.entry.extras.now) replacements.now
        asked.entry text told status)) }
    ensures err { IfErr result (IsStopped list_trouble (IsNotShown (S.told shelf.now)
        (inside_of inside.entry.list.now inside.entry.extras.now) replacements.now asked.entry)
        (SaysShown (S.told shelf.now) (inside_of inside.entry.list.now inside.entry.extras.now)
        replacements.now asked.entry) (O.told output.old) (O.told output.new) (T.heard listener.old)
        (T.heard listener.new)) }
    ensures listed { IfOk result (SaysListed (S.told shelf.now)
        (inside_of inside.entry.list.now inside.entry.extras.now) asked.entry) }
{
    let shown = list_told::show(alloc, shelf, inside, replacements, asked)?;
    let status = shown.status();
    let said = shown_said(alloc, shown)?;
    say(alloc, said, output, listener)?;
    Ok(status)
}

// What the list says of the names, and behind that the names that it hasn't.
fn shown_said(alloc: Global, shown: Shown) -> Result<Said, AllocError>
    ensures { IfOk result (spec.IsShownSaid shown) }
{
    let Shown { text, unlisted } = shown;
    let mut after = Vec::new(alloc);
    tell_unlisted(alloc, unlisted, &mut after)?;
    Ok(Said {
        before: Vec::new(alloc),
        text,
        after,
    })
}

#[tactic(auto, using(crate::proofs::Hearing::none_heard, crate::proofs::Hearing::one_more_heard))]
fn tell_unlisted<T: Listener>(
    alloc: Global,
    unlisted: Vec<Unlisted>,
    listener: &mut T,
) -> Result<(), AllocError>
    ensures { OnOk result (Hears (T.heard listener.old) (T.heard listener.new)
        (map unlisted_trouble unlisted.items)) }
{
    for one in unlisted {
        let Unlisted { name, told } = one;
        listener.hear(alloc, Trouble::Unlisted(name, told))?;
    }
    Ok(())
}

/// Writes by what the newer list differs from the older one.
///
/// # Errors
///
/// A list or the replacements can't be read: nothing is written. Or the output fails, and what was written is a beginning; or
/// memory was refused.
pub fn diff<S: Shelf, O: Sink>(
    alloc: Global,
    shelf: &S,
    inside: Inside<'_>,
    replacements: &[u8],
    lists: Lists<'_>,
    output: &mut O,
) -> Result<(), Trouble>
    ensures ok { OnOk result (Writes (O.told output.old) (O.told output.new)
        (IsDiff (S.told shelf.now) (inside_of inside.entry.list.now inside.entry.extras.now)
        replacements.now lists.entry)) }
    ensures err { IfErr result (IsStopped list_trouble (IsNoDiff (S.told shelf.now)
        (inside_of inside.entry.list.now inside.entry.extras.now) replacements.now lists.entry)
        (SaysDiffer (S.told shelf.now) (inside_of inside.entry.list.now inside.entry.extras.now)
        replacements.now lists.entry) (O.told output.old) (O.told output.new) unkept unkept) }
{
    let text = list_told::diff(alloc, shelf, inside, replacements, lists)?;
    write_all(output, &text)?;
    Ok(())
}

/// Writes the list that SPDX's files make.
///
/// # Errors
///
/// A file can't be read, or the files make no list: nothing is written. Or the output fails; or memory was refused.
pub fn make<S: Shelf, O: Sink>(
    alloc: Global,
    shelf: &S,
    paths: MadeOf<'_>,
    output: &mut O,
) -> Result<(), Trouble>
    ensures ok { OnOk result (spec.WritesMade (S.told shelf.now)
        (made_of paths.entry.licenses.now paths.entry.exceptions.now
        (option_copied paths.entry.extras)) (O.told output.old) (O.told output.new)) }
    ensures err { IfErr result (spec.IsUnmade (S.told shelf.now)
        (made_of paths.entry.licenses.now paths.entry.exceptions.now
        (option_copied paths.entry.extras)) (O.told output.old) (O.told output.new)) }
{
    put_made_list(alloc, shelf, paths, output)?;
    Ok(())
}
