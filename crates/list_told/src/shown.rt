//! What a list says of names, as it is told.

ghost use Rattle.std.specs.Prelude.{◌≡◌, IfErr, IfOk, option_map, string_bytes};
ghost use Rattle.std.specs.Option.{option_copied};
ghost use Rattle.spdx_list.specs.Diff.{nows};
ghost use Rattle.spdx_list.specs.Shown.{shown_extras};
ghost use Rattle.list_program.specs.Named.{inside_of};
ghost use Rattle.list_program.specs.Troubles.{IsNoNamedList};
ghost use Rattle.list_told.specs.Shown.{
  AreAllShown,
  AreNoReplacements,
  AreShown,
  IsDayFor,
  IsNotShown,
  IsShown,
  IsShownBy,
  TellsListed,
  status_of,
};

use crate::names::names_text;
use crate::rows::rows_text;
use crate::unlisted::{Unlisted, unlisted_among};
use list_program::{Inside, ListTrouble, extras_inside, named_date, named_list};
use shelves::Shelf;
use spdx_catalogue::Catalogue;
use spdx_list::Extras;
use std::alloc::{AllocError, Global};

/// The names that are asked for, and the list that is asked.
#[derive(Clone, Copy)]
pub struct NameQuery<'a> {
    /// The path of the list, where one is named.
    pub list: Option<&'a str>,
    /// Where there are none, all of the list are told.
    pub names: &'a [&'a str],
}

/// What is told.
#[derive(Drop)]
pub struct Shown {
    /// What the list says of the names that it has.
    pub text: Vec<u8>,
    /// The other names, in their order.
    pub unlisted: Vec<Unlisted>,
}

impl Shown {
    /// The status: 0 exactly if the list has each of the names, else 2.
    pub fn status(&self) -> u8
        ensures { result ≡ status_of self.now }
    {
        if self.unlisted.is_empty() { 0 } else { 2 }
    }
}

/// Tells what the list that is named says of the names, in whatever case its own are written; without names, its version
/// with its day, where the list has it, and all of its names. What replaces deprecated names is said by `replacements`, where
/// they can't be mended.
///
/// # Errors
///
/// The list isn't had; there are names, and the replacements are no extras; or memory was refused.
pub fn show<S: Shelf>(
    alloc: Global,
    shelf: &S,
    inside: Inside<'_>,
    replacements: &[u8],
    asked: NameQuery<'_>,
) -> Result<Shown, ListTrouble>
    ensures ok { IfOk result (IsShown (S.told shelf.now)
        (inside_of inside.entry.list.now inside.entry.extras.now) replacements.now asked.entry) }
    ensures err { IfErr result (IsNotShown (S.told shelf.now)
        (inside_of inside.entry.list.now inside.entry.extras.now) replacements.now asked.entry) }
    ensures listed { IfOk result (TellsListed (S.told shelf.now)
        (inside_of inside.entry.list.now inside.entry.extras.now) asked.entry) }
{
    let catalogue = named_list(alloc, shelf, inside, asked.list)?;
    let day = day_for(alloc, shelf, inside, asked)?;
    let shown = shown_by(alloc, &catalogue, &day, replacements, asked.names)?;
    Ok(shown)
}

// The day of the list, which is told without names alone.
fn day_for<S: Shelf>(
    alloc: Global,
    shelf: &S,
    inside: Inside<'_>,
    asked: NameQuery<'_>,
) -> Result<Option<String>, ListTrouble>
    ensures ok { IfOk result (λ day. IsDayFor (S.told shelf.now)
        (inside_of inside.entry.list.now inside.entry.extras.now)
        (option_copied asked.entry.list) (nows asked.entry.names.now)
        (option_map string_bytes day)) }
    ensures err { IfErr result (IsNoNamedList (S.told shelf.now)
        (inside_of inside.entry.list.now inside.entry.extras.now)
        (option_copied asked.entry.list)) }
{
    match asked.names {
        [] => named_date(alloc, shelf, inside, asked.list),
        [_, ..] => Ok(None),
    }
}

// What this list says of them.
fn shown_by(
    alloc: Global,
    catalogue: &Catalogue,
    day: &Option<String>,
    replacements: &[u8],
    names: &[&str],
) -> Result<Shown, ListTrouble>
    ensures ok { IfOk result (IsShownBy catalogue.now (option_map string_bytes day.now)
        replacements.now (nows names.now)) }
    ensures err { IfErr result (AreNoReplacements replacements.now (nows names.now)) }
{
    match names {
        [] => {
            let shown = all_shown(alloc, catalogue, day)?;
            Ok(shown)
        }
        [_, ..] => {
            let extras = extras_inside(alloc, replacements)?;
            let shown = each_shown(alloc, catalogue, &extras, names)?;
            Ok(shown)
        }
    }
}

fn all_shown(
    alloc: Global,
    catalogue: &Catalogue,
    day: &Option<String>,
) -> Result<Shown, AllocError>
    ensures { IfOk result (AreAllShown catalogue.now (option_map string_bytes day.now)) }
{
    Ok(Shown {
        text: names_text(alloc, catalogue, day)?,
        unlisted: Vec::new(alloc),
    })
}

fn each_shown(
    alloc: Global,
    catalogue: &Catalogue,
    extras: &Extras,
    names: &[&str],
) -> Result<Shown, AllocError>
    ensures { IfOk result (AreShown catalogue.now (shown_extras extras.now) (nows names.now)) }
{
    Ok(Shown {
        text: rows_text(alloc, catalogue, extras, names)?,
        unlisted: unlisted_among(alloc, catalogue, names)?,
    })
}
