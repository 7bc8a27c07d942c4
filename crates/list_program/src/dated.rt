// The date of the list that expressions are read by.

ghost use Rattle.std.specs.Prelude.{◌≡◌, ℕ, List, IfErr, IfOk, option_map, string_bytes};
ghost use Rattle.std.specs.Option.{option_copied};
ghost use Rattle.list_program.specs.Lines.{day_in};
ghost use Rattle.list_program.specs.declared.trouble.ListTrouble.TheVariants.{Memory};
ghost use Rattle.list_program.specs.Dated.{
  IsDateAt,
  IsDateOfFile,
  IsDateOfFolder,
  IsNamedDate,
};
ghost use Rattle.list_program.specs.Named.{inside_of};
ghost use Rattle.list_program.specs.Troubles.{IsNoListAt, IsNoListNamed, IsNoNamedList};

use crate::named::{Inside, bytes_below, bytes_of, is_folder};
use crate::read::day_in_lines;
use crate::trouble::ListTrouble;
use shelves::{Shelf, VariableFault};
use spdx_list::release_date;
use spdx_tables::version_date;
use std::alloc::Global;

/// The day on which the version came out of the list that `named_list` reads, where the list has it. It reads the list's file
/// once more, and all of it.
///
/// # Errors
///
/// The file can't be read, or memory was refused.
#[tactic(auto, using(crate::proofs::Causes::date_by_variable, crate::proofs::Causes::none_said, crate::proofs::Causes::no_text))]
pub fn named_date<S: Shelf>(
    alloc: Global,
    shelf: &S,
    inside: Inside<'_>,
    path: Option<&str>,
) -> Result<Option<String>, ListTrouble>
    ensures ok { IfOk result (λ date. IsNamedDate (S.told shelf.now)
        (inside_of inside.entry.list.now inside.entry.extras.now) (option_copied path.entry)
        (option_map string_bytes date)) }
    ensures err { IfErr result (IsNoNamedList (S.told shelf.now)
        (inside_of inside.entry.list.now inside.entry.extras.now) (option_copied path.entry)) }
{
    if let Some(path) = path {
        return date_at(alloc, shelf, path);
    }
    match shelf.variable(alloc, "SPDX_LIST") {
        Ok(Some(path)) => date_said(alloc, shelf, path.as_str()),
        Ok(None) => date_inside(alloc, inside),
        Err(VariableFault::NotUtf8) => Err(ListTrouble::Nameless),
        Err(VariableFault::Memory) => Err(ListTrouble::Memory),
    }
}

fn date_inside(alloc: Global, inside: Inside<'_>) -> Result<Option<String>, ListTrouble>
    ensures ok { IfOk result (λ date.
        option_map string_bytes date ≡ day_in inside.entry.list.now) }
    ensures err { IfErr result (λ t. t ≡ Memory) }
{
    let date = day_in_lines(alloc, inside.list)?;
    Ok(date)
}

// The date of the list at the path that the variable says.
#[tactic(auto, using(crate::proofs::Causes::at_named))]
fn date_said<S: Shelf>(alloc: Global, shelf: &S, path: &str) -> Result<Option<String>, ListTrouble>
    ensures ok { IfOk result (λ date.
        IsDateAt (S.told shelf.now) path.now (option_map string_bytes date)) }
    ensures err { IfErr result (λ t. (extras : List ℕ)
        → IsNoListNamed (S.told shelf.now) extras path.now t) }
{
    if path.is_empty() {
        return Err(ListTrouble::Nameless);
    }
    date_at(alloc, shelf, path)
}

#[tactic(auto, using(crate::proofs::Causes::unlooked))]
fn date_at<S: Shelf>(alloc: Global, shelf: &S, path: &str) -> Result<Option<String>, ListTrouble>
    ensures ok { IfOk result (λ date.
        IsDateAt (S.told shelf.now) path.now (option_map string_bytes date)) }
    ensures err { IfErr result (λ t. (extras : List ℕ)
        → IsNoListAt (S.told shelf.now) extras path.now t) }
{
    if is_folder(alloc, shelf, path)? {
        date_of_folder(alloc, shelf, path)
    } else {
        date_of_file(alloc, shelf, path)
    }
}

#[tactic(auto, using(crate::proofs::Causes::unread_itself))]
fn date_of_file<S: Shelf>(
    alloc: Global,
    shelf: &S,
    path: &str,
) -> Result<Option<String>, ListTrouble>
    ensures ok { IfOk result (λ date.
        IsDateOfFile (S.told shelf.now) path.now (option_map string_bytes date)) }
    ensures err { IfErr result (λ t. (extras : List ℕ)
        → IsNoListAt (S.told shelf.now) extras path.now t) }
{
    let bytes = bytes_of(alloc, shelf, path)?;
    let date = version_date(alloc, &bytes)?;
    Ok(date)
}

#[tactic(auto, using(crate::proofs::Causes::unread_licenses))]
fn date_of_folder<S: Shelf>(
    alloc: Global,
    shelf: &S,
    folder: &str,
) -> Result<Option<String>, ListTrouble>
    ensures ok { IfOk result (λ date.
        IsDateOfFolder (S.told shelf.now) folder.now (option_map string_bytes date)) }
    ensures err { IfErr result (λ t. (extras : List ℕ)
        → IsNoListAt (S.told shelf.now) extras folder.now t) }
{
    let licenses = bytes_below(alloc, shelf, folder, "licenses.json")?;
    let date = release_date(alloc, &licenses)?;
    Ok(date)
}
