// The list that expressions are read by.

ghost use Rattle.shelves.specs.Shelf.{to_look, to_read};
ghost use Rattle.std.specs.Prelude.{◌≡◌, ◌⊎◌, ℕ, List, Ok, IfOk, IfErr, filter, map};
ghost use Rattle.std.specs.Option.{option_copied};
ghost use Rattle.std.specs.Path.{path_join};
ghost use Rattle.spdx_requirement.specs.Failures.{IfRefused};
ghost use Rattle.spdx_requirement.specs.Rows.{imprecise_of};
ghost use Rattle.spdx_list.specs.Files.{extras_in};
ghost use Rattle.spdx_list.specs.Shown.{shown_extras};
ghost use Rattle.list_program.specs.Named as spec;
ghost use Rattle.list_program.specs.Named.{
  IsListAt,
  IsListOfFile,
  IsListOfFolder,
  IsNamedList,
  MakesWith,
  inside_of,
};
ghost use Rattle.list_program.specs.Reading.{IsListOf};
ghost use Rattle.list_program.specs.Troubles as troubles;
ghost use Rattle.list_program.specs.Troubles.{
  AreNoExtras,
  IsNoListAt,
  IsNoListInside,
  IsNoListNamed,
  IsNoNamedList,
  IsRefusedWith,
  IsUnreadable,
};

use crate::read::{LinesFault, catalogue_in_lines};
use crate::trouble::ListTrouble;
use shelves::{Shelf, VariableFault};
use spdx_catalogue::{Catalogue, ReadFault};
use spdx_list::{Extras, ListFault, catalogue_of};
use spdx_requirement::failure::Failure;
use spdx_requirement::row::ImpreciseName;
use std::alloc::{AllocError, Global};
use std::path::Path;

/// What a program has inside.
#[derive(Clone, Copy)]
pub struct Inside<'i> {
    /// A list as lines.
    pub list: &'i str,
    /// What this project says besides SPDX's files.
    pub extras: &'i [u8],
}

/// The list that is used: the one at the path, where one is given; else the one at the path that `SPDX_LIST` says; else the
/// one inside. The list inside never takes the place of one that is named.
///
/// # Errors
///
/// What is named can't be read, or is no list; or memory was refused.
#[tactic(auto, using(crate::proofs::Causes::list_by_variable, crate::proofs::Causes::none_by_variable, crate::proofs::Causes::no_text))]
pub fn named_list<S: Shelf>(
    alloc: Global,
    shelf: &S,
    inside: Inside<'_>,
    path: Option<&str>,
) -> Result<Catalogue, ListTrouble>
    ensures ok { IfOk result (λ c. IsNamedList (S.told shelf.now)
        (inside_of inside.entry.list.now inside.entry.extras.now) (option_copied path.entry) c) }
    ensures err { IfErr result (IsNoNamedList (S.told shelf.now)
        (inside_of inside.entry.list.now inside.entry.extras.now) (option_copied path.entry)) }
{
    if let Some(path) = path {
        return list_at(alloc, shelf, inside.extras, path);
    }
    match shelf.variable(alloc, "SPDX_LIST") {
        Ok(Some(path)) => list_said(alloc, shelf, inside.extras, path.as_str()),
        Ok(None) => list_inside(alloc, inside),
        Err(VariableFault::NotUtf8) => Err(ListTrouble::Nameless),
        Err(VariableFault::Memory) => Err(ListTrouble::Memory),
    }
}

// The list at the path that the variable says.
#[tactic(auto, using(crate::proofs::Causes::at_named))]
fn list_said<S: Shelf>(
    alloc: Global,
    shelf: &S,
    extras: &[u8],
    path: &str,
) -> Result<Catalogue, ListTrouble>
    ensures ok { IfOk result (IsListAt (S.told shelf.now) extras.now path.now) }
    ensures err { IfErr result (IsNoListNamed (S.told shelf.now) extras.now path.now) }
{
    if path.is_empty() {
        return Err(ListTrouble::Nameless);
    }
    list_at(alloc, shelf, extras, path)
}

/// The list at the path: that of the file there, in this program's form; or the one that SPDX's own `licenses.json` and
/// `exceptions.json` make, if a folder is there, with what the extras say of the licences that they list.
///
/// # Errors
///
/// A file can't be read, or holds no list; or memory was refused.
#[tactic(auto, using(crate::proofs::Causes::unlooked))]
pub fn list_at<S: Shelf>(
    alloc: Global,
    shelf: &S,
    extras: &[u8],
    path: &str,
) -> Result<Catalogue, ListTrouble>
    ensures ok { IfOk result (IsListAt (S.told shelf.now) extras.now path.now) }
    ensures err { IfErr result (IsNoListAt (S.told shelf.now) extras.now path.now) }
{
    if is_folder(alloc, shelf, path)? {
        list_of_folder(alloc, shelf, extras, path)
    } else {
        list_of_file(alloc, shelf, path)
    }
}

// Whether a folder is at the path.
pub(crate) fn is_folder<S: Shelf>(alloc: Global, shelf: &S, path: &str) -> Result<bool, ListTrouble>
    ensures ok { IfOk result (λ is. (S.told shelf.now).IsFolder path.now is) }
    ensures err { IfErr result (IsUnreadable (S.told shelf.now) to_look path.now) }
{
    match shelf.is_folder(path) {
        Ok(is_folder) => Ok(is_folder),
        Err(fault) => Err(ListTrouble::Unreadable(String::from_str(alloc, path)?, fault)),
    }
}

// The bytes of the file at the path.
pub(crate) fn bytes_of<S: Shelf>(
    alloc: Global,
    shelf: &S,
    path: &str,
) -> Result<Vec<u8>, ListTrouble>
    ensures ok { IfOk result (λ bytes. (S.told shelf.now).Holds path.now bytes.items) }
    ensures err { IfErr result (IsUnreadable (S.told shelf.now) to_read path.now) }
{
    match shelf.read(alloc, path) {
        Ok(bytes) => Ok(bytes),
        Err(error) => Err(ListTrouble::Unreadable(String::from_str(alloc, path)?, error)),
    }
}

// As what lines are told that are no list: those of another form as what is no JSON, since nothing reads them but this.
fn told_as(fault: LinesFault) -> ReadFault
    ensures { result ≡ troubles.told_as fault }
{
    match fault {
        LinesFault::NotLines => ReadFault::NotJson,
        LinesFault::Catalogue(fault) => ReadFault::Catalogue(fault),
    }
}

// The list inside.
fn list_inside(alloc: Global, inside: Inside<'_>) -> Result<Catalogue, ListTrouble>
    ensures ok { IfOk result (IsListOf inside.entry.list.now) }
    ensures err { IfErr result (IsNoListInside
        (inside_of inside.entry.list.now inside.entry.extras.now)) }
{
    match catalogue_in_lines(alloc, inside.list) {
        Ok(catalogue) => Ok(catalogue),
        Err(Failure::Refused(fault)) => {
            let name = String::from_str(alloc, "the list inside")?;
            Err(ListTrouble::NoList(name, told_as(fault)))
        }
        Err(Failure::Memory(_)) => Err(ListTrouble::Memory),
    }
}

// The list that the file holds.
#[tactic(auto, using(crate::proofs::Causes::unread_itself))]
fn list_of_file<S: Shelf>(alloc: Global, shelf: &S, path: &str) -> Result<Catalogue, ListTrouble>
    ensures ok { IfOk result (IsListOfFile (S.told shelf.now) path.now) }
    ensures err { IfErr result (λ t. (extras : List ℕ)
        → IsNoListAt (S.told shelf.now) extras path.now t) }
{
    let bytes = bytes_of(alloc, shelf, path)?;
    match Catalogue::from_json(alloc, &bytes) {
        Ok(catalogue) => Ok(catalogue),
        Err(Failure::Refused(fault)) => {
            Err(ListTrouble::NoList(String::from_str(alloc, path)?, fault))
        }
        Err(Failure::Memory(_)) => Err(ListTrouble::Memory),
    }
}

// The list that SPDX's two files in the folder make.
#[tactic(auto, using(crate::proofs::Causes::unread_licenses, crate::proofs::Causes::unread_exceptions, crate::proofs::Causes::extras_at))]
fn list_of_folder<S: Shelf>(
    alloc: Global,
    shelf: &S,
    extras: &[u8],
    folder: &str,
) -> Result<Catalogue, ListTrouble>
    ensures ok { IfOk result (IsListOfFolder (S.told shelf.now) extras.now folder.now) }
    ensures err { IfErr result (IsNoListAt (S.told shelf.now) extras.now folder.now) }
{
    let extras = extras_inside(alloc, extras)?;
    let licenses = bytes_below(alloc, shelf, folder, "licenses.json")?;
    let exceptions = bytes_below(alloc, shelf, folder, "exceptions.json")?;
    match made_with(alloc, &licenses, &exceptions, extras) {
        Ok(catalogue) => Ok(catalogue),
        Err(Failure::Refused(fault)) => {
            Err(ListTrouble::NotMade(String::from_str(alloc, folder)?, fault))
        }
        Err(Failure::Memory(_)) => Err(ListTrouble::Memory),
    }
}

/// What this project says besides SPDX's files, as the bytes have it.
///
/// # Errors
///
/// They have no extras, or memory was refused.
pub fn extras_inside(alloc: Global, bytes: &[u8]) -> Result<Extras, ListTrouble>
    ensures ok { IfOk result (λ x. extras_in bytes.now ≡ Ok (shown_extras x)) }
    ensures err { IfErr result (AreNoExtras bytes.now) }
{
    match Extras::from_json(alloc, bytes) {
        Ok(extras) => Ok(extras),
        Err(Failure::Refused(fault)) => Err(ListTrouble::NoExtras(fault)),
        Err(Failure::Memory(_)) => Err(ListTrouble::Memory),
    }
}

// The bytes of the file of this name in the folder.
pub(crate) fn bytes_below<S: Shelf>(
    alloc: Global,
    shelf: &S,
    folder: &str,
    name: &str,
) -> Result<Vec<u8>, ListTrouble>
    ensures ok { IfOk result (λ bytes.
        (S.told shelf.now).Holds (path_join folder.now name.now) bytes.items) }
    ensures err { IfErr result (IsUnreadable (S.told shelf.now) to_read
        (path_join folder.now name.now)) }
{
    let path = Path::new(folder).join(alloc, name)?;
    bytes_of(alloc, shelf, path.as_str())
}

// The list of SPDX's two files, with what the extras say of the licences that they list.
#[tactic(auto, using(crate::proofs::Twice::refused_bare))]
fn made_with(
    alloc: Global,
    licenses: &[u8],
    exceptions: &[u8],
    extras: Extras,
) -> Result<Catalogue, Failure<ListFault>>
    ensures ok { IfOk result (MakesWith (shown_extras extras) licenses.now exceptions.now) }
    ensures err { IfErr result (IfRefused
        (IsRefusedWith (shown_extras extras) licenses.now exceptions.now)) }
{
    let listed = catalogue_of(alloc, licenses, exceptions, &Extras::new(alloc))?;
    let extras = of_listed(alloc, extras, &listed)?;
    catalogue_of(alloc, licenses, exceptions, &extras)
}

// The extras without the imprecise names of licences that the list hasn't.
fn of_listed(alloc: Global, extras: Extras, listed: &Catalogue) -> Result<Extras, AllocError>
    ensures { IfOk result (λ x. shown_extras x ≡ spec.of_listed listed.now (shown_extras extras)) }
{
    Ok(Extras {
        copyleft: extras.copyleft,
        imprecise: names_of_listed(alloc, extras.imprecise, listed)?,
        instead: extras.instead,
    })
}

fn names_of_listed(
    alloc: Global,
    rows: Vec<ImpreciseName>,
    listed: &Catalogue,
) -> Result<Vec<ImpreciseName>, AllocError>
    ensures { IfOk result (λ kept. map imprecise_of kept.items
        ≡ filter (spec.is_of_listed listed.now) (map imprecise_of rows.items)) }
{
    let mut kept = Vec::new(alloc);
    for row in rows {
        if is_of_listed(listed, &row) {
            kept.push(row)?;
        }
    }
    Ok(kept)
}

fn is_of_listed(listed: &Catalogue, row: &ImpreciseName) -> bool
    ensures { result ≡ spec.is_of_listed listed.now (imprecise_of row.now) }
{
    listed.license_id(row.name.as_str()).is_some()
}
