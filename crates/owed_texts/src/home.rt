// The folders that packages lie in.

ghost use Rattle.shelves.specs.Shelf.{to_look};
ghost use Rattle.std.specs.Prelude.{◌≡◌, IfErr, IfOk, option_map, string_bytes};
ghost use Rattle.std.specs.Option.{option_copied};
ghost use Rattle.spdx_requirement.specs.Failures.{IfRefused};
ghost use Rattle.owed_texts.specs.Home as spec;
ghost use Rattle.owed_texts.specs.Home.{
  IsFolderAt,
  IsHome,
  IsHomeAt,
  IsHomeBelow,
  IsNoHome,
  IsNoHomeBelow,
  beside,
  folder_name,
};
ghost use Rattle.owed_texts.specs.Within.{IsFailing};

use crate::trouble::{Obstacle, TextTrouble, is_not_found, trouble_at, unreadable};
use crate::within::check_inside;
use notice_texts::path_in;
use package_sources::Package;
use shelves::Shelf;
use spdx_requirement::failure::Failure;
use std::alloc::{AllocError, Global};
use std::path::Path;

/// Which texts of packages' own stand on the page.
#[derive(Clone, Copy)]
pub enum OwnTexts<'a> {
    /// None.
    Left,
    /// Those of the folder below this one that is called by the package's name and version.
    Below(&'a str),
    /// Those of the folder that the file says.
    Installed,
}

/// Where texts are looked for.
#[derive(Clone, Copy)]
pub struct Folders<'a> {
    /// The folder with the general texts, if one is named.
    pub texts: Option<&'a str>,
    pub own: OwnTexts<'a>,
    /// Whether links are followed that lead out of the folder of the texts, or of a package within the one below which all
    /// lie.
    pub follow: bool,
}

/// Where a package lies.
#[derive(Drop)]
pub(crate) struct Home {
    pub(crate) folder: String,
    /// The folder that nothing is read out of.
    pub(crate) inside: String,
}

/// Where the package of the file at that path lies, if it has a folder. A trouble is told by the name.
pub(crate) fn home_of<S: Shelf>(
    alloc: Global,
    shelf: &S,
    folders: Folders<'_>,
    name: &str,
    file: &str,
    listed: &Package,
) -> Result<Option<Home>, Failure<TextTrouble>>
    ensures ok { IfOk result (IsHome (S.told shelf.now) folders.entry file.now listed.now) }
    ensures err { IfErr result (IfRefused (IsNoHome (S.told shelf.now) folders.entry name.now
        file.now listed.now)) }
{
    match folders.own {
        OwnTexts::Left => Ok(None),
        OwnTexts::Below(all) => home_below(alloc, shelf, folders.follow, all, name, listed),
        OwnTexts::Installed => home_installed(alloc, shelf, name, file, listed),
    }
}

// The folder with the package's name and version; it may not lead out of the folder of all.
fn home_below<S: Shelf>(
    alloc: Global,
    shelf: &S,
    follow: bool,
    all: &str,
    name: &str,
    listed: &Package,
) -> Result<Option<Home>, Failure<TextTrouble>>
    ensures ok { IfOk result (IsHomeBelow (S.told shelf.now) follow all.now listed.now) }
    ensures err { IfErr result (IfRefused (IsNoHomeBelow (S.told shelf.now) all.now name.now
        listed.now)) }
{
    let own = folder_name(alloc, listed)?;
    match path_in(alloc, all, own.as_str())? {
        Some(folder) => home_in(alloc, shelf, follow, all, name, folder.as_str()),
        None => { Err(Failure::Refused(trouble_at(alloc, name, own.as_str(), Obstacle::NoPath)?)) }
    }
}

fn folder_name(alloc: Global, listed: &Package) -> Result<String, AllocError>
    ensures { IfOk result (λ name. string_bytes name ≡ folder_name listed.now) }
{
    let name = listed.name.as_str();
    match &listed.version {
        Some(version) => format!(in alloc; "{name}-{version}"),
        None => String::from_str(alloc, name),
    }
}

fn home_in<S: Shelf>(
    alloc: Global,
    shelf: &S,
    follow: bool,
    all: &str,
    name: &str,
    folder: &str,
) -> Result<Option<Home>, Failure<TextTrouble>>
    ensures ok { IfOk result (spec.IsHomeIn (S.told shelf.now) follow all.now folder.now) }
    ensures err { IfErr result (IfRefused (spec.IsNoHomeIn (S.told shelf.now) all.now name.now
        folder.now)) }
{
    if !is_there(alloc, shelf, name, folder)? {
        return Ok(None);
    }
    check_inside(alloc, shelf, name, all, folder)?;
    let inside = if follow { all } else { folder };
    let home = home_at(alloc, folder, inside)?;
    Ok(Some(home))
}

fn home_at(alloc: Global, folder: &str, inside: &str) -> Result<Home, AllocError>
    ensures { IfOk result (IsHomeAt folder.now inside.now) }
{
    Ok(Home {
        folder: String::from_str(alloc, folder)?,
        inside: String::from_str(alloc, inside)?,
    })
}

// The folder that the file says; where it is no whole path it begins beside the file.
fn home_installed<S: Shelf>(
    alloc: Global,
    shelf: &S,
    name: &str,
    file: &str,
    listed: &Package,
) -> Result<Option<Home>, Failure<TextTrouble>>
    ensures ok { IfOk result (spec.IsHomeSaid (S.told shelf.now) file.now
        (option_map string_bytes listed.now.folder)) }
    ensures err { IfErr result (IfRefused (spec.IsNoHomeSaid (S.told shelf.now) name.now file.now
        (option_map string_bytes listed.now.folder))) }
{
    match &listed.folder {
        Some(said) => home_beside(alloc, shelf, name, file, said.as_str()),
        None => Ok(None),
    }
}

fn home_beside<S: Shelf>(
    alloc: Global,
    shelf: &S,
    name: &str,
    file: &str,
    said: &str,
) -> Result<Option<Home>, Failure<TextTrouble>>
    ensures ok { IfOk result (spec.IsHomeBeside (S.told shelf.now) (beside file.now said.now)) }
    ensures err { IfErr result (IfRefused (IsFailing (S.told shelf.now) to_look name.now
        (beside file.now said.now))) }
{
    let folder = beside(alloc, file, said)?;
    if !is_there(alloc, shelf, name, folder.as_str())? {
        return Ok(None);
    }
    let home = home_at(alloc, folder.as_str(), folder.as_str())?;
    Ok(Some(home))
}

// The path, from the folder that the file is in.
fn beside(alloc: Global, file: &str, path: &str) -> Result<String, AllocError>
    ensures { IfOk result (λ p. string_bytes p ≡ beside file.now path.now) }
{
    let whole = match Path::new(file).parent() {
        Some(folder) => folder.join(alloc, path)?,
        None => Path::new("").join(alloc, path)?,
    };
    String::from_str(alloc, whole.as_str())
}

// Whether there is a folder.
fn is_there<S: Shelf>(
    alloc: Global,
    shelf: &S,
    name: &str,
    folder: &str,
) -> Result<bool, Failure<TextTrouble>>
    ensures ok { IfOk result (IsFolderAt (S.told shelf.now) folder.now) }
    ensures err { IfErr result (IfRefused (IsFailing (S.told shelf.now) to_look
        name.now folder.now)) }
{
    match shelf.is_folder(folder) {
        Ok(is) => Ok(is),
        Err(error) if is_not_found(&error) => Ok(false),
        Err(error) => Err(unreadable(alloc, name, folder, error)),
    }
}
