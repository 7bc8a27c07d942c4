// The texts that packages have of their own, in the folders that they lie in.

ghost use Rattle.std.specs.Prelude.{◌≡◌, ◌++◌, ◌∷◌, [], IfErr, IfOk, OnOk, bytes_eq, flat_map, map, option_map, string_bytes};
ghost use Rattle.notice_texts.specs.Owed.{seen};
ghost use Rattle.std.specs.List.{list_any};
ghost use Rattle.std.specs.Option.{option_to_list};
ghost use Rattle.spdx_requirement.specs.Failures.{IfRefused};
ghost use Rattle.owed_texts.specs.Own as spec;
ghost use Rattle.owed_texts.specs.Own.{
  AreOwn,
  AreOwnIn,
  AreRead,
  IsFile,
  IsNoFile,
  IsOneMore,
  listed,
  owner_of,
  read_of,
};

use crate::home::{Folders, Home, home_of};
use crate::license_files::{declared_in, place_of};
use crate::names::names_in;
use crate::plain::plain_if;
use crate::trouble::{Obstacle, TextTrouble, trouble_at};
use crate::within::bytes_within;
use license_notice::Requirement;
use notice_texts::{File, path_in};
use notice_told::owed_of;
use package_files::{Listed, Source};
use package_sources::Package;
use shelves::Shelf;
use spdx_requirement::failure::Failure;
use std::alloc::{AllocError, Global};

/// A file of a package, as it was read.
#[derive(Drop)]
pub struct ReadFile {
    pub path: String,
    /// Whether the package declares it to be a text of its licence.
    pub is_declared: bool,
    pub bytes: Vec<u8>,
}

/// How packages' files are read.
#[derive(Clone, Copy)]
pub struct Reading<'a> {
    pub folders: Folders<'a>,
    pub source: Source<'a>,
    /// Whether what a terminal would obey in the texts is written by its number.
    pub plain: bool,
}

/// A package with what it is used under, and the file that lists it.
#[derive(Clone, Copy)]
pub struct Placed<'c, 't> {
    /// The package, as it is told.
    pub name: &'c str,
    pub listed: &'t Package,
    pub file: &'t Listed,
    pub choice: &'c [Requirement<'t>],
    pub offered: &'c [Requirement<'t>],
}

/// The files of packages, and why others aren't had.
#[derive(Drop)]
pub struct OwnFiles {
    pub files: Vec<ReadFile>,
    pub lacking: Vec<TextTrouble>,
}

/// The files of the package that are owed, from the folder that it lies in.
///
/// # Errors
///
/// Memory was refused.
pub fn own_files<S: Shelf>(
    alloc: Global,
    shelf: &S,
    reading: Reading<'_>,
    placed: Placed<'_, '_>,
) -> Result<OwnFiles, AllocError>
    ensures { IfOk result (AreOwn (S.told shelf.now) reading.entry (owner_of placed.entry)) }
{
    let path = placed.file.path.as_str();
    match home_of(
        alloc,
        shelf,
        reading.folders,
        placed.name,
        path,
        placed.listed,
    ) {
        Ok(Some(home)) => files_in(alloc, shelf, reading, placed, &home),
        Ok(None) => Ok(OwnFiles {
            files: Vec::new(alloc),
            lacking: Vec::new(alloc),
        }),
        Err(Failure::Refused(trouble)) => lacking_all(alloc, trouble),
        Err(Failure::Memory(error)) => Err(error),
    }
}

fn lacking_all(alloc: Global, trouble: TextTrouble) -> Result<OwnFiles, AllocError>
    ensures files { IfOk result (λ own. own.files.items ≡ []) }
    ensures lacking { IfOk result (λ own. own.lacking.items ≡ trouble ∷ []) }
{
    let mut lacking = Vec::new(alloc);
    lacking.push(trouble)?;
    Ok(OwnFiles {
        files: Vec::new(alloc),
        lacking,
    })
}

fn files_in<S: Shelf>(
    alloc: Global,
    shelf: &S,
    reading: Reading<'_>,
    placed: Placed<'_, '_>,
    home: &Home,
) -> Result<OwnFiles, AllocError>
    ensures { IfOk result (AreOwnIn (S.told shelf.now) reading.entry
        (owner_of placed.entry) home.now) }
{
    match names_in(alloc, shelf, placed.name, home.folder.as_str()) {
        Ok(names) => files_among(alloc, shelf, reading, placed, home, &names),
        Err(Failure::Refused(trouble)) => lacking_all(alloc, trouble),
        Err(Failure::Memory(error)) => Err(error),
    }
}

// Those of them that are owed, of the files with these names and those that are declared.
fn files_among<S: Shelf>(
    alloc: Global,
    shelf: &S,
    reading: Reading<'_>,
    placed: Placed<'_, '_>,
    home: &Home,
    names: &[String],
) -> Result<OwnFiles, AllocError>
    ensures { IfOk result (spec.AreOwnAmong (S.told shelf.now) reading.entry
        (owner_of placed.entry) home.now (map string_bytes names.now)) }
{
    let package = placed.listed;
    let place = place_of(reading.source, placed.file.guessed, reading.folders.own);
    let declared = declared_in(
        alloc,
        shelf,
        place,
        home.folder.as_str(),
        &package.license_files,
    )?;
    let files = listed(alloc, names, &declared)?;
    let owed = owed_of(alloc, placed.offered, placed.choice, &files)?;
    read_all(alloc, shelf, reading.plain, placed.name, home, &owed)
}

// Those that are declared, and the files of these names.
fn listed<'t>(
    alloc: Global,
    names: &'t [String],
    declared: &'t [String],
) -> Result<Vec<File<'t>>, AllocError>
    ensures { IfOk result (λ files. map seen files.items
        ≡ listed (map string_bytes names.now) (map string_bytes declared.now)) }
{
    let mut files = Vec::new(alloc);
    put_declared(&mut files, declared)?;
    put_others(&mut files, names, declared)?;
    Ok(files)
}

fn put_declared<'t>(files: &mut Vec<File<'t>>, declared: &'t [String]) -> Result<(), AllocError>
    ensures { OnOk result (map seen files.new.items ≡ map seen files.old.items
        ++ map spec.as_declared (map string_bytes declared.now)) }
{
    for path in declared {
        files.push(File {
            path: path.as_str(),
            is_declared: true,
        })?;
    }
    Ok(())
}

fn put_others<'t>(
    files: &mut Vec<File<'t>>,
    names: &'t [String],
    declared: &[String],
) -> Result<(), AllocError>
    ensures { OnOk result (map seen files.new.items ≡ map seen files.old.items
        ++ flat_map (spec.unless_declared (map string_bytes declared.now))
        (map string_bytes names.now)) }
{
    for name in names {
        if !is_among(declared, name.as_str()) {
            files.push(File {
                path: name.as_str(),
                is_declared: false,
            })?;
        }
    }
    Ok(())
}

fn is_among(declared: &[String], name: &str) -> bool
    ensures { result ≡ spec.is_among (map string_bytes declared.now) name.now }
{
    has(declared, name)
}

fn has(paths: &[String], name: &str) -> bool
    ensures { result ≡ list_any (λ path. bytes_eq (string_bytes path) name.now) paths.now }
{
    paths.iter().any(|path| path.as_str() == name)
}

fn read_all<S: Shelf>(
    alloc: Global,
    shelf: &S,
    plain: bool,
    name: &str,
    home: &Home,
    files: &[File<'_>],
) -> Result<OwnFiles, AllocError>
    ensures { IfOk result (AreRead (S.told shelf.now) plain name.now home.now
        (map seen files.now)) }
{
    let mut own = OwnFiles {
        files: Vec::new(alloc),
        lacking: Vec::new(alloc),
    };
    for file in files {
        add(alloc, shelf, plain, name, home, file, &mut own)?;
    }
    Ok(own)
}

// One file more.
fn add<S: Shelf>(
    alloc: Global,
    shelf: &S,
    plain: bool,
    name: &str,
    home: &Home,
    file: &File<'_>,
    own: &mut OwnFiles,
) -> Result<(), AllocError>
    ensures { OnOk result (IsOneMore (S.told shelf.now) plain name.now home.now
        (seen file.now) own.old own.new) }
{
    match read(alloc, shelf, plain, name, home, file) {
        Ok(read) => {
            keep(&mut own.files, read)?;
            Ok(())
        }
        Err(Failure::Refused(trouble)) => {
            own.lacking.push(trouble)?;
            Ok(())
        }
        Err(Failure::Memory(error)) => Err(error),
    }
}

fn keep(files: &mut Vec<ReadFile>, read: Option<ReadFile>) -> Result<(), AllocError>
    ensures { OnOk result (map read_of files.new.items
        ≡ map read_of files.old.items ++ option_to_list (option_map read_of read)) }
{
    if let Some(read) = read {
        files.push(read)?;
    }
    Ok(())
}

// What a file of the package holds; none where it is empty, for that says nothing, and a general text may stand in.
fn read<S: Shelf>(
    alloc: Global,
    shelf: &S,
    plain: bool,
    name: &str,
    home: &Home,
    file: &File<'_>,
) -> Result<Option<ReadFile>, Failure<TextTrouble>>
    ensures ok { IfOk result (λ read. IsFile (S.told shelf.now) plain home.now (seen file.now)
        (option_map read_of read)) }
    ensures err { IfErr result (IfRefused (IsNoFile (S.told shelf.now) name.now home.now
        (seen file.now))) }
{
    let bytes = bytes_of(alloc, shelf, name, home, file.path)?;
    if bytes.is_empty() {
        return Ok(None);
    }
    Ok(Some(ReadFile {
        path: String::from_str(alloc, file.path)?,
        is_declared: file.is_declared,
        bytes: plain_if(alloc, plain, bytes)?,
    }))
}

fn bytes_of<S: Shelf>(
    alloc: Global,
    shelf: &S,
    name: &str,
    home: &Home,
    path: &str,
) -> Result<Vec<u8>, Failure<TextTrouble>>
    ensures ok { IfOk result (λ bytes. spec.HasBytes (S.told shelf.now) home.now path.now
        bytes.items) }
    ensures err { IfErr result (IfRefused (spec.HasNoBytes (S.told shelf.now) name.now home.now
        path.now)) }
{
    match path_in(alloc, home.folder.as_str(), path)? {
        Some(whole) => bytes_within(
            alloc,
            shelf,
            name,
            Some(home.inside.as_str()),
            whole.as_str(),
        ),
        None => Err(Failure::Refused(trouble_at(alloc, name, path, Obstacle::NoPath)?)),
    }
}
