// The files that a package declares to be texts of its licence.

ghost use Rattle.std.specs.Prelude.{◌≡◌, ◌++◌, IfOk, OnOk, map, option_map, string_bytes};
ghost use Rattle.owed_texts.specs.LicenseFiles as spec;
ghost use Rattle.owed_texts.specs.LicenseFiles.{
  AreDeclared,
  IsDeclaredAs,
  IsThereIn,
  place_of,
  form_read,
};
ghost use Rattle.std.specs.Option.{option_to_list};

use crate::home::OwnTexts;
use notice_texts::path_in;
use package_files::Source;
use package_sources::Form;
use shelves::Shelf;
use std::alloc::{AllocError, Global};

/// Where the files lie that a package declares.
#[derive(Clone, Copy)]
pub enum Place {
    /// Python's: in the folder `licenses`, or as some tools have it in `license_files`, or in the package's own.
    Python,
    /// Those that are in the package's folder: the path that is said is of where it is installed.
    Looked,
    /// Where it is said.
    Said,
}

/// Where those of a package lie that was read so.
pub(crate) fn place_of(source: Source<'_>, guessed: Option<Form>, own: OwnTexts<'_>) -> Place
    ensures { result ≡ place_of (form_read source.entry guessed) own.entry }
{
    match (form_read(source, guessed), own) {
        (Some(Form::Metadata), _) => Place::Python,
        (Some(Form::Pip), OwnTexts::Left | OwnTexts::Below(_)) => Place::Looked,
        _ => Place::Said,
    }
}

// The form that a file was read in.
fn form_read(source: Source<'_>, guessed: Option<Form>) -> Option<Form>
    ensures { result ≡ form_read source.entry guessed }
{
    match source {
        Source::Named(form) => Some(form),
        Source::Auto | Source::At(_) => guessed,
    }
}

/// The files that a package in the folder declares, from that folder.
pub(crate) fn declared_in<S: Shelf>(
    alloc: Global,
    shelf: &S,
    how: Place,
    folder: &str,
    paths: &[String],
) -> Result<Vec<String>, AllocError>
    ensures { IfOk result (λ v. AreDeclared (S.told shelf.now) how folder.now
        (map string_bytes paths.now) (map string_bytes v.items)) }
{
    let mut declared = Vec::new(alloc);
    for path in paths {
        let found = declared_as(alloc, shelf, how, folder, path.as_str())?;
        put(&mut declared, found)?;
    }
    Ok(declared)
}

fn put(declared: &mut Vec<String>, found: Option<String>) -> Result<(), AllocError>
    ensures { OnOk result (map string_bytes declared.new.items ≡ map string_bytes declared.old.items
        ++ option_to_list (option_map string_bytes found)) }
{
    if let Some(found) = found {
        declared.push(found)?;
    }
    Ok(())
}

fn declared_as<S: Shelf>(
    alloc: Global,
    shelf: &S,
    how: Place,
    folder: &str,
    path: &str,
) -> Result<Option<String>, AllocError>
    ensures { IfOk result (λ found. IsDeclaredAs (S.told shelf.now) how folder.now path.now
        (option_map string_bytes found)) }
{
    match how {
        Place::Python => in_python(alloc, shelf, folder, path),
        Place::Looked => if_there(alloc, shelf, folder, path),
        Place::Said => Ok(Some(String::from_str(alloc, path)?)),
    }
}

// The file in one of the folders that Python's tools have for such files, or as it is said.
fn in_python<S: Shelf>(
    alloc: Global,
    shelf: &S,
    folder: &str,
    path: &str,
) -> Result<Option<String>, AllocError>
    ensures { IfOk result (λ found. spec.IsPython (S.told shelf.now) folder.now path.now
        (option_map string_bytes found)) }
{
    let new = format!(in alloc; "licenses/{path}")?;
    if is_there_in(alloc, shelf, folder, new.as_str())? {
        return Ok(Some(new));
    }
    let old = format!(in alloc; "license_files/{path}")?;
    if is_there_in(alloc, shelf, folder, old.as_str())? {
        return Ok(Some(old));
    }
    Ok(Some(String::from_str(alloc, path)?))
}

fn if_there<S: Shelf>(
    alloc: Global,
    shelf: &S,
    folder: &str,
    path: &str,
) -> Result<Option<String>, AllocError>
    ensures { IfOk result (λ found. spec.IsLooked (S.told shelf.now) folder.now path.now
        (option_map string_bytes found)) }
{
    if is_there_in(alloc, shelf, folder, path)? {
        Ok(Some(String::from_str(alloc, path)?))
    } else {
        Ok(None)
    }
}

fn is_there_in<S: Shelf>(
    alloc: Global,
    shelf: &S,
    folder: &str,
    path: &str,
) -> Result<bool, AllocError>
    ensures { IfOk result (IsThereIn (S.told shelf.now) folder.now path.now) }
{
    match path_in(alloc, folder, path)? {
        Some(whole) => Ok(is_there(shelf, whole.as_str())),
        None => Ok(false),
    }
}

fn is_there<S: Shelf>(shelf: &S, path: &str) -> bool
    ensures { spec.IsThere (S.told shelf.now) path.now result }
{
    match shelf.kind(path) {
        Ok(_) => true,
        Err(_) => false,
    }
}
