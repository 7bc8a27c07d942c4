// The packages of bytes.

ghost use Rattle.std.specs.Prelude.{◌≡◌, Err, IfErr, IfOk, Ok, map, option_map};
ghost use Rattle.std.specs.Path.{rsplit_once};
ghost use Rattle.package_items.specs.Rows.{Says, row_of};
ghost use Rattle.package_files.specs.Reading as spec;

use crate::listed::Source;
use package_sources::{Form, Package, SourceError, guessed_form, packages, packages_at};
use std::alloc::Global;

/// The packages, and the form that the shape of the bytes told if none was named.
#[derive(Drop)]
pub(crate) struct FileRead {
    pub(crate) guessed: Option<Form>,
    pub(crate) packages: Vec<Package>,
}

/// The packages of the bytes of a file, whose path is told so.
pub(crate) fn read(
    alloc: Global,
    source: Source<'_>,
    path: &str,
    bytes: &[u8],
) -> Result<FileRead, SourceError>
    ensures ok { IfOk result (λ read. spec.read source.entry path.now bytes.now
        ≡ Ok (read.guessed, map row_of read.packages.items)) }
    ensures err { IfErr result (Says (λ f.
        spec.read source.entry path.now bytes.now ≡ Err f)) }
{
    match source {
        Source::Auto => guessed(alloc, path, bytes),
        Source::Named(form) => named(alloc, form, path, bytes),
        Source::At(pointers) => Ok(FileRead {
            guessed: None,
            packages: packages_at(alloc, &pointers, bytes)?,
        }),
    }
}

fn guessed(alloc: Global, path: &str, bytes: &[u8]) -> Result<FileRead, SourceError>
    ensures ok { IfOk result (λ read. spec.read_by_shape path.now bytes.now
        ≡ Ok (read.guessed, map row_of read.packages.items)) }
    ensures err { IfErr result (Says (λ f. spec.read_by_shape path.now bytes.now ≡ Err f)) }
{
    let form = guessed_form(alloc, bytes)?;
    Ok(FileRead {
        guessed: Some(form),
        packages: packages(alloc, form, folder_of(path), bytes)?,
    })
}

fn named(alloc: Global, form: Form, path: &str, bytes: &[u8]) -> Result<FileRead, SourceError>
    ensures ok { IfOk result (λ read. spec.read_as form path.now bytes.now
        ≡ Ok (read.guessed, map row_of read.packages.items)) }
    ensures err { IfErr result (Says (λ f. spec.read_as form path.now bytes.now ≡ Err f)) }
{
    Ok(FileRead {
        guessed: None,
        packages: packages(alloc, form, folder_of(path), bytes)?,
    })
}

fn parts(path: &str) -> Option<(&str, &str)>
    ensures { option_map (λ p. (p.0.now, p.1.now)) result ≡ rsplit_once 47 path.now }
{
    path.rsplit_once('/')
}

// The folder that a file is in, as its path says it.
fn folder_of(path: &str) -> &str
    ensures { result.now ≡ spec.folder_of path.now }
{
    match parts(path) {
        Some((folder, _)) => folder,
        None => "",
    }
}
