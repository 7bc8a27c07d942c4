// The packages of a file, over a shelf.

ghost use Rattle.shelves.specs.AtPath.{IsContent};
ghost use Rattle.shelves.specs.Shelf.{to_read};
ghost use Rattle.std.specs.Prelude.{◌≡◌, ℕ, IfErr, IfOk, List, map, string_bytes};
ghost use Rattle.std.specs.Char.{is_ascii_whitespace};
ghost use Rattle.std.specs.List.{list_all};
ghost use Rattle.package_items.specs.Rows.{row_of};
ghost use Rattle.package_files.specs.Listed as spec;
ghost use Rattle.package_files.specs.Listed.{
  IsEarlier,
  IsListedAt,
  IsListedBefore,
  IsReadFrom,
  Passes,
};
ghost use Rattle.package_files.specs.Faults.{
  IsEmptyOf,
  IsNotEarlier,
  IsNotListed,
  IsNotListedBefore,
  IsNotRead,
  IsUnread,
  IsUnreadAs,
};

use crate::fault::FileFault;
use crate::reading::read;
use package_sources::{Form, Package, Pointers, SourceError, guessed_form};
use shelves::{Shelf, bytes_at, told_path};
use std::alloc::{AllocError, Global};

/// How files are read.
#[derive(Clone, Copy)]
pub enum Source<'w> {
    /// By their shape.
    Auto,
    /// As files of this form.
    Named(Form),
    /// As JSON with the packages at these pointers.
    At(Pointers<'w>),
}

/// Which packages are wanted.
#[derive(Clone, Copy)]
pub struct Wanted<'w> {
    pub source: Source<'w>,
    /// Whether a file that lists no package passes.
    pub allow_empty: bool,
    /// Whether packages of one's own project are left out.
    pub exclude_own: bool,
}

/// The packages of a file.
#[derive(Drop)]
pub struct Listed {
    /// The file, as it is told.
    pub path: String,
    /// The form that it was read in, if its shape told that.
    pub guessed: Option<Form>,
    pub packages: Vec<Package>,
}

/// The packages that are wanted of the file at the path; of standard input where that is `-`.
///
/// # Errors
///
/// It can't be read, isn't of its form, or lists no package where that doesn't pass; or memory was refused.
#[tactic(auto, using(crate::proofs::Causes::unread, crate::proofs::Causes::not_read, crate::proofs::Parts::empty, crate::proofs::Parts::listed))]
pub fn listed_at<S: Shelf>(
    alloc: Global,
    shelf: &S,
    wanted: Wanted<'_>,
    path: &str,
) -> Result<Listed, FileFault>
    ensures ok { IfOk result (IsListedAt (S.told shelf.now) wanted.entry path.now) }
    ensures err { IfErr result (IsNotListed (S.told shelf.now) wanted.entry path.now) }
{
    let bytes = content(alloc, shelf, path)?;
    let listed = listed_in(alloc, wanted.source, told_path(path), &bytes)?;
    let listed = unless_empty(wanted, listed)?;
    Ok(without_own(wanted, listed))
}

// The same, unless it lists no package and that doesn't pass.
fn unless_empty(wanted: Wanted<'_>, listed: Listed) -> Result<Listed, FileFault>
    ensures same { IfOk result (λ same. same ≡ listed) }
    ensures some { IfOk result (λ same. Passes wanted.entry listed.packages.items) }
    ensures err { IfErr result (IsEmptyOf wanted.entry listed) }
{
    if !wanted.allow_empty && listed.packages.is_empty() {
        let Listed { path, .. } = listed;
        return Err(FileFault::Empty(path));
    }
    Ok(listed)
}

fn without_own(wanted: Wanted<'_>, listed: Listed) -> Listed
    ensures path { result.path ≡ listed.path }
    ensures form { result.guessed ≡ listed.guessed }
    ensures packages { map row_of result.packages.items
        ≡ spec.wanted_of wanted.entry (map row_of listed.packages.items) }
{
    if wanted.exclude_own {
        others(listed)
    } else {
        listed
    }
}

// The same without the packages of one's own project.
fn others(mut listed: Listed) -> Listed
    ensures path { result.path ≡ listed.path }
    ensures form { result.guessed ≡ listed.guessed }
    ensures packages { map row_of result.packages.items
        ≡ spec.others (map row_of listed.packages.items) }
{
    listed.packages.retain(|package| !package.is_own);
    listed
}

/// The packages of a baseline: of what an earlier run wrote as JSON, or of a file as the others are. Where no byte of it isn't
/// blank, there are none.
///
/// # Errors
///
/// It can't be read, or isn't of its form; or memory was refused.
#[tactic(auto, using(crate::proofs::Causes::unread_before, crate::proofs::Causes::not_read_before))]
pub fn listed_before<S: Shelf>(
    alloc: Global,
    shelf: &S,
    source: Source<'_>,
    path: &str,
) -> Result<Listed, FileFault>
    ensures ok { IfOk result (IsListedBefore (S.told shelf.now) source.entry path.now) }
    ensures err { IfErr result (IsNotListedBefore (S.told shelf.now) source.entry path.now) }
{
    let bytes = file_bytes(alloc, shelf, path)?;
    let listed = earlier(alloc, source, path, &bytes)?;
    Ok(listed)
}

#[tactic(auto, using(crate::proofs::Parts::blank, crate::proofs::Parts::read_again, crate::proofs::Parts::not_read_again))]
fn earlier(alloc: Global, source: Source<'_>, path: &str, bytes: &[u8]) -> Result<Listed, FileFault>
    ensures ok { IfOk result (IsEarlier source.entry path.now bytes.now) }
    ensures err { IfErr result (IsNotEarlier source.entry path.now bytes.now) }
{
    if is_blank(bytes) {
        return Ok(Listed {
            path: String::from_str(alloc, path)?,
            guessed: None,
            packages: Vec::new(alloc),
        });
    }
    let source = source_before(alloc, source, bytes)?;
    let listed = listed_in(alloc, source, path, bytes)?;
    Ok(listed)
}

fn is_blank(bytes: &[u8]) -> bool
    ensures { result ≡ list_all is_ascii_whitespace bytes.now }
{
    bytes.iter().all(u8::is_ascii_whitespace)
}

// How a baseline is read: what an earlier run wrote is known by its shape.
fn source_before<'w>(
    alloc: Global,
    source: Source<'w>,
    bytes: &[u8],
) -> Result<Source<'w>, AllocError>
    ensures { IfOk result (λ found. found ≡ spec.source_before source.entry bytes.now) }
{
    match guessed_form(alloc, bytes) {
        Ok(Form::Verdicts) => Ok(Source::Auto),
        Ok(_) | Err(SourceError::Refused(_)) => Ok(source),
        Err(SourceError::NoMemory) => Err(AllocError),
    }
}

// The packages of these bytes, of a file that is told so.
fn listed_in(
    alloc: Global,
    source: Source<'_>,
    path: &str,
    bytes: &[u8],
) -> Result<Listed, FileFault>
    ensures ok { IfOk result (IsReadFrom source.entry path.now bytes.now) }
    ensures err { IfErr result (IsNotRead source.entry path.now bytes.now) }
{
    match read(alloc, source, path, bytes) {
        Ok(read) => Ok(Listed {
            path: String::from_str(alloc, path)?,
            guessed: read.guessed,
            packages: read.packages,
        }),
        Err(SourceError::Refused(fault)) => {
            Err(FileFault::Source(String::from_str(alloc, path)?, fault))
        }
        Err(SourceError::NoMemory) => Err(FileFault::Memory),
    }
}

// What the file holds, or standard input.
fn content<S: Shelf>(alloc: Global, shelf: &S, path: &str) -> Result<Vec<u8>, FileFault>
    ensures ok { IfOk result (λ bytes. IsContent (S.told shelf.now) path.now bytes.items) }
    ensures err { IfErr result (IsUnread (S.told shelf.now) path.now) }
{
    match bytes_at(alloc, shelf, path) {
        Ok(bytes) => Ok(bytes),
        Err(error) => Err(FileFault::Unreadable(String::from_str(alloc, told_path(path))?, error)),
    }
}

fn file_bytes<S: Shelf>(alloc: Global, shelf: &S, path: &str) -> Result<Vec<u8>, FileFault>
    ensures ok { IfOk result (λ bytes. (S.told shelf.now).Holds path.now bytes.items) }
    ensures err { IfErr result (IsUnreadAs path.now
        ((S.told shelf.now).Fails to_read path.now)) }
{
    match shelf.read(alloc, path) {
        Ok(bytes) => Ok(bytes),
        Err(error) => Err(FileFault::Unreadable(String::from_str(alloc, path)?, error)),
    }
}
