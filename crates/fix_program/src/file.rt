// What is done with a file, over a shelf.

ghost use Rattle.shelves.specs.AtPath.{is_input};
ghost use Rattle.shelves.specs.Shelf.{to_read};
ghost use Rattle.std.specs.Prelude.{◌≡◌, Bool, false, IfErr, IfOk, OnOk, codes};
ghost use Rattle.fix_program.specs.Files as spec;
ghost use Rattle.fix_program.specs.Files.{
  AreAllRead,
  IsDeed,
  IsDiff,
  IsFixedAt,
  IsKnown,
  IsNoDeed,
  IsNoDiff,
  IsNotFixed,
  IsNotRegular,
  IsRead,
  IsRegular,
  IsFileReplacement,
  IsStampedBy,
  IsUnread,
  IsUnreadAs,
  IsUnmendedAs,
  IsUntouched,
};
ghost use Rattle.file_fixes.specs.Mended.{IsMended};
ghost use Rattle.shelves.specs.declared.shelf.Stamp.{Stamp};

use crate::diffs::{diff_name, diff_text};
use crate::trouble::FixTrouble;
use file_fixes::{Content, MendError, Outcome, Parts, mended_of};
use shelves::{Kind, Shelf, Stamp, Stamped, is_input, told_path};
use spdx_catalogue::Catalogue;
use std::alloc::{AllocError, Global};

/// What is done where a file is mended.
#[derive(Drop)]
pub enum Deed {
    /// The file stays, and nothing is put out.
    Nothing,
    /// This is put out: the diff that mends the file, or standard input as it is mended.
    Put(Vec<u8>),
    Replace(FileReplacement),
}

/// What a file is to hold, if it is still what it was when it was read.
#[derive(Drop)]
pub struct FileReplacement {
    pub path: String,
    /// Which of its expressions are mended.
    pub parts: Parts,
    pub stamp: Stamp,
    pub bytes: Vec<u8>,
}

/// What comes of a file that is read.
#[derive(Drop)]
pub struct Fixed {
    pub deed: Deed,
    /// Whether an expression is left that is refused.
    pub is_left: bool,
}

/// How files are mended.
#[derive(Clone, Copy)]
pub struct Manner<'c> {
    pub catalogue: &'c Catalogue,
    /// Whether files are to be written; else diffs are put out.
    pub is_written: bool,
}

/// What is done with these parts of the file at the path; `-` is standard input. Where files are to be written, the file is to
/// hold its bytes as they are mended, and standard input is put out so; else the diff is put out that mends them.
///
/// # Errors
///
/// It can't be read, is to be written and no regular file, isn't the manifest that it is called, or a diff can't name it; or
/// memory was refused.
pub fn file_fixed<S: Shelf>(
    alloc: Global,
    shelf: &S,
    manner: Manner<'_>,
    parts: Parts,
    path: &str,
) -> Result<Fixed, FixTrouble>
    ensures ok { IfOk result (IsFixedAt (S.told shelf.now) manner.entry.catalogue.now
        manner.entry.is_written parts path.now) }
    ensures err { IfErr result (IsNotFixed (S.told shelf.now) manner.entry.catalogue.now
        manner.entry.is_written parts path.now) }
    ensures needless { IfOk result (λ fixed. AreAllRead (S.told shelf.now)
        manner.entry.catalogue.now manner.entry.is_written parts path.now → IsUntouched fixed) }
{
    let fixed = fixed_at(alloc, shelf, manner, parts, path)?;
    Ok(fixed)
}

#[tactic(auto, using(crate::proofs::Stamped::stamped))]
fn fixed_at<S: Shelf>(
    alloc: Global,
    shelf: &S,
    manner: Manner<'_>,
    parts: Parts,
    path: &str,
) -> Result<Fixed, FixTrouble>
    ensures ok { IfOk result (IsFixedAt (S.told shelf.now) manner.entry.catalogue.now
        manner.entry.is_written parts path.now) }
    ensures err { IfErr result (IsNotFixed (S.told shelf.now) manner.entry.catalogue.now
        manner.entry.is_written parts path.now) }
{
    let read = read_at(alloc, shelf, manner.is_written, path)?;
    let content = Content {
        path: read_as(manner.is_written, path),
        bytes: &read.bytes,
    };
    let outcome = outcome_of(alloc, manner.catalogue, parts, content)?;
    let Outcome {
        bytes: new,
        is_left,
    } = outcome;
    let deed = deed_of(alloc, manner.is_written, parts, path, read, new)?;
    Ok(Fixed { deed, is_left })
}

// The path under which a file is read: standard input has none where it is put out as it is mended.
fn read_as(is_written: bool, path: &str) -> &str
    ensures { result.now ≡ spec.read_as is_written path.now }
{
    if is_written { told_path(path) } else { path }
}

fn outcome_of(
    alloc: Global,
    catalogue: &Catalogue,
    parts: Parts,
    content: Content<'_>,
) -> Result<Outcome, FixTrouble>
    ensures ok { IfOk result
        (IsMended catalogue.now parts content.entry.path.now content.entry.bytes.now) }
    ensures err { IfErr result
        (IsUnmendedAs catalogue.now parts content.entry.path.now content.entry.bytes.now) }
{
    match mended_of(alloc, catalogue, parts, content) {
        Ok(outcome) => Ok(outcome),
        Err(MendError::Manifest(fault)) => {
            Err(FixTrouble::Manifest(String::from_str(alloc, content.path)?, fault))
        }
        Err(MendError::Memory) => Err(FixTrouble::Memory),
    }
}

// What the file holds, which is a regular one where it is to be written.
fn read_at<S: Shelf>(
    alloc: Global,
    shelf: &S,
    is_written: bool,
    path: &str,
) -> Result<Stamped, FixTrouble>
    ensures ok { IfOk result (λ file.
        IsRead (S.told shelf.now) is_written path.now file.bytes.items) }
    ensures known { IfOk result (λ file.
        IsKnown (is_input path.now) (S.told shelf.now) path.now file.bytes.items file.stamp) }
    ensures err { IfErr result (IsUnread (S.told shelf.now) is_written path.now) }
{
    if is_input(path) {
        input(alloc, shelf)
    } else if is_written {
        regular_file(alloc, shelf, path)
    } else {
        file(alloc, shelf, path)
    }
}

fn input<S: Shelf>(alloc: Global, shelf: &S) -> Result<Stamped, FixTrouble>
    ensures ok { IfOk result (λ file. (S.told shelf.now).IsInput file.bytes.items) }
    ensures err { IfErr result (IsUnreadAs (codes "<stdin>") (S.told shelf.now).InputFails) }
{
    match shelf.input(alloc) {
        Ok(bytes) => Ok(Stamped {
            bytes,
            stamp: Stamp::default(),
        }),
        Err(error) => Err(FixTrouble::Unreadable(String::from_str(alloc, "<stdin>")?, error)),
    }
}

fn regular_file<S: Shelf>(alloc: Global, shelf: &S, path: &str) -> Result<Stamped, FixTrouble>
    ensures ok { IfOk result (λ file. (S.told shelf.now).Holds path.now file.bytes.items) }
    ensures stamp { IfOk result (λ file.
        (S.told shelf.now).HoldsAs path.now file.bytes.items file.stamp) }
    ensures regular { OnOk result (IsRegular (S.told shelf.now) path.now) }
    ensures err { IfErr result (IsNotRegular (S.told shelf.now) path.now) }
{
    match shelf.kind(path) {
        Ok(Kind::Other) => Err(FixTrouble::Special(String::from_str(alloc, path)?)),
        Ok(Kind::File | Kind::Folder) => file(alloc, shelf, path),
        Err(error) => Err(FixTrouble::Unreadable(String::from_str(alloc, path)?, error)),
    }
}

fn file<S: Shelf>(alloc: Global, shelf: &S, path: &str) -> Result<Stamped, FixTrouble>
    ensures ok { IfOk result (λ file. (S.told shelf.now).Holds path.now file.bytes.items) }
    ensures stamp { IfOk result (λ file.
        (S.told shelf.now).HoldsAs path.now file.bytes.items file.stamp) }
    ensures err { IfErr result (IsUnreadAs path.now
        ((S.told shelf.now).Fails to_read path.now)) }
{
    match shelf.read_stamped(alloc, path) {
        Ok(file) => Ok(file),
        Err(error) => Err(FixTrouble::Unreadable(String::from_str(alloc, path)?, error)),
    }
}

// What is done where this becomes of what was read.
fn deed_of(
    alloc: Global,
    is_written: bool,
    parts: Parts,
    path: &str,
    read: Stamped,
    new: Option<Vec<u8>>,
) -> Result<Deed, FixTrouble>
    ensures ok { IfOk result (IsDeed is_written parts path.now read.bytes.items new) }
    ensures stamp { IfOk result (IsStampedBy (is_input path.now) read.stamp) }
    ensures err { IfErr result (IsNoDeed is_written path.now new) }
{
    let Stamped { bytes, stamp } = read;
    if !is_written {
        diffed(alloc, path, &bytes, new)
    } else if is_input(path) {
        Ok(Deed::Put(new.unwrap_or(bytes)))
    } else {
        Ok(replaced(alloc, parts, path, stamp, new)?)
    }
}

fn diffed(alloc: Global, path: &str, old: &[u8], new: Option<Vec<u8>>) -> Result<Deed, FixTrouble>
    ensures ok { IfOk result (IsDiff path.now old.now new) }
    ensures stays { (input : Bool) (stamp : Stamp) → IfOk result (IsStampedBy input stamp) }
    ensures err { IfErr result (IsNoDiff path.now new) }
{
    let Some(new) = new else {
        return Ok(Deed::Nothing);
    };
    match diff_name(alloc, path)? {
        Some(name) => Ok(Deed::Put(diff_text(alloc, name.as_str(), old, &new)?)),
        None => Err(FixTrouble::Above(String::from_str(alloc, path)?)),
    }
}

fn replaced(
    alloc: Global,
    parts: Parts,
    path: &str,
    stamp: Stamp,
    new: Option<Vec<u8>>,
) -> Result<Deed, AllocError>
    ensures ok { IfOk result (IsFileReplacement parts path.now new) }
    ensures stamp { IfOk result (IsStampedBy false stamp) }
{
    match new {
        Some(bytes) => Ok(Deed::Replace(FileReplacement {
            path: String::from_str(alloc, path)?,
            parts,
            stamp,
            bytes,
        })),
        None => Ok(Deed::Nothing),
    }
}
