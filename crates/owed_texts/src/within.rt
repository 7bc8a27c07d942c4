// What lies within folders.

ghost use Rattle.shelves.specs.Shelf.{to_follow};
ghost use Rattle.std.specs.Prelude.{◌≡◌, IfErr, IfOk, string_bytes};
ghost use Rattle.std.specs.Option.{option_copied};
ghost use Rattle.spdx_requirement.specs.Failures.{IfRefused};
ghost use Rattle.owed_texts.specs.Within as spec;
ghost use Rattle.owed_texts.specs.Within.{
  IsNotLooked,
  IsNotPlaced,
  IsOutside,
  IsReadWithin,
  IsUnreadWithin,
  IsPlaced,
  IsWithin,
  is_below,
};

use crate::trouble::{Obstacle, TextTrouble, trouble_at, unreadable};
use shelves::{Kind, Shelf};
use spdx_requirement::failure::Failure;
use std::alloc::Global;

/// What a regular file holds, which is in the folder, or where none is named is anywhere; links are followed. A trouble is told
/// by the name.
///
/// # Errors
///
/// It is a device or a pipe, leads out of the folder, or can't be read; or memory was refused.
pub fn bytes_within<S: Shelf>(
    alloc: Global,
    shelf: &S,
    name: &str,
    folder: Option<&str>,
    path: &str,
) -> Result<Vec<u8>, Failure<TextTrouble>>
    ensures ok { IfOk result (λ bytes. IsReadWithin (S.told shelf.now)
        (option_copied folder.entry) path.now bytes.items) }
    ensures err { IfErr result (IfRefused (IsUnreadWithin (S.told shelf.now) name.now
        (option_copied folder.entry) path.now)) }
{
    check_kind(alloc, shelf, name, path)?;
    check_place(alloc, shelf, name, folder, path)?;
    match shelf.read(alloc, path) {
        Ok(bytes) => Ok(bytes),
        Err(error) => Err(unreadable(alloc, name, path, error)),
    }
}

fn check_kind<S: Shelf>(
    alloc: Global,
    shelf: &S,
    name: &str,
    path: &str,
) -> Result<(), Failure<TextTrouble>>
    ensures ok { IfOk result (λ _. spec.IsNotSpecial (S.told shelf.now) path.now) }
    ensures err { IfErr result (IfRefused (IsNotLooked (S.told shelf.now) name.now path.now)) }
{
    match shelf.kind(path) {
        Ok(Kind::File | Kind::Folder) => Ok(()),
        Ok(Kind::Other) => Err(Failure::Refused(trouble_at(alloc, name, path, Obstacle::Special)?)),
        Err(error) => Err(unreadable(alloc, name, path, error)),
    }
}

fn check_place<S: Shelf>(
    alloc: Global,
    shelf: &S,
    name: &str,
    folder: Option<&str>,
    path: &str,
) -> Result<(), Failure<TextTrouble>>
    ensures ok { IfOk result (λ _. IsPlaced (S.told shelf.now) (option_copied folder.entry)
        path.now) }
    ensures err { IfErr result (IfRefused (IsNotPlaced (S.told shelf.now) name.now
        (option_copied folder.entry) path.now)) }
{
    match folder {
        Some(folder) => check_inside(alloc, shelf, name, folder, path),
        None => Ok(()),
    }
}

/// Whether the path, its links followed, is in the folder; where it isn't, that is a trouble.
///
/// # Errors
///
/// It isn't, or one of both can't be looked at; or memory was refused.
pub fn check_inside<S: Shelf>(
    alloc: Global,
    shelf: &S,
    name: &str,
    folder: &str,
    path: &str,
) -> Result<(), Failure<TextTrouble>>
    ensures ok { IfOk result (λ _. IsWithin (S.told shelf.now) folder.now path.now) }
    ensures err { IfErr result (IfRefused (IsOutside (S.told shelf.now) name.now folder.now
        path.now)) }
{
    let base = real_path(alloc, shelf, name, folder)?;
    let real = real_path(alloc, shelf, name, path)?;
    if is_below(base.as_str(), real.as_str()) {
        Ok(())
    } else {
        Err(Failure::Refused(trouble_at(alloc, name, path, Obstacle::LeadsOut)?))
    }
}

fn real_path<S: Shelf>(
    alloc: Global,
    shelf: &S,
    name: &str,
    path: &str,
) -> Result<String, Failure<TextTrouble>>
    ensures ok { IfOk result (λ real. (S.told shelf.now).IsReal path.now (string_bytes real)) }
    ensures err { IfErr result (IfRefused (spec.IsFailing (S.told shelf.now) to_follow
        name.now path.now)) }
{
    match shelf.real_path(alloc, path) {
        Ok(real) => Ok(real),
        Err(error) => Err(unreadable(alloc, name, path, error)),
    }
}

// Whether the path begins with the folder's, and goes on below it.
fn is_below(folder: &str, path: &str) -> bool
    ensures { result ≡ is_below folder.now path.now }
{
    match path.as_bytes().strip_prefix(folder.as_bytes()) {
        Some(rest) => folder == "/" || begins_below(rest),
        None => false,
    }
}

fn begins_below(rest: &[u8]) -> bool
    ensures { result ≡ spec.begins_below rest.now }
{
    matches!(rest, [b'/', ..])
}
