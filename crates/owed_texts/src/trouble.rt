// Texts that aren't had.

ghost use Rattle.std.specs.Prelude.{◌≡◌, IfErr, IfOk, string_bytes};
ghost use Rattle.std.specs.IoError.{error_kind};
ghost use Rattle.spdx_requirement.specs.Failures.{IfRefused};
ghost use Rattle.owed_texts.specs.Trouble as spec;
ghost use Rattle.owed_texts.specs.Trouble.{IsOf, IsTold, IsUnreadable};

use spdx_requirement::failure::Failure;
use std::alloc::{AllocError, Global};
use std::io::{self, ErrorKind};

/// What stands in the way of a text.
#[derive(Drop)]
pub enum Obstacle {
    /// What is at the path can't be looked at, or not be read.
    Unreadable(io::Error),
    /// What is in the folder has a name that is no UTF-8.
    Unnamed,
    /// It is no regular file.
    Special,
    /// A link leads out of the folder.
    LeadsOut,
    /// The path may lead out of the folder that it begins from.
    NoPath,
    /// It is empty, where a text is wanted.
    Empty,
    /// It is no folder, where one is wanted.
    NoFolder,
}

/// A text, or a package's texts, that aren't had.
#[derive(Drop)]
pub struct TextTrouble {
    /// The name of the text, or the package as it is told.
    pub name: String,
    pub path: String,
    pub why: Obstacle,
}

/// The trouble of the name, at the path.
///
/// # Errors
///
/// Memory was refused.
pub fn trouble_at(
    alloc: Global,
    name: &str,
    path: &str,
    why: Obstacle,
) -> Result<TextTrouble, AllocError>
    ensures { IfOk result (IsOf name.now path.now why) }
{
    Ok(TextTrouble {
        name: String::from_str(alloc, name)?,
        path: String::from_str(alloc, path)?,
        why,
    })
}

/// The trouble of what can't be read, unless memory was refused.
pub fn unreadable(alloc: Global, name: &str, path: &str, error: io::Error) -> Failure<TextTrouble>
    ensures { IfRefused (IsUnreadable name.now path.now error) result }
{
    if is_of_memory(&error) {
        return Failure::Memory(AllocError);
    }
    match trouble_at(alloc, name, path, Obstacle::Unreadable(error)) {
        Ok(trouble) => Failure::Refused(trouble),
        Err(error) => Failure::Memory(error),
    }
}

fn is_of_memory(error: &io::Error) -> bool
    ensures { result ≡ spec.is_of_memory error.now }
{
    matches!(error.kind(), ErrorKind::OutOfMemory)
}

/// Whether nothing is there.
pub fn is_not_found(error: &io::Error) -> bool
    ensures { result ≡ spec.is_not_found error.now }
{
    matches!(error.kind(), ErrorKind::NotFound)
}
