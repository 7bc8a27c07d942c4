// Why texts aren't had.

ghost use Rattle.std.specs.Prelude.{◌≡◌, IfOk, OnOk, string_bytes};
ghost use Rattle.std.specs.IoError.{error_kind};
ghost use Rattle.check_files.specs.Told.{Tells};
ghost use Rattle.package_commands.specs.Texts.{
  AreTextsTold,
  IsFolderTold,
  IsNotUtf8,
  IsRefused,
  IsTextTold,
  IsUnread,
  IsUnreadAs,
  IsUnreadText,
};
ghost use Rattle.package_commands.specs.Unchosen.{IsOnly};

use owed_texts::{Obstacle, TextTrouble};
use spdx_commands::Listener;
use spdx_troubles::Trouble;
use std::alloc::{AllocError, Global};
use std::io::{self, ErrorKind};

/// Tells that the folder of all packages isn't there.
///
/// # Errors
///
/// Memory was refused.
#[tactic(auto, using(crate::proofs::Obstacles::folder_told))]
pub(crate) fn tell_no_folder<T: Listener>(
    alloc: Global,
    trouble: TextTrouble,
    listener: &mut T,
) -> Result<(), AllocError>
    ensures { OnOk result (Tells (T.heard listener.old) (T.heard listener.new)
        (IsOnly (IsFolderTold trouble.path trouble.why))) }
{
    let TextTrouble { path, why, .. } = trouble;
    listener.hear(alloc, folder_trouble(path, why))?;
    Ok(())
}

fn folder_trouble(path: String, why: Obstacle) -> Trouble
    ensures { IsFolderTold path why result }
{
    match why {
        Obstacle::Unreadable(error) => Trouble::of_path(path, error),
        Obstacle::Unnamed
        | Obstacle::Special
        | Obstacle::LeadsOut
        | Obstacle::NoPath
        | Obstacle::Empty
        | Obstacle::NoFolder => Trouble::of_path(path, of_kind(ErrorKind::NotADirectory)),
    }
}

/// Tells that the text of this name is no UTF-8.
///
/// # Errors
///
/// Memory was refused.
#[tactic(auto, using(crate::proofs::Obstacles::not_utf8_told))]
pub(crate) fn tell_not_utf8<T: Listener>(
    alloc: Global,
    name: String,
    listener: &mut T,
) -> Result<(), AllocError>
    ensures { OnOk result (Tells (T.heard listener.old) (T.heard listener.new)
        (IsOnly (IsNotUtf8 name))) }
{
    let why = String::from_str(alloc, "is no UTF-8, which pages of HTML and of JSON are")?;
    listener.hear(alloc, Trouble::Text(name, why))?;
    Ok(())
}

/// Tells each of the texts that aren't had; of a link that leads out of the folder it is told what is said of such a
/// one.
///
/// # Errors
///
/// Memory was refused.
#[tactic(auto, using(crate::proofs::Obstacles::none_told, crate::proofs::Obstacles::text_told))]
pub(crate) fn tell_texts<T: Listener>(
    alloc: Global,
    link: &str,
    troubles: Vec<TextTrouble>,
    listener: &mut T,
) -> Result<(), AllocError>
    ensures { OnOk result (Tells (T.heard listener.old) (T.heard listener.new)
        (AreTextsTold link.now troubles.items)) }
{
    for trouble in troubles {
        let told = text_trouble(alloc, link, trouble)?;
        listener.hear(alloc, told)?;
    }
    Ok(())
}

fn text_trouble(alloc: Global, link: &str, trouble: TextTrouble) -> Result<Trouble, AllocError>
    ensures { IfOk result (IsTextTold link.now trouble) }
{
    let TextTrouble { name, path, why } = trouble;
    match why {
        Obstacle::Unreadable(error) => unreadable(alloc, name, path, error),
        Obstacle::Unnamed => unreadable(alloc, name, path, of_kind(ErrorKind::InvalidFilename)),
        Obstacle::NoFolder => unreadable(alloc, name, path, of_kind(ErrorKind::NotADirectory)),
        Obstacle::Special => refused(alloc, name, path, "no regular file"),
        Obstacle::LeadsOut => refused(alloc, name, path, link),
        Obstacle::NoPath => refused(alloc, name, path, "a path out of the folder"),
        Obstacle::Empty => refused(alloc, name, path, "empty"),
    }
}

fn of_kind(kind: ErrorKind) -> io::Error
    ensures { error_kind result ≡ kind }
{
    io::Error::from(kind)
}

// That the text isn't had, for this of the path.
#[tactic(auto, using(crate::proofs::Obstacles::text_refused))]
fn refused(alloc: Global, name: String, path: String, why: &str) -> Result<Trouble, AllocError>
    ensures { IfOk result (IsRefused name (string_bytes path) why.now) }
{
    let told = format!(in alloc; "{path}: {why}")?;
    Ok(Trouble::Text(name, told))
}

fn unreadable(
    alloc: Global,
    name: String,
    path: String,
    error: io::Error,
) -> Result<Trouble, AllocError>
    ensures { IfOk result (IsUnread name path error) }
{
    as_text(alloc, name, Trouble::of_path(path, error))
}

// What can't be read, as a text that isn't had.
#[tactic(auto, using(crate::proofs::Obstacles::text_unread, crate::proofs::Obstacles::other_told))]
fn as_text(alloc: Global, name: String, trouble: Trouble) -> Result<Trouble, AllocError>
    ensures { IfOk result (IsUnreadAs name trouble) }
{
    match trouble {
        Trouble::Unreadable(path, error) => unread(alloc, name, path, error),
        trouble => Ok(trouble),
    }
}

#[tactic(auto, using(crate::proofs::Obstacles::unread_told))]
fn unread(
    alloc: Global,
    name: String,
    path: String,
    error: io::Error,
) -> Result<Trouble, AllocError>
    ensures { IfOk result (IsUnreadText name (string_bytes path)) }
{
    let said = format!(in alloc; "{error}")?;
    refused(alloc, name, path, said.as_str())
}
