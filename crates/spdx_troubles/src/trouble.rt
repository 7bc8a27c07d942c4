// Why the program stops, leaves a file out, or does other than what may be thought.

ghost use Rattle.std.specs.Prelude.{◌≡◌, ◌<◌};
ghost use Rattle.spdx_troubles.specs.Causes as causes;
ghost use Rattle.spdx_troubles.specs.Status.{is_passed_over, status_of};

use package_sources::SourceFault;
use spdx_catalogue::ReadFault;
use spdx_list::ListFault;
use spdx_policy::PolicyFault;
use std::io::{self, ErrorKind};

/// What went wrong outside the expressions.
#[derive(Drop)]
pub enum Trouble {
    /// A file or folder can't be opened or read.
    Unreadable(String, io::Error),
    /// The path has a byte that is no UTF-8, and so can't be opened.
    NotUtf8(String),
    /// So many files or folders in a folder have names that are no UTF-8.
    Unnamed(String, u64),
    /// Lines were asked for, and the path is a folder.
    Folder(String),
    /// What was read broke off at a fault.
    Broken(String),
    /// A file holds no list.
    List(String, ReadFault),
    /// SPDX's two files in a folder make no list.
    Made(String, ListFault),
    /// `SPDX_LIST` is empty, or no UTF-8.
    Nameless,
    /// What this project says besides SPDX's files isn't readable.
    NoExtras(ListFault),
    /// A file isn't what it was called.
    Source(String, SourceFault),
    /// A manifest isn't what it is called: why, and on which line.
    Manifest(String, &'static str, u64),
    /// A manifest was asked for, and no form has files of that name.
    NoManifest(String),
    /// A file lists no package.
    Empty(String),
    /// A file holds no policy.
    Policy(String, PolicyFault),
    /// What is accepted is no licence, and why.
    Accepted(String, String),
    /// No package has this name.
    NoPackage(String),
    /// A package has no choice, and why.
    NoChoice(String, String),
    /// It isn't told what an expression means, and why.
    Unmeant(String, String),
    /// A licence's text can't be had, and why.
    Text(String, String),
    /// A package wants the text of this name, which neither the package has nor anybody else.
    NoText(String, String),
    /// The list has no such name; and what is told of those that may be meant.
    Unlisted(String, String),
    /// The mended file can't be written.
    Unwritable(String, io::Error),
    /// The file that was to be mended changed since it was read.
    Changed(String),
    /// The file that is to be mended has other names.
    Linked(String),
    /// The owner or the group of a file can't be kept.
    Owner(String, io::Error),
    /// A file was mended, and doesn't run as its owner or group any more.
    Lost(String),
    /// A file was read as one of this form, which its shape told.
    Guessed(String, &'static str),
    /// A file that a run which was killed left beside the one that it was replacing.
    LeftBehind(String),
    /// These references stand in several documents.
    Shared(String),
    /// What is to be written is no regular file.
    Special(String),
    /// The file stands above the folder in which a diff is applied.
    Above(String),
    /// What is told can't be written.
    Output,
    /// Memory was refused.
    Memory,
}

fn is_of_memory(error: &io::Error) -> bool
    ensures { result ≡ causes.is_of_memory error.now }
{
    matches!(error.kind(), ErrorKind::OutOfMemory)
}

impl Trouble {
    /// Of this path, which gave this error. A NUL in it stands for what is no UTF-8 in an argument.
    pub fn of_path(path: String, error: io::Error) -> Trouble
        ensures { result ≡ causes.of_path path error }
    {
        if is_of_memory(&error) {
            return Trouble::Memory;
        }
        if path.as_bytes().contains(&0) {
            return Trouble::NotUtf8(path);
        }
        Trouble::Unreadable(path, error)
    }

    /// Whether other files are still to be read: this one alone is left out.
    pub fn is_passed_over(&self) -> bool
        ensures { result ≡ is_passed_over self.now }
    {
        matches!(
            self,
            Trouble::Unreadable(..)
                | Trouble::NotUtf8(_)
                | Trouble::Unnamed(..)
                | Trouble::Broken(_)
                | Trouble::Folder(_)
                | Trouble::Unlisted(..)
                | Trouble::Special(_)
                | Trouble::Above(_)
                | Trouble::Changed(_)
                | Trouble::Linked(_)
                | Trouble::Owner(..)
                | Trouble::Source(..)
                | Trouble::Manifest(..)
                | Trouble::NoManifest(_)
                | Trouble::Empty(_)
        )
    }

    /// The program's status: 3 where a write or memory failed, 2 where the list, a file or a name can't be used, 1 where what
    /// was asked for is refused, and 0 where this is only told.
    pub fn status(&self) -> u8
        ensures exact { result ≡ status_of self.now }
        ensures known { result < 4 }
    {
        match self {
            Trouble::Unwritable(..) | Trouble::Output | Trouble::Memory => 3,
            Trouble::NoChoice(..) | Trouble::NoText(..) => 1,
            Trouble::Lost(_) | Trouble::Guessed(..) | Trouble::LeftBehind(_) | Trouble::Shared(_) =>
                0,
            _ => 2,
        }
    }
}
