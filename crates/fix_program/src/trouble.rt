// Why a file is left out.

ghost use Rattle.std.specs.Prelude.{◌≡◌};
ghost use Rattle.fix_program.specs.Troubles as spec;

use file_fixes::ManifestFault;
use source_trees::ReadingFault;
use std::alloc::AllocError;
use std::io::{self, ErrorKind};

/// Why a file is left out: what is wrong at its path, as it is told.
#[derive(Drop)]
pub enum FixTrouble {
    /// It can't be read.
    Unreadable(String, io::Error),
    /// It is to be written, and is no regular file.
    Special(String),
    /// It stands above the folder in which a diff is applied.
    Above(String),
    /// It isn't the manifest that it is called.
    Manifest(String, ManifestFault),
    /// A manifest is wanted, and its name is that of none.
    NoManifest(String),
    /// A manifest is wanted, and it is a folder.
    Folder(String),
    /// It is a folder, and so many in it have names that are no UTF-8.
    Unnamed(String, u64),
    Memory,
}

impl From<AllocError> for FixTrouble {
    ghost use Rattle.std.specs.Prelude.{◌≡◌};
    ghost use Rattle.fix_program.specs.declared.trouble.FixTrouble.TheVariants.{Memory};

    ghost from_gives = { λ _ t. t ≡ Memory };

    fn from(_error: AllocError) -> FixTrouble {
        FixTrouble::Memory
    }
}

impl From<ReadingFault> for FixTrouble {
    ghost use Rattle.std.specs.Prelude.{◌≡◌};
    ghost use Rattle.fix_program.specs.Troubles as spec;

    ghost from_gives = { λ fault t. t ≡ spec.trouble_of fault };

    fn from(fault: ReadingFault) -> FixTrouble {
        match fault {
            ReadingFault::Unreadable(path, error) => FixTrouble::Unreadable(path, error),
            ReadingFault::NoManifest(path) => FixTrouble::NoManifest(path),
            ReadingFault::Folder(path) => FixTrouble::Folder(path),
            ReadingFault::Memory => FixTrouble::Memory,
        }
    }
}

impl FixTrouble {
    /// Whether memory was refused, to the system or to this program. After any other trouble other files are still read.
    pub fn is_of_memory(&self) -> bool
        ensures { result ≡ spec.is_of_memory self.now }
    {
        match self {
            FixTrouble::Unreadable(_, error) => matches!(error.kind(), ErrorKind::OutOfMemory),
            FixTrouble::Memory => true,
            FixTrouble::Special(_)
            | FixTrouble::Above(_)
            | FixTrouble::Manifest(..)
            | FixTrouble::NoManifest(_)
            | FixTrouble::Folder(_)
            | FixTrouble::Unnamed(..) => false,
        }
    }
}
