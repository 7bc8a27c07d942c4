// Why the packages of a file aren't had.

ghost use Rattle.std.specs.Prelude.{◌≡◌};
ghost use Rattle.package_files.specs.All as spec;

use package_sources::SourceFault;
use std::alloc::AllocError;
use std::io::{self, ErrorKind};

/// Why the packages of a file aren't had.
#[derive(Drop)]
pub enum FileFault {
    /// The file at the path can't be read.
    Unreadable(String, io::Error),
    /// The file, as it is told, isn't of its form.
    Source(String, SourceFault),
    /// The file, as it is told, lists no package.
    Empty(String),
    Memory,
}

impl From<AllocError> for FileFault {
    ghost use Rattle.std.specs.Prelude.{◌≡◌};
    ghost use Rattle.package_files.specs.declared.fault.FileFault.TheVariants.{Memory};

    ghost from_gives = { λ _ f. f ≡ Memory };

    fn from(_error: AllocError) -> FileFault {
        FileFault::Memory
    }
}

impl FileFault {
    /// Whether memory was refused, to the system or to this program.
    pub fn is_of_memory(&self) -> bool
        ensures { result ≡ spec.is_of_memory self.now }
    {
        match self {
            FileFault::Unreadable(_, error) => matches!(error.kind(), ErrorKind::OutOfMemory),
            FileFault::Source(..) | FileFault::Empty(_) => false,
            FileFault::Memory => true,
        }
    }
}
