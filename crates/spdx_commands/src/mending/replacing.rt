// Who puts bytes in the places of files.

ghost use Rattle.check_files.specs.Told.{Account, Hears};
ghost use Rattle.spdx_commands.specs.Replaced.{Attempt, attempt, noted};

use shelves::Stamp;
use std::alloc::Global;
use std::io;

/// Why a file is left as it is.
#[derive(Drop)]
pub enum Obstacle {
    /// It changed since it was read.
    Changed,
    /// It has other names, which would keep the old bytes.
    Linked,
    /// Its owner or group can't be kept.
    Owner(io::Error),
    Failed(io::Error),
}

impl From<io::Error> for Obstacle {
    ghost use Rattle.std.specs.Prelude.{◌≡◌};
    ghost use Rattle.spdx_commands.specs.declared.mending.replacing.Obstacle.TheVariants.{Failed};

    ghost from_gives = { λ error o. o ≡ Failed error };

    fn from(error: io::Error) -> Obstacle {
        Obstacle::Failed(error)
    }
}

/// What a file lost.
#[derive(Clone, Copy, PartialEq, Eq, Debug)]
pub enum Loss {
    Nothing,
    /// The bits that let it run as its owner or its group.
    SetId,
}

/// Who puts bytes in the places of files.
pub trait Replacing {
    // What it keeps of what it tried, and of what came of that.
    ghost tried: { Self → Account Attempt };

    /// Puts the bytes in the place of what the file at the path held when it was read, which the stamp tells. A file that has
    /// other names is `Linked`, unless `breaks_links`: these keep the old bytes then.
    ///
    /// # Errors
    ///
    /// The file is as it was. `Failed` is for any other reason, want of memory too.
    fn replace(
        &mut self,
        alloc: Global,
        path: &str,
        read: Stamp,
        breaks_links: bool,
        bytes: &[u8],
    ) -> Result<Loss, Obstacle>
        ensures { Hears (tried self.old) (tried self.new)
            (noted (attempt path.now read breaks_links bytes.now result)) };
}
