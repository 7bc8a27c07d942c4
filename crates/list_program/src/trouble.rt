// Why no list is read.

use spdx_catalogue::ReadFault;
use spdx_list::ListFault;
use std::alloc::AllocError;
use std::io;

/// Why no list is read, or none is written.
#[derive(Drop)]
pub enum ListTrouble {
    /// The file or folder at the path can't be read.
    Unreadable(String, io::Error),
    /// `SPDX_LIST` is empty, or no UTF-8.
    Nameless,
    /// The file at the path, or what is called so, holds no list.
    NoList(String, ReadFault),
    /// SPDX's files make no list; the path is that of their folder, or of the first of them.
    NotMade(String, ListFault),
    /// What this project says besides SPDX's files isn't readable.
    NoExtras(ListFault),
    /// What was made can't be written.
    Output,
    Memory,
}

impl From<AllocError> for ListTrouble {
    ghost use Rattle.std.specs.Prelude.{◌≡◌};
    ghost use Rattle.list_program.specs.declared.trouble.ListTrouble.TheVariants.{Memory};

    ghost from_gives = { λ _ t. t ≡ Memory };

    fn from(_error: AllocError) -> ListTrouble {
        ListTrouble::Memory
    }
}
