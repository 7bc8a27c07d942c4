// Who is told of troubles, and how far a check is.

ghost use Rattle.std.specs.Prelude.{◌≡◌, ◌∷◌, [], OnErr, OnOk};
ghost use Rattle.check_files.specs.Told.{Account, Hears};
ghost use Rattle.check_files.specs.declared.trouble.CheckTrouble as the_trouble;

use crate::trouble::CheckTrouble;
use std::alloc::{AllocError, Global};

/// Who is told of troubles when they happen, and how far a check is.
pub trait Telling {
    // What it keeps of the troubles that it was told.
    ghost told: { Self → Account the_trouble.CheckTrouble };

    /// A file or folder is passed over, or was left behind.
    ///
    /// # Errors
    ///
    /// Memory was refused, and it is told nothing.
    fn tell(&mut self, alloc: Global, trouble: CheckTrouble) -> Result<(), AllocError>
        ensures told { OnOk result (Hears (told self.old) (told self.new) (trouble ∷ [])) }
        ensures memory { OnErr result (told self.new ≡ told self.old) };

    /// So many files below a folder were checked, and another one is come to.
    ///
    /// # Errors
    ///
    /// Memory was refused.
    fn seen(&mut self, alloc: Global, files: u64) -> Result<(), AllocError>
        ensures { Hears (told self.old) (told self.new) [] };

    /// The folder is at its end.
    fn ended(&mut self)
        ensures { Hears (told self.old) (told self.new) [] };
}
