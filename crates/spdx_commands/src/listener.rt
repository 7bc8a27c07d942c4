// Who is told of troubles.

ghost use Rattle.std.specs.Prelude.{◌≡◌, ◌∷◌, [], OnErr, OnOk};
ghost use Rattle.check_files.specs.Told.{Account, Hears};
ghost use Rattle.spdx_troubles.specs.declared.trouble.Trouble as the_trouble;

use spdx_troubles::Trouble;
use std::alloc::{AllocError, Global};

/// Who is told of troubles when they happen.
pub trait Listener {
    // What it keeps of the troubles that it was told.
    ghost heard: { Self → Account the_trouble.Trouble };

    /// Takes a trouble.
    ///
    /// # Errors
    ///
    /// Memory was refused, and it is told nothing.
    fn hear(&mut self, alloc: Global, trouble: Trouble) -> Result<(), AllocError>
        ensures told { OnOk result (Hears (heard self.old) (heard self.new) (trouble ∷ [])) }
        ensures memory { OnErr result (heard self.new ≡ heard self.old) };
}

// A list takes them at its end.
impl Listener for Vec<Trouble> {
    ghost use Rattle.check_files.specs.Told.{each};

    ghost heard = { λ troubles. each troubles.items };

    fn hear(&mut self, _alloc: Global, trouble: Trouble) -> Result<(), AllocError> {
        self.push(trouble)?;
        Ok(())
    }
}
