// Files, whatever they are called.

ghost use Rattle.std.specs.Prelude.{◌≡◌, ◌||◌, false, OnOk};
ghost use Rattle.shelves.specs.declared.shelf.Stamp.{Stamp};
ghost use Rattle.spdx_commands.specs.Nodes.{has_node};
ghost use Rattle.spdx_commands.specs.Replaced.{same_node};

use shelves::Stamp;
use std::alloc::{AllocError, Global};
use std::collections::BTreeSet;

/// Some files, each by its device and its node.
#[derive(Drop)]
pub(crate) struct Nodes {
    known: BTreeSet<(u64, u64)>,
}

impl Nodes {
    /// Of no file.
    pub(crate) fn new(alloc: Global) -> Nodes
        ensures { (stamp : Stamp) → has_node result stamp ≡ false }
    {
        Nodes {
            known: BTreeSet::new(alloc),
        }
    }

    /// Whether the file of the stamp is one of them.
    pub(crate) fn has(&self, stamp: Stamp) -> bool
        ensures { result ≡ has_node self.now stamp }
    {
        self.known.contains(&(stamp.device, stamp.node))
    }

    /// Takes in the file of the stamp.
    ///
    /// # Errors
    ///
    /// Memory was refused.
    pub(crate) fn add(&mut self, stamp: Stamp) -> Result<(), AllocError>
        ensures { OnOk result ((other : Stamp) → has_node self.new other
            ≡ (same_node stamp other || has_node self.old other)) }
    {
        self.known.insert((stamp.device, stamp.node))?;
        Ok(())
    }
}
