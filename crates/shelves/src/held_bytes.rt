// The shelf of values.

ghost use Rattle.std.specs.Prelude.{◌≤◌, ◌-◌, Some, false, drop, length};
ghost use Rattle.line_engine.specs.Device.{told};

use crate::held::Held;
use crate::open::OpenShelf;
use crate::shelf::Shelf;
use line_engine::device::{Failed, Source};
use std::alloc::Global;
use std::io;

/// Gives its bytes, and never fails.
#[derive(Drop)]
pub struct HeldBytes {
    bytes: Vec<u8>,
    // How many of them were given.
    given: usize,
    ghost within: { given ≤ length bytes.items },
}

impl Source for HeldBytes {
    ghost told = { λ held. told (Some (drop held.given held.bytes.items)) false };

    ghost left = { λ held. length held.bytes.items - held.given };

    ghost MayFail = { λ _. ⊥ };

    fn read(&mut self, buffer: &mut [u8]) -> Result<usize, Failed> {
        let rest = &self.bytes[self.given..];
        let count = buffer.len().min(rest.len());
        buffer[..count].copy_from_slice(&rest[..count]);
        self.given += count;
        Ok(count)
    }

    fn failed(&self) -> bool {
        false
    }
}

impl OpenShelf for Held {
    type File = HeldBytes;

    type Stdin = HeldBytes;

    fn open(&self, alloc: Global, path: &str) -> io::Result<HeldBytes> {
        let bytes = self.read(alloc, path)?;
        Ok(HeldBytes { bytes, given: 0 })
    }

    fn open_input(&self, alloc: Global) -> io::Result<HeldBytes> {
        let bytes = self.input(alloc)?;
        Ok(HeldBytes { bytes, given: 0 })
    }
}
