// A shelf of values on which a file whose name ends in `.torn` breaks off at its end.

use line_engine::device::{Failed, Source};
use shelves::{Entries, Held, Kind, OpenShelf, Shelf, Stamped, VariableFault};
use std::alloc::Global;
use std::io;

/// The shelf of values, whose files may break off.
#[derive(Clone, Copy)]
pub(crate) struct Fragile<'h> {
    pub(crate) held: &'h Held,
}

/// What is read byte by byte, and may break off where it would end.
#[derive(Drop)]
pub struct Torn {
    // the next byte is the last
    left: Vec<u8>,
    is_torn: bool,
    has_failed: bool,
}

impl Torn {
    fn new(mut bytes: Vec<u8>, is_torn: bool) -> Torn {
        bytes.reverse();
        Torn {
            left: bytes,
            is_torn,
            has_failed: false,
        }
    }
}

impl Source for Torn {
    ghost use Rattle.std.specs.Prelude.{None, length};
    ghost use Rattle.line_engine.specs.Device.{told};

    ghost told = { λ torn. told None torn.has_failed };

    ghost left = { λ torn. length torn.left.items };

    fn read(&mut self, buffer: &mut [u8]) -> Result<usize, Failed> {
        if self.has_failed {
            return Err(Failed);
        }
        if buffer.is_empty() {
            return Ok(0);
        }
        match self.left.pop() {
            Some(byte) => {
                buffer[0] = byte;
                Ok(1)
            }
            None if self.is_torn => {
                self.has_failed = true;
                Err(Failed)
            }
            None => Ok(0),
        }
    }

    fn failed(&self) -> bool {
        self.has_failed
    }
}

impl Shelf for Fragile<'_> {
    ghost use Rattle.shelves.specs.Shelf.{silent};

    ghost told = { λ _. silent };

    fn read(&self, alloc: Global, path: &str) -> io::Result<Vec<u8>> {
        self.held.read(alloc, path)
    }

    fn read_stamped(&self, alloc: Global, path: &str) -> io::Result<Stamped> {
        self.held.read_stamped(alloc, path)
    }

    fn is_folder(&self, path: &str) -> io::Result<bool> {
        self.held.is_folder(path)
    }

    fn kind(&self, path: &str) -> io::Result<Kind> {
        self.held.kind(path)
    }

    fn entries(&self, alloc: Global, path: &str) -> io::Result<Entries> {
        self.held.entries(alloc, path)
    }

    fn real_path(&self, alloc: Global, path: &str) -> io::Result<String> {
        self.held.real_path(alloc, path)
    }

    fn variable(&self, alloc: Global, name: &str) -> Result<Option<String>, VariableFault> {
        self.held.variable(alloc, name)
    }

    fn input(&self, alloc: Global) -> io::Result<Vec<u8>> {
        self.held.input(alloc)
    }
}

impl OpenShelf for Fragile<'_> {
    type File = Torn;

    type Stdin = Torn;

    fn open(&self, alloc: Global, path: &str) -> io::Result<Torn> {
        let bytes = self.held.read(alloc, path)?;
        Ok(Torn::new(bytes, path.ends_with(".torn")))
    }

    fn open_input(&self, alloc: Global) -> io::Result<Torn> {
        let bytes = self.held.input(alloc)?;
        Ok(Torn::new(bytes, false))
    }
}
