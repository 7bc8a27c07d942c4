// The system as a shelf whose files are read piece by piece.

ghost use Rattle.shelves.specs.Shelf.{silent};

use crate::open::OpenShelf;
use crate::shelf::{Entries, Kind, Shelf, Stamped, VariableFault};
use crate::system::SystemShelf;
use line_engine::stream::Input as Stream;
use std::alloc::Global;
use std::fs;
use std::io::{self, Input};
use std::rt::{Env, Files};

/// The system's files, folders, variables and input. No clause says what they hold: what it tells is trusted.
#[derive(Clone, Copy)]
pub struct OpenSystem<'r, R> {
    rt: &'r R,
}

impl<'r, R: Env + Files + Input + AllocGlobal + Clone> OpenSystem<'r, R> {
    pub fn new(rt: &'r R) -> OpenSystem<'r, R> {
        OpenSystem { rt }
    }

    // The same as a shelf alone.
    fn shelf(&self) -> SystemShelf<'r, R> {
        SystemShelf::new(self.rt)
    }
}

impl<R: Env + Files + Input + AllocGlobal + Clone> Shelf for OpenSystem<'_, R> {
    ghost told = { λ _. silent };

    fn read(&self, alloc: Global, path: &str) -> io::Result<Vec<u8>> {
        self.shelf().read(alloc, path)
    }

    fn read_stamped(&self, alloc: Global, path: &str) -> io::Result<Stamped> {
        self.shelf().read_stamped(alloc, path)
    }

    fn is_folder(&self, path: &str) -> io::Result<bool> {
        self.shelf().is_folder(path)
    }

    fn kind(&self, path: &str) -> io::Result<Kind> {
        self.shelf().kind(path)
    }

    fn entries(&self, alloc: Global, path: &str) -> io::Result<Entries> {
        self.shelf().entries(alloc, path)
    }

    fn real_path(&self, alloc: Global, path: &str) -> io::Result<String> {
        self.shelf().real_path(alloc, path)
    }

    fn variable(&self, alloc: Global, name: &str) -> Result<Option<String>, VariableFault> {
        self.shelf().variable(alloc, name)
    }

    fn input(&self, alloc: Global) -> io::Result<Vec<u8>> {
        self.shelf().input(alloc)
    }
}

impl<R: Env + Files + Input + AllocGlobal + Clone> OpenShelf for OpenSystem<'_, R> {
    type File = Stream<R::File>;

    type Stdin = Stream<R::Reader>;

    fn open(&self, _alloc: Global, path: &str) -> io::Result<Stream<R::File>> {
        Ok(Stream::new(fs::open(self.rt, path)?))
    }

    fn open_input(&self, _alloc: Global) -> io::Result<Stream<R::Reader>> {
        Ok(Stream::new(self.rt.reader()))
    }
}
