// A shelf of values whose files take other bytes.

use shelves::{
    Entries, Held, HeldBytes, HeldFile, Kind, OpenShelf, Shelf, Stamp, Stamped, VariableFault,
};
use std::alloc::{AllocError, Global};
use std::cell::RefCell;
use std::io::{self, ErrorKind};

/// The shelf of values, and what was put in the places of its files since then. Its links are followed. What stands at a path
/// with `pipe` in it is no regular file.
#[derive(Drop)]
pub(crate) struct Desk<'h> {
    held: &'h Held,
    // each with the path that no link stands at, the last one last
    put: RefCell<Vec<HeldFile>>,
}

impl<'h> Desk<'h> {
    /// Nothing was put in any place.
    pub(crate) fn new(alloc: Global, held: &'h Held) -> Desk<'h> {
        Desk {
            held,
            put: RefCell::new(Vec::new(alloc)),
        }
    }

    /// Puts the bytes in the place of what the file at the path holds. A link stays one: the file that it leads to takes them.
    pub(crate) fn put(&self, alloc: Global, path: &str, bytes: &[u8]) -> io::Result<()> {
        let file = HeldFile {
            path: String::from_str(alloc, self.behind_link(path))?,
            bytes: copy_of(alloc, bytes)?,
        };
        match self.put.try_borrow_mut() {
            Ok(mut put) => put.push(file)?,
            Err(_) => return Err(in_use()),
        }
        Ok(())
    }

    /// What was put in the places of files.
    pub(crate) fn into_put(self) -> Vec<HeldFile> {
        self.put.into_inner()
    }

    fn behind_link<'p>(&'p self, path: &'p str) -> &'p str {
        let links = &self.held.links;
        match links.iter().find(|link| link.path.as_str() == path) {
            Some(link) => link.to.as_str(),
            None => path,
        }
    }

    // What the file holds now. It is known by its place among the files, and by how often it was replaced, since a new file then
    // has its name.
    fn now_at(&self, alloc: Global, path: &str) -> io::Result<Stamped> {
        let Ok(put) = self.put.try_borrow() else {
            return Err(in_use());
        };
        let first = place_of(&self.held.files, path);
        let last = put.iter().rev().find(|file| is_at(file, path));
        let bytes = match last {
            Some(file) => copy_of(alloc, &file.bytes)?,
            None => self.held.read(alloc, path)?,
        };
        let stamp = Stamp {
            device: first.unwrap_or(0) as u64,
            node: put.iter().filter(|file| is_at(file, path)).count() as u64,
            length: bytes.len() as u64,
            changed: 0,
            changed_nanos: 0,
        };
        Ok(Stamped { bytes, stamp })
    }
}

fn in_use() -> io::Error {
    io::Error::from(ErrorKind::ResourceBusy)
}

fn is_at(file: &HeldFile, path: &str) -> bool {
    file.path.as_str() == path
}

fn place_of(files: &[HeldFile], path: &str) -> Option<usize> {
    files.iter().position(|file| is_at(file, path))
}

fn copy_of(alloc: Global, bytes: &[u8]) -> Result<Vec<u8>, AllocError> {
    let mut copy = Vec::new(alloc);
    copy.extend_from_slice(bytes)?;
    Ok(copy)
}

impl Shelf for Desk<'_> {
    ghost use Rattle.shelves.specs.Shelf.{silent};

    ghost told = { λ _. silent };

    fn read(&self, alloc: Global, path: &str) -> io::Result<Vec<u8>> {
        let Stamped { bytes, .. } = self.read_stamped(alloc, path)?;
        Ok(bytes)
    }

    fn read_stamped(&self, alloc: Global, path: &str) -> io::Result<Stamped> {
        self.now_at(alloc, self.behind_link(path))
    }

    fn is_folder(&self, path: &str) -> io::Result<bool> {
        let kind = self.kind(path)?;
        Ok(kind == Kind::Folder)
    }

    fn kind(&self, path: &str) -> io::Result<Kind> {
        if path.contains("pipe") {
            return Ok(Kind::Other);
        }
        self.held.kind(self.behind_link(path))
    }

    fn entries(&self, alloc: Global, path: &str) -> io::Result<Entries> {
        self.held.entries(alloc, path)
    }

    fn real_path(&self, alloc: Global, path: &str) -> io::Result<String> {
        self.held.real_path(alloc, path)
    }

    fn variable(&self, alloc: Global, name: &str) -> Result<Option<String>, VariableFault> {
        self.held.variable(alloc, name)
    }

    fn input(&self, alloc: Global) -> io::Result<Vec<u8>> {
        self.held.input(alloc)
    }
}

impl OpenShelf for Desk<'_> {
    type File = HeldBytes;

    type Stdin = HeldBytes;

    fn open(&self, alloc: Global, path: &str) -> io::Result<HeldBytes> {
        self.held.open(alloc, path)
    }

    fn open_input(&self, alloc: Global) -> io::Result<HeldBytes> {
        self.held.open_input(alloc)
    }
}
