// The system as a shelf.

ghost use Rattle.shelves.specs.Shelf.{silent};

use crate::shelf::{Entries, Entry, Kind, Shelf, Stamp, Stamped, VariableFault};
use std::alloc::Global;
use std::env::{self, VarError};
use std::fs::{self, FileType, Metadata, OpenFile};
use std::io::{self, ErrorKind, Input, Read};
use std::os::unix::fs::MetadataExt;
use std::rt::{Env, Files};

/// The system's files, folders, variables and input. No clause says what they hold: what it tells is trusted.
#[derive(Clone, Copy)]
pub struct SystemShelf<'r, R> {
    rt: &'r R,
}

impl<'r, R: Env + Files + Input + AllocGlobal + Clone> SystemShelf<'r, R> {
    pub fn new(rt: &'r R) -> SystemShelf<'r, R> {
        SystemShelf { rt }
    }
}

impl Stamp {
    /// Of a file that this is told of.
    pub fn of(metadata: &Metadata) -> Stamp {
        Stamp {
            device: metadata.dev(),
            node: metadata.ino(),
            length: metadata.size(),
            changed: metadata.ctime(),
            changed_nanos: metadata.ctime_nsec(),
        }
    }
}

fn kind_of(file_type: FileType) -> Kind {
    if file_type.is_file() {
        Kind::File
    } else if file_type.is_dir() {
        Kind::Folder
    } else {
        Kind::Other
    }
}

impl<R: Env + Files + Input + AllocGlobal + Clone> Shelf for SystemShelf<'_, R> {
    ghost told = { λ _. silent };

    fn read(&self, _alloc: Global, path: &str) -> io::Result<Vec<u8>> {
        fs::read(self.rt, path)
    }

    fn read_stamped(&self, alloc: Global, path: &str) -> io::Result<Stamped> {
        let mut file = fs::open(self.rt, path)?;
        let stamp = Stamp::of(&file.metadata()?);
        let mut bytes = Vec::new(alloc);
        file.read_to_end(&mut bytes)?;
        Ok(Stamped { bytes, stamp })
    }

    fn is_folder(&self, path: &str) -> io::Result<bool> {
        Ok(fs::metadata(self.rt, path)?.is_dir())
    }

    fn kind(&self, path: &str) -> io::Result<Kind> {
        Ok(kind_of(fs::metadata(self.rt, path)?.file_type()))
    }

    fn entries(&self, alloc: Global, path: &str) -> io::Result<Entries> {
        let mut entries = Entries {
            named: Vec::new(alloc),
            unnamed: 0,
        };
        for entry in fs::read_dir(self.rt, path)? {
            match entry {
                Ok(entry) => entries.named.push(Entry {
                    name: String::from_str(alloc, entry.file_name())?,
                    kind: kind_of(entry.file_type()?),
                })?,
                Err(error) if error.kind() == ErrorKind::InvalidFilename => {
                    entries.unnamed = entries.unnamed.saturating_add(1);
                }
                Err(error) => return Err(error),
            }
        }
        Ok(entries)
    }

    fn real_path(&self, alloc: Global, path: &str) -> io::Result<String> {
        let real = fs::canonicalize(self.rt, path)?;
        Ok(String::from_str(alloc, real.as_str())?)
    }

    fn variable(&self, _alloc: Global, name: &str) -> Result<Option<String>, VariableFault> {
        match env::var(self.rt, name) {
            Ok(text) => Ok(Some(text)),
            Err(VarError::NotPresent) => Ok(None),
            Err(VarError::NotUnicode) => Err(VariableFault::NotUtf8),
            Err(VarError::OutOfMemory) => Err(VariableFault::Memory),
        }
    }

    fn input(&self, alloc: Global) -> io::Result<Vec<u8>> {
        let mut bytes = Vec::new(alloc);
        self.rt.reader().read_to_end(&mut bytes)?;
        Ok(bytes)
    }
}
