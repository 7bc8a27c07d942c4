// A shelf of values.

ghost use Rattle.std.specs.Prelude.{◌≡◌, IfErr, IfOk, find, length, map, option_map, bytes_eq, string_bytes};
ghost use Rattle.std.specs.IoError.{error_kind};
ghost use Rattle.std.specs.declared.io.ErrorKind.TheVariants.{OutOfMemory};
ghost use Rattle.std.specs.Option.{option_copied};
ghost use Rattle.shelves.specs.Held as spec;
ghost use Rattle.shelves.specs.Held.{shelved};
ghost use Rattle.shelves.specs.Shelf.{entry_of};
ghost use Rattle.shelves.specs.declared.held.HeldFile.{HeldFile};
ghost use Rattle.shelves.specs.declared.held.HeldFolder.{HeldFolder};
ghost use Rattle.shelves.specs.declared.held.HeldLink.{HeldLink};
ghost use Rattle.shelves.specs.declared.held.HeldVariable.{HeldVariable};

use crate::shelf::{Entries, Entry, Kind, Shelf, Stamp, Stamped, VariableFault};
use std::alloc::{AllocError, Global};
use std::io::{self, ErrorKind};

/// A file of a shelf of values.
#[derive(Drop)]
pub struct HeldFile {
    pub path: String,
    pub bytes: Vec<u8>,
}

/// A folder of a shelf of values, which itself says what is in it.
#[derive(Drop)]
pub struct HeldFolder {
    pub path: String,
    pub entries: Vec<Entry>,
}

/// A link of a shelf of values: with its links followed the path is the other one.
#[derive(Drop)]
pub struct HeldLink {
    pub path: String,
    pub to: String,
}

/// A variable of a shelf of values.
#[derive(Drop)]
pub struct HeldVariable {
    pub name: String,
    pub text: String,
}

/// Files, folders, links, variables and an input that stand ready, for rows and tests. Of two of the same path or name the
/// first counts.
#[derive(Drop)]
pub struct Held {
    pub files: Vec<HeldFile>,
    pub folders: Vec<HeldFolder>,
    pub links: Vec<HeldLink>,
    pub variables: Vec<HeldVariable>,
    pub input: Vec<u8>,
}

fn file_at<'h>(files: &'h [HeldFile], path: &str) -> Option<&'h HeldFile>
    ensures { option_copied result
        ≡ find (λ (f : HeldFile). bytes_eq (string_bytes f.path) path.now) files.now }
{
    files.iter().find(|file| file.path.as_str() == path)
}

fn bytes_at<'h>(files: &'h [HeldFile], path: &str) -> Option<&'h [u8]>
    ensures { option_copied result ≡ spec.bytes_at files.now path.now }
{
    match file_at(files, path) {
        Some(file) => Some(file.bytes.as_slice()),
        None => None,
    }
}

fn variable_named<'h>(variables: &'h [HeldVariable], name: &str) -> Option<&'h HeldVariable>
    ensures { option_copied result
        ≡ find (λ (v : HeldVariable). bytes_eq (string_bytes v.name) name.now) variables.now }
{
    variables
        .iter()
        .find(|variable| variable.name.as_str() == name)
}

fn folder_at<'h>(folders: &'h [HeldFolder], path: &str) -> Option<&'h HeldFolder>
    ensures { option_copied result
        ≡ find (λ (f : HeldFolder). bytes_eq (string_bytes f.path) path.now) folders.now }
{
    folders.iter().find(|folder| folder.path.as_str() == path)
}

fn entries_at<'h>(folders: &'h [HeldFolder], path: &str) -> Option<&'h [Entry]>
    ensures { option_map (map entry_of) (option_copied result)
        ≡ spec.entries_at folders.now path.now }
{
    match folder_at(folders, path) {
        Some(folder) => Some(folder.entries.as_slice()),
        None => None,
    }
}

fn link_at<'h>(links: &'h [HeldLink], path: &str) -> Option<&'h HeldLink>
    ensures { option_copied result
        ≡ find (λ (l : HeldLink). bytes_eq (string_bytes l.path) path.now) links.now }
{
    links.iter().find(|link| link.path.as_str() == path)
}

fn real_path<'h>(links: &'h [HeldLink], path: &'h str) -> &'h str
    ensures { result.now ≡ spec.real_path links.now path.now }
{
    match link_at(links, path) {
        Some(link) => link.to.as_str(),
        None => path,
    }
}

fn has_folder(folders: &[HeldFolder], path: &str) -> bool
    ensures { result ≡ spec.has_folder folders.now path.now }
{
    folders.iter().any(|folder| folder.path.as_str() == path)
}

fn copy_of(alloc: Global, bytes: &[u8]) -> io::Result<Vec<u8>>
    ensures ok { IfOk result (λ copy. copy.items ≡ bytes.now) }
    ensures err { IfErr result (λ error. error_kind error ≡ OutOfMemory) }
{
    let mut copy = Vec::new(alloc);
    match copy.extend_from_slice(bytes) {
        Ok(()) => Ok(copy),
        Err(_) => Err(io::Error::from(ErrorKind::OutOfMemory)),
    }
}

fn text_of(alloc: Global, text: &str) -> io::Result<String>
    ensures ok { IfOk result (λ copy. string_bytes copy ≡ text.now) }
    ensures err { IfErr result (λ error. error_kind error ≡ OutOfMemory) }
{
    match String::from_str(alloc, text) {
        Ok(copy) => Ok(copy),
        Err(AllocError) => Err(io::Error::from(ErrorKind::OutOfMemory)),
    }
}

// A file of a shelf of values is known by its length alone.
fn stamp_of(bytes: &[u8]) -> Stamp
    ensures { result.length ≡ length bytes.now }
{
    Stamp {
        device: 0,
        node: 0,
        length: bytes.len() as u64,
        changed: 0,
        changed_nanos: 0,
    }
}

fn entries_of(alloc: Global, entries: &[Entry]) -> io::Result<Vec<Entry>>
    ensures ok { IfOk result (λ copy. map entry_of copy.items ≡ map entry_of entries.now) }
    ensures err { IfErr result (λ error. error_kind error ≡ OutOfMemory) }
{
    match copies_of(alloc, entries) {
        Ok(copies) => Ok(copies),
        Err(AllocError) => Err(io::Error::from(ErrorKind::OutOfMemory)),
    }
}

fn copies_of(alloc: Global, entries: &[Entry]) -> Result<Vec<Entry>, AllocError>
    ensures { IfOk result (λ copy. map entry_of copy.items ≡ map entry_of entries.now) }
{
    let mut copies = Vec::new(alloc);
    for entry in entries {
        copies.push(Entry {
            name: String::from_str(alloc, entry.name.as_str())?,
            kind: entry.kind,
        })?;
    }
    Ok(copies)
}

impl Shelf for Held {
    ghost told = { shelved };

    fn read(&self, alloc: Global, path: &str) -> io::Result<Vec<u8>> {
        match bytes_at(&self.files, path) {
            Some(bytes) => copy_of(alloc, bytes),
            None => Err(io::Error::from(ErrorKind::NotFound)),
        }
    }

    fn read_stamped(&self, alloc: Global, path: &str) -> io::Result<Stamped> {
        match bytes_at(&self.files, path) {
            Some(bytes) => Ok(Stamped {
                bytes: copy_of(alloc, bytes)?,
                stamp: stamp_of(bytes),
            }),
            None => Err(io::Error::from(ErrorKind::NotFound)),
        }
    }

    fn is_folder(&self, path: &str) -> io::Result<bool> {
        Ok(has_folder(&self.folders, path))
    }

    fn kind(&self, path: &str) -> io::Result<Kind> {
        if bytes_at(&self.files, path).is_some() {
            return Ok(Kind::File);
        }
        if has_folder(&self.folders, path) {
            return Ok(Kind::Folder);
        }
        Err(io::Error::from(ErrorKind::NotFound))
    }

    fn entries(&self, alloc: Global, path: &str) -> io::Result<Entries> {
        match entries_at(&self.folders, path) {
            Some(entries) => Ok(Entries {
                named: entries_of(alloc, entries)?,
                unnamed: 0,
            }),
            None => Err(io::Error::from(ErrorKind::NotFound)),
        }
    }

    fn real_path(&self, alloc: Global, path: &str) -> io::Result<String> {
        text_of(alloc, real_path(&self.links, path))
    }

    fn variable(&self, alloc: Global, name: &str) -> Result<Option<String>, VariableFault> {
        let Some(variable) = variable_named(&self.variables, name) else {
            return Ok(None);
        };
        match String::from_str(alloc, variable.text.as_str()) {
            Ok(text) => Ok(Some(text)),
            Err(AllocError) => Err(VariableFault::Memory),
        }
    }

    fn input(&self, alloc: Global) -> io::Result<Vec<u8>> {
        copy_of(alloc, &self.input)
    }
}
