// What a shelf is asked.

ghost use Rattle.std.specs.Prelude.{IfErr, IfOk, map, option_map, string_bytes};
ghost use Rattle.shelves.specs.Shelf.{Shelved, entry_of, to_follow, to_list, to_look, to_read};
ghost use Rattle.shelves.specs.Variables.{IsUntold};

use std::alloc::Global;
use std::io;

/// What stands at a path.
#[derive(Clone, Copy, PartialEq, Eq, Debug)]
pub enum Kind {
    /// A regular file.
    File,
    Folder,
    /// A device, a pipe, or in a folder a link, whatever it leads to.
    Other,
}

/// What a folder has in it.
#[derive(Drop)]
pub struct Entry {
    pub name: String,
    pub kind: Kind,
}

/// All that is in a folder, in no order.
#[derive(Drop)]
pub struct Entries {
    pub named: Vec<Entry>,
    /// How many more have a name that is no UTF-8.
    pub unnamed: u64,
}

/// By what a file is known to be the one that was read, with the bytes that it had then.
#[derive(Clone, Copy, PartialEq, Eq, Debug, Default)]
pub struct Stamp {
    pub device: u64,
    pub node: u64,
    pub length: u64,
    pub changed: i64,
    pub changed_nanos: i64,
}

/// What a file held, and by what it is known.
#[derive(Drop)]
pub struct Stamped {
    pub bytes: Vec<u8>,
    pub stamp: Stamp,
}

/// Why a variable can't be read.
#[derive(Clone, Copy, PartialEq, Eq, Debug)]
pub enum VariableFault {
    /// It is no UTF-8.
    NotUtf8,
    /// Memory was refused.
    Memory,
}

/// Files, folders, variables and the input, as they are told.
pub trait Shelf {
    // What it tells.
    ghost told: { Self → Shelved };

    /// The bytes of the file at the path.
    ///
    /// # Errors
    ///
    /// No file is there, it can't be read, or memory was refused.
    fn read(&self, alloc: Global, path: &str) -> io::Result<Vec<u8>>
        ensures ok { IfOk result (λ bytes. (told self.now).Holds path.now bytes.items) }
        ensures err { IfErr result (λ error.
            (told self.now).Fails to_read path.now error) };

    /// The same, with what tells later whether the file has changed.
    ///
    /// # Errors
    ///
    /// As of `read`.
    fn read_stamped(&self, alloc: Global, path: &str) -> io::Result<Stamped>
        ensures ok { IfOk result (λ file. (told self.now).Holds path.now file.bytes.items) }
        ensures stamp { IfOk result (λ file.
            (told self.now).HoldsAs path.now file.bytes.items file.stamp) }
        ensures err { IfErr result (λ error.
            (told self.now).Fails to_read path.now error) };

    /// Whether a folder is at the path.
    ///
    /// # Errors
    ///
    /// Nothing is there, or it can't be looked at.
    fn is_folder(&self, path: &str) -> io::Result<bool>
        ensures ok { IfOk result (λ is. (told self.now).IsFolder path.now is) }
        ensures err { IfErr result (λ error.
            (told self.now).Fails to_look path.now error) };

    /// What stands at the path, or where the link there leads.
    ///
    /// # Errors
    ///
    /// Nothing is there, or it can't be looked at.
    fn kind(&self, path: &str) -> io::Result<Kind>
        ensures ok { IfOk result (λ kind. (told self.now).IsOf path.now kind) }
        ensures err { IfErr result (λ error.
            (told self.now).Fails to_look path.now error) };

    /// What is in the folder at the path.
    ///
    /// # Errors
    ///
    /// No folder is there, it can't be read, or memory was refused.
    fn entries(&self, alloc: Global, path: &str) -> io::Result<Entries>
        ensures ok { IfOk result (λ entries. (told self.now).Lists path.now
            (map entry_of entries.named.items) entries.unnamed) }
        ensures err { IfErr result (λ error.
            (told self.now).Fails to_list path.now error) };

    /// The path of what is at this one, with all links followed.
    ///
    /// # Errors
    ///
    /// Nothing is there, it can't be looked at, or memory was refused.
    fn real_path(&self, alloc: Global, path: &str) -> io::Result<String>
        ensures ok { IfOk result (λ real. (told self.now).IsReal path.now (string_bytes real)) }
        ensures err { IfErr result (λ error.
            (told self.now).Fails to_follow path.now error) };

    /// What the variable says; none, where it isn't set.
    ///
    /// # Errors
    ///
    /// It is no UTF-8, or memory was refused.
    fn variable(&self, alloc: Global, name: &str) -> Result<Option<String>, VariableFault>
        ensures ok { IfOk result (λ text.
            (told self.now).Says name.now (option_map string_bytes text)) }
        ensures err { IfErr result (IsUntold (told self.now) name.now) };

    /// The bytes of standard input, to its end.
    ///
    /// # Errors
    ///
    /// It can't be read, or memory was refused.
    fn input(&self, alloc: Global) -> io::Result<Vec<u8>>
        ensures ok { IfOk result (λ bytes. (told self.now).IsInput bytes.items) }
        ensures err { IfErr result (λ error. (told self.now).InputFails error) };
}
