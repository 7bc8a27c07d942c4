// What gives files piece by piece.

ghost use Rattle.shelves.specs.Shelf.{to_open};
ghost use Rattle.std.specs.Prelude.{IfErr, IfOk};
ghost use Rattle.shelves.specs.Opened.{Gives};

use crate::shelf::Shelf;
use line_engine::device::Source;
use std::alloc::Global;
use std::io;

/// A shelf that gives its files and its input piece by piece, too, and says of which of them a read may fail.
pub trait OpenShelf: Shelf {
    type File: Source + Drop;

    type Stdin: Source + Drop;

    /// Gives the bytes of the file at the path.
    ///
    /// # Errors
    ///
    /// No file is there, it can't be opened, or memory was refused.
    fn open(&self, alloc: Global, path: &str) -> io::Result<Self::File>
        ensures ok { IfOk result (λ file.
            Gives (Self.File.told file) ((Self.Shelf.told self.now).Holds path.now)) }
        ensures breaks { IfOk result (λ file.
            Self.File.MayFail file → (Self.Shelf.told self.now).Breaks path.now) }
        ensures err { IfErr result (λ error.
            (Self.Shelf.told self.now).Fails to_open path.now error) };

    /// Gives the bytes of standard input.
    ///
    /// # Errors
    ///
    /// It can't be read, or memory was refused.
    fn open_input(&self, alloc: Global) -> io::Result<Self::Stdin>
        ensures ok { IfOk result (λ input.
            Gives (Self.Stdin.told input) (Self.Shelf.told self.now).IsInput) }
        ensures breaks { IfOk result (λ input.
            Self.Stdin.MayFail input → (Self.Shelf.told self.now).InputBreaks) }
        ensures err { IfErr result (λ error. (Self.Shelf.told self.now).InputFails error) };
}
