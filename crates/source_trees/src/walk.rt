// The files below a path.

ghost use Rattle.shelves.specs.Shelf.{to_look};
ghost use Rattle.std.specs.Prelude.{◌≡◌, ◌⊎◌, ◌∷◌, [], IfErr, IfOk};
ghost use Rattle.std.specs.IoError.{error_kind};
ghost use Rattle.std.specs.declared.io.ErrorKind.TheVariants.{OutOfMemory};
ghost use Rattle.source_trees.specs.Walks as spec;
ghost use Rattle.source_trees.specs.Walks.{IsAlone, IsBegun, IsNext, IsOpened, IsPopped, IsStep, waiting};

use crate::stops::{Stop, Visit, stops_in};
use shelves::Shelf;
use std::alloc::{AllocError, Global};
use std::io;

/// What a walk comes to.
#[derive(Drop)]
pub enum Seen {
    /// A file.
    File(String),
    /// A folder, whose files come next, and how many of them have a name that is no UTF-8, which alone are left out.
    Folder(String, u64),
    /// A folder of what others wrote or a program made, which is left out.
    LeftOut(String),
    /// A new file that a run which was killed left beside the one whose place it was to take.
    LeftBehind(String),
    /// A folder that can't be read, which is left out.
    Unread(String, io::Error),
}

/// The files below a path, each folder's in the ascending order of their names (of bytes), a folder's own files where its name
/// stands. Links below the path are not followed.
#[derive(Drop)]
pub struct Walk {
    // the next one is the last
    stops: Vec<Stop>,
}

fn root_visit(is_folder: bool) -> Visit
    ensures { result ≡ spec.root_visit is_folder }
{
    if is_folder {
        Visit::Folder
    } else {
        Visit::File
    }
}

fn only(alloc: Global, stop: Stop) -> Result<Vec<Stop>, AllocError>
    ensures { IfOk result (λ stops. stops.items ≡ stop ∷ []) }
{
    let mut stops = Vec::new(alloc);
    stops.push(stop)?;
    Ok(stops)
}

impl Walk {
    /// Of one path.
    ///
    /// # Errors
    ///
    /// There is nothing at the path, it can't be looked at, or memory was refused.
    pub fn new<S: Shelf>(alloc: Global, shelf: &S, path: &str) -> io::Result<Walk>
        ensures ok { IfOk result (λ walk. IsBegun (S.told shelf.now) path.now (waiting walk)) }
        ensures err { IfErr result (λ error.
            (S.told shelf.now).Fails to_look path.now error ⊎ (error_kind error ≡ OutOfMemory)) }
    {
        let is_folder = shelf.is_folder(path)?;
        Ok(Walk::alone(alloc, path, is_folder)?)
    }

    // Of the path, which is a folder or not.
    #[tactic(auto, using(crate::proofs::Steps::alone))]
    fn alone(alloc: Global, path: &str, is_folder: bool) -> Result<Walk, AllocError>
        ensures { IfOk result (λ walk. IsAlone path.now is_folder (waiting walk)) }
    {
        let path = String::from_str(alloc, path)?;
        let visit = root_visit(is_folder);
        let stops = only(alloc, Stop { path, visit })?;
        Ok(Walk { stops })
    }

    /// What comes next; none at the end.
    ///
    /// # Errors
    ///
    /// Memory was refused.
    pub fn next<S: Shelf>(&mut self, alloc: Global, shelf: &S) -> Result<Option<Seen>, AllocError>
        ensures { IfOk result (λ next. IsNext (S.told shelf.now)
            (waiting self.old) next (waiting self.new)) }
    {
        match self.pop() {
            Some(stop) => Ok(Some(self.see(alloc, shelf, stop)?)),
            None => Ok(None),
        }
    }

    // Takes what comes next from what is yet to come.
    #[tactic(auto, using(crate::proofs::Steps::taken))]
    fn pop(&mut self) -> Option<Stop>
        ensures { IsPopped (waiting self.old) result (waiting self.new) }
    {
        self.stops.pop()
    }

    // What is seen at this one.
    #[tactic(auto, using(crate::proofs::Steps::at_file, crate::proofs::Steps::at_left_out, crate::proofs::Steps::at_left_behind))]
    fn see<S: Shelf>(&mut self, alloc: Global, shelf: &S, stop: Stop) -> Result<Seen, AllocError>
        ensures { IfOk result (IsStep (S.told shelf.now)
            (waiting self.old) stop (waiting self.new)) }
    {
        let Stop { path, visit } = stop;
        match visit {
            Visit::File => Ok(Seen::File(path)),
            Visit::LeftOut => Ok(Seen::LeftOut(path)),
            Visit::LeftBehind => Ok(Seen::LeftBehind(path)),
            Visit::Folder => self.open(alloc, shelf, path),
        }
    }

    // Puts what is in the folder before all else that is yet to come.
    #[tactic(auto, using(crate::proofs::Steps::opened, crate::proofs::Steps::on_top, crate::proofs::Steps::not_opened))]
    fn open<S: Shelf>(&mut self, alloc: Global, shelf: &S, path: String) -> Result<Seen, AllocError>
        ensures { IfOk result (IsOpened (S.told shelf.now)
            (waiting self.old) path (waiting self.new)) }
    {
        match shelf.entries(alloc, path.as_str()) {
            Ok(entries) => {
                let mut inside = stops_in(alloc, path.as_str(), &entries.named)?;
                inside.reverse();
                self.stops.append(&mut inside)?;
                Ok(Seen::Folder(path, entries.unnamed))
            }
            Err(error) => Ok(Seen::Unread(path, error)),
        }
    }
}
