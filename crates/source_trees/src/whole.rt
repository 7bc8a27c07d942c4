// All that is below a path.

ghost use Rattle.shelves.specs.Shelf.{to_look};
ghost use Rattle.std.specs.Prelude.{◌⊎◌, All, IfErr, IfOk, ◌≡◌};
ghost use Rattle.std.specs.IoError.{error_kind};
ghost use Rattle.std.specs.declared.io.ErrorKind.TheVariants.{OutOfMemory};
ghost use Rattle.source_trees.specs.Walks.{AreAllBelow, AreBelow, IsWalked, waiting};

use crate::walk::{Seen, Walk};
use shelves::Shelf;
use std::alloc::{AllocError, Global};
use std::io;

/// All that a walk from the path comes to, in its order.
///
/// # Errors
///
/// There is nothing at the path, it can't be looked at, or memory was refused.
#[tactic(auto, using(crate::proofs::AllBelow::below_it))]
pub fn all_seen<S: Shelf>(alloc: Global, shelf: &S, path: &str) -> io::Result<Vec<Seen>>
    ensures ok { IfOk result (λ all. AreBelow (S.told shelf.now) path.now all.items) }
    ensures err { IfErr result (λ error.
        (S.told shelf.now).Fails to_look path.now error ⊎ (error_kind error ≡ OutOfMemory)) }
    ensures below { IfOk result (λ all. AreAllBelow (S.told shelf.now) path.now all.items) }
{
    let walk = Walk::new(alloc, shelf, path)?;
    Ok(walked(alloc, shelf, walk)?)
}

// All that the walk has yet to come to.
#[tactic(auto, using(crate::proofs::AllBelow::begun, crate::proofs::AllBelow::further, crate::proofs::AllBelow::finished))]
fn walked<S: Shelf>(alloc: Global, shelf: &S, walk: Walk) -> Result<Vec<Seen>, AllocError>
    ensures { IfOk result (λ all. IsWalked (S.told shelf.now) (waiting walk) all.items) }
{
    let mut walk = walk;
    let mut all = Vec::new(alloc);
    for _ in 0..u64::MAX {
        match walk.next(alloc, shelf)? {
            Some(seen) => all.push(seen)?,
            None => return Ok(all),
        }
    }
    // Nobody has memory for so many.
    Err(AllocError)
}
