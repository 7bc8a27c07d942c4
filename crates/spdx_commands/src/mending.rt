// The command `fix`.

ghost use Rattle.std.specs.Prelude.{◌≡◌, ◌<◌, [], All, IfErr, IfOk, false, map};
ghost use Rattle.check_files.specs.Told.{Hears, Tells};
ghost use Rattle.fix_program.specs.Passing.{AreAllAccepted};
ghost use Rattle.fix_program.specs.Runs.{path_in};
ghost use Rattle.list_program.specs.Named.{inside_of};
ghost use Rattle.spdx_commands.specs.Beside.{IsBesideTold};
ghost use Rattle.spdx_commands.specs.Mend.{
  Did,
  IsFix,
  IsFixStopped,
  IsMere,
  IsNeeded,
  stand,
};

pub(crate) mod paths;
pub(crate) mod replacing;

use crate::beside::tell_left_beside;
use crate::deeds::Means;
use crate::follower::Follower;
use crate::mending::paths::{do_paths, greater};
use crate::mending::replacing::Replacing;
use crate::said::tell_each;
use fix_program::{Request, Run};
use line_engine::device::Sink;
use list_program::Inside;
use shelves::Shelf;
use spdx_troubles::Trouble;
use std::alloc::{AllocError, Global};

/// Mends what the request names: puts out the diffs, or standard input as it is mended, and where files are to be written, has
/// the mended bytes take the places of the others; tells which files are left as they are and why, and which ones runs that
/// were killed left behind. It answers the status: the greatest of those that are told and of 1, where some expression is
/// refused and has no mended text. A file that this run has replaced already, under another name maybe, is read and mended
/// again.
///
/// # Errors
///
/// The list isn't had: nothing is written and no file replaced. Or it breaks off: the output fails, a file can't be written,
/// or memory was refused.
pub fn fix<S: Shelf, R: Replacing, O: Sink, T: Follower>(
    alloc: Global,
    shelf: &S,
    inside: Inside<'_>,
    request: Request<'_>,
    replacer: &mut R,
    output: &mut O,
    listener: &mut T,
) -> Result<u8, Trouble>
    ensures ok { IfOk result (λ status.
        Did (stand (O.told output.old) (T.heard listener.old) (R.tried replacer.old))
        (stand (O.told output.new) (T.heard listener.new) (R.tried replacer.new))
        (IsFix (S.told shelf.now) (inside_of inside.entry.list.now inside.entry.extras.now)
        request.entry status)) }
    ensures err { IfErr result (IsFixStopped (S.told shelf.now)
        (inside_of inside.entry.list.now inside.entry.extras.now) request.entry
        (stand (O.told output.old) (T.heard listener.old) (R.tried replacer.old))
        (stand (O.told output.new) (T.heard listener.new) (R.tried replacer.new))) }
    ensures passes { IfOk result (λ status. status < 1 → AreAllAccepted (S.told shelf.now)
        (inside_of inside.entry.list.now inside.entry.extras.now) request.entry) }
    ensures quiet { IfOk result (λ status. status < 1 →
        Tells (T.heard listener.old) (T.heard listener.new) (All IsMere)) }
    ensures kept { request.entry.is_written ≡ false →
        Hears (R.tried replacer.old) (R.tried replacer.new) [] }
    ensures mended { Tells (R.tried replacer.old) (R.tried replacer.new) (All
        (IsNeeded (S.told shelf.now) (inside_of inside.entry.list.now inside.entry.extras.now)
        request.entry)) }
{
    let run = fix_program::fix(alloc, shelf, inside, request, listener)?;
    let planned = run.status();
    let Run { catalogue, paths } = run;
    let means = Means {
        shelf,
        catalogue: &catalogue,
        breaks_links: request.breaks_links,
    };
    let told = do_paths(alloc, &means, paths, replacer, output, listener)?;
    let beside = beside(alloc, shelf, request)?;
    tell_each(alloc, beside, listener)?;
    Ok(greater(planned, told))
}

// Where files are written, what stands beside them that was left behind.
#[tactic(auto, using(crate::proofs::Besides::none_beside, crate::proofs::Besides::all_beside))]
fn beside<S: Shelf>(
    alloc: Global,
    shelf: &S,
    request: Request<'_>,
) -> Result<Vec<Trouble>, AllocError>
    ensures { IfOk result (λ beside. IsBesideTold request.entry.is_written (S.told shelf.now)
        (map path_in request.entry.paths.now) beside.items) }
{
    if !request.is_written {
        return Ok(Vec::new(alloc));
    }
    let mut beside = Vec::new(alloc);
    tell_left_beside(alloc, shelf, request.paths, &mut beside)?;
    Ok(beside)
}
