// What is done of what comes of each path.

ghost use Rattle.std.specs.Prelude.{◌≡◌, ◌++◌, [], IfErr, IfOk, OnOk, flat_map, max};
ghost use Rattle.spdx_commands.specs.Mend.{
  AreEndsBegun,
  AreEndsDone,
  ArePathsBegun,
  ArePathsDone,
  Did,
  IsBrokenOff,
  IsPathBegun,
  IsPathDone,
  left_behind,
  stand,
};
ghost use Rattle.spdx_commands.specs.Steps.{
  Began,
  BeganPath,
  Comes,
  ComesOfPath,
  IsWorst,
  setting_of,
};

use crate::beside::tell_left;
use crate::deeds::{Means, SoFar, do_end};
use crate::listener::Listener;
use crate::mending::replacing::Replacing;
use fix_program::{FileEnd, PathEnd};
use line_engine::device::Sink;
use shelves::Shelf;
use spdx_troubles::Trouble;
use std::alloc::Global;
use std::mem;

/// Does what comes of each path, in their order, and answers the greatest status of what is told.
///
/// # Errors
///
/// The output fails, a file can't be written, or memory was refused: it breaks off there.
pub(crate) fn do_paths<S: Shelf, R: Replacing, O: Sink, T: Listener>(
    alloc: Global,
    means: &Means<'_, S>,
    paths: Vec<PathEnd>,
    replacer: &mut R,
    output: &mut O,
    listener: &mut T,
) -> Result<u8, Trouble>
    ensures ok { IfOk result (λ status.
        Did (stand (O.told output.old) (T.heard listener.old) (R.tried replacer.old))
        (stand (O.told output.new) (T.heard listener.new) (R.tried replacer.new))
        (IsWorst status (ArePathsDone (setting_of S.told means.now) paths.items))) }
    ensures err { IfErr result (IsBrokenOff (O.told output.new) (R.tried replacer.old)
        (R.tried replacer.new)) }
    ensures begun { IfErr result (λ _. Did
        (stand (O.told output.old) (T.heard listener.old) (R.tried replacer.old))
        (stand (O.told output.new) (T.heard listener.new) (R.tried replacer.new))
        (ArePathsBegun (setting_of S.told means.now) paths.items)) }
{
    let mut so_far = SoFar::new(alloc);
    let mut worst = 0;
    for path in paths {
        let status = do_path(alloc, means, path, &mut so_far, replacer, output, listener)?;
        worst = greater(status, worst);
    }
    Ok(worst)
}

// Does what comes of a path, and tells last what runs that were killed left below it.
fn do_path<S: Shelf, R: Replacing, O: Sink, T: Listener>(
    alloc: Global,
    means: &Means<'_, S>,
    path: PathEnd,
    so_far: &mut SoFar,
    replacer: &mut R,
    output: &mut O,
    listener: &mut T,
) -> Result<u8, Trouble>
    ensures ok { IfOk result (λ status.
        Did (stand (O.told output.old) (T.heard listener.old) (R.tried replacer.old))
        (stand (O.told output.new) (T.heard listener.new) (R.tried replacer.new))
        (ComesOfPath so_far.old so_far.new status (λ before.
        IsPathDone (setting_of S.told means.now) before path))) }
    ensures left { OnOk result (so_far.new.left.items ≡ []) }
    ensures err { IfErr result (IsBrokenOff (O.told output.new) (R.tried replacer.old)
        (R.tried replacer.new)) }
    ensures begun { IfErr result (λ _. Did
        (stand (O.told output.old) (T.heard listener.old) (R.tried replacer.old))
        (stand (O.told output.new) (T.heard listener.new) (R.tried replacer.new))
        (BeganPath so_far.old (λ before.
        IsPathBegun (setting_of S.told means.now) before path))) }
{
    let PathEnd { ends } = path;
    let status = do_ends(alloc, means, ends, so_far, replacer, output, listener)?;
    let left = mem::replace(&mut so_far.left, Vec::new(alloc));
    tell_left(alloc, left, listener)?;
    Ok(status)
}

// Does what comes of each file.
fn do_ends<S: Shelf, R: Replacing, O: Sink, T: Listener>(
    alloc: Global,
    means: &Means<'_, S>,
    ends: Vec<FileEnd>,
    so_far: &mut SoFar,
    replacer: &mut R,
    output: &mut O,
    listener: &mut T,
) -> Result<u8, Trouble>
    ensures ok { IfOk result (λ status.
        Did (stand (O.told output.old) (T.heard listener.old) (R.tried replacer.old))
        (stand (O.told output.new) (T.heard listener.new) (R.tried replacer.new))
        (Comes so_far.old.replaced so_far.new.replaced status (λ before.
        AreEndsDone (setting_of S.told means.now) before ends.items))) }
    ensures left { OnOk result (so_far.new.left.items
        ≡ so_far.old.left.items ++ flat_map left_behind ends.items) }
    ensures err { IfErr result (IsBrokenOff (O.told output.new) (R.tried replacer.old)
        (R.tried replacer.new)) }
    ensures begun { IfErr result (λ _. Did
        (stand (O.told output.old) (T.heard listener.old) (R.tried replacer.old))
        (stand (O.told output.new) (T.heard listener.new) (R.tried replacer.new))
        (Began so_far.old.replaced (λ before.
        AreEndsBegun (setting_of S.told means.now) before ends.items))) }
{
    let mut worst = 0;
    for end in ends {
        let status = do_end(alloc, means, end, so_far, replacer, output, listener)?;
        worst = greater(status, worst);
    }
    Ok(worst)
}

/// The greater of two statuses.
pub(crate) fn greater(one: u8, other: u8) -> u8
    ensures { result ≡ max one other }
{
    one.max(other)
}
