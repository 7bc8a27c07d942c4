// What is done of what comes of a file.

ghost use Rattle.std.specs.Prelude.{◌≡◌, ◌++◌, ◌∷◌, [], Err, IfErr, IfOk, Ok, OnErr, OnOk, false};
ghost use Rattle.check_files.specs.Told.{Hears, Tells};
ghost use Rattle.line_engine.specs.Device.{Told};
ghost use Rattle.spdx_commands.specs.Mend as spec;
ghost use Rattle.spdx_commands.specs.Mend.{
  Did,
  IsBrokenOff,
  IsDeedBegun,
  IsDeedDone,
  IsEndBegun,
  IsEndDone,
  IsPlaced,
  IsPlacedAgain,
  IsPlacedBy,
  IsPlacedIf,
  IsTried,
  IsTriedAgain,
  IsTriedBy,
  IsTriedIf,
  left_behind,
  stand,
};
ghost use Rattle.spdx_commands.specs.Replaced.{is_replaced};
ghost use Rattle.spdx_commands.specs.Steps.{
  Began,
  Comes,
  IsFresh,
  IsLeftOutTold,
  IsUnwritten,
  setting_of,
};
ghost use Rattle.spdx_troubles.specs.Causes as causes;
ghost use Rattle.spdx_troubles.specs.Status.{status_of};

use crate::listener::Listener;
use crate::mending::replacing::{Loss, Obstacle, Replacing};
use crate::nodes::Nodes;
use fix_program::{Deed, FileEnd, FileReplacement, FixTrouble, Fixed, Manner, file_fixed};
use line_engine::device::Sink;
use line_engine::lines::write_all;
use shelves::Shelf;
use spdx_catalogue::Catalogue;
use spdx_troubles::Trouble;
use std::alloc::{AllocError, Global};
use std::io::{self, ErrorKind};

/// What a run mends by.
#[derive(Drop)]
pub(crate) struct Means<'m, S> {
    pub(crate) shelf: &'m S,
    pub(crate) catalogue: &'m Catalogue,
    /// Whether a file that has other names is replaced too.
    pub(crate) breaks_links: bool,
}

/// What a run has come to.
#[derive(Drop)]
pub(crate) struct SoFar {
    /// The files that it has replaced.
    pub(crate) replaced: Nodes,
    /// Those that were left behind below the path that it is at.
    pub(crate) left: Vec<String>,
}

impl SoFar {
    /// Nothing is done yet.
    pub(crate) fn new(alloc: Global) -> SoFar
        ensures { IsFresh result }
    {
        SoFar {
            replaced: Nodes::new(alloc),
            left: Vec::new(alloc),
        }
    }
}

/// Does what comes of a file, and answers the greatest status of what is told. A file that was left behind is told later.
///
/// # Errors
///
/// The output fails, a file can't be written, or memory was refused.
pub(crate) fn do_end<S: Shelf, R: Replacing, O: Sink, T: Listener>(
    alloc: Global,
    means: &Means<'_, S>,
    end: FileEnd,
    so_far: &mut SoFar,
    replacer: &mut R,
    output: &mut O,
    listener: &mut T,
) -> Result<u8, Trouble>
    ensures ok { IfOk result (λ status.
        Did (stand (O.told output.old) (T.heard listener.old) (R.tried replacer.old))
        (stand (O.told output.new) (T.heard listener.new) (R.tried replacer.new))
        (Comes so_far.old.replaced so_far.new.replaced status (λ before.
        IsEndDone (setting_of S.told means.now) before end))) }
    ensures left { OnOk result (so_far.new.left.items
        ≡ so_far.old.left.items ++ left_behind end) }
    ensures err { IfErr result (IsBrokenOff (O.told output.new) (R.tried replacer.old)
        (R.tried replacer.new)) }
    ensures begun { IfErr result (λ _. Did
        (stand (O.told output.old) (T.heard listener.old) (R.tried replacer.old))
        (stand (O.told output.new) (T.heard listener.new) (R.tried replacer.new))
        (Began so_far.old.replaced (λ before.
        IsEndBegun (setting_of S.told means.now) before end))) }
{
    match end {
        FileEnd::Fixed(fixed) => {
            let Fixed { deed, .. } = fixed;
            let replaced = &mut so_far.replaced;
            do_deed(alloc, means, deed, replaced, replacer, output, listener)
        }
        FileEnd::LeftOut(trouble) => {
            let status = tell_left_out(alloc, trouble, listener)?;
            Ok(status)
        }
        FileEnd::LeftBehind(path) => {
            so_far.left.push(path)?;
            Ok(0)
        }
    }
}

fn do_deed<S: Shelf, R: Replacing, O: Sink, T: Listener>(
    alloc: Global,
    means: &Means<'_, S>,
    deed: Deed,
    replaced: &mut Nodes,
    replacer: &mut R,
    output: &mut O,
    listener: &mut T,
) -> Result<u8, Trouble>
    ensures ok { IfOk result (λ status.
        Did (stand (O.told output.old) (T.heard listener.old) (R.tried replacer.old))
        (stand (O.told output.new) (T.heard listener.new) (R.tried replacer.new))
        (Comes replaced.old replaced.new status (λ before.
        IsDeedDone (setting_of S.told means.now) before deed))) }
    ensures err { IfErr result (IsBrokenOff (O.told output.new) (R.tried replacer.old)
        (R.tried replacer.new)) }
    ensures begun { IfErr result (λ _. Did
        (stand (O.told output.old) (T.heard listener.old) (R.tried replacer.old))
        (stand (O.told output.new) (T.heard listener.new) (R.tried replacer.new))
        (Began replaced.old (λ before.
        IsDeedBegun (setting_of S.told means.now) before deed))) }
{
    match deed {
        Deed::Nothing => Ok(0),
        Deed::Put(text) => {
            write_all(output, &text)?;
            Ok(0)
        }
        Deed::Replace(new) => { do_replacement(alloc, means, new, replaced, replacer, listener) }
    }
}

// Places the mended bytes; where the run has replaced the file already, those of the file as it is now.
fn do_replacement<S: Shelf, R: Replacing, T: Listener>(
    alloc: Global,
    means: &Means<'_, S>,
    new: FileReplacement,
    replaced: &mut Nodes,
    replacer: &mut R,
    listener: &mut T,
) -> Result<u8, Trouble>
    ensures ok { IfOk result (λ status. (output : Told) →
        Did (stand output (T.heard listener.old) (R.tried replacer.old))
        (stand output (T.heard listener.new) (R.tried replacer.new))
        (Comes replaced.old replaced.new status (λ before.
        IsPlacedBy (is_replaced before new.stamp) (setting_of S.told means.now) new))) }
    ensures err { IfErr result (λ trouble. (output : Told) → IsBrokenOff output
        (R.tried replacer.old) (R.tried replacer.new) trouble) }
    ensures begun { IfErr result (λ _. (output : Told) → Did
        (stand output (T.heard listener.old) (R.tried replacer.old))
        (stand output (T.heard listener.new) (R.tried replacer.new))
        (Began replaced.old (λ before.
        IsTriedBy (is_replaced before new.stamp) (setting_of S.told means.now) new))) }
{
    if replaced.has(new.stamp) {
        place_again(alloc, means, new, replaced, replacer, listener)
    } else {
        place(alloc, new, means.breaks_links, replaced, replacer, listener)
    }
}

// Mends the file as it is now.
fn place_again<S: Shelf, R: Replacing, T: Listener>(
    alloc: Global,
    means: &Means<'_, S>,
    old: FileReplacement,
    replaced: &mut Nodes,
    replacer: &mut R,
    listener: &mut T,
) -> Result<u8, Trouble>
    ensures ok { IfOk result (λ status. (output : Told) →
        Did (stand output (T.heard listener.old) (R.tried replacer.old))
        (stand output (T.heard listener.new) (R.tried replacer.new))
        (Comes replaced.old replaced.new status (λ _.
        IsPlacedAgain (setting_of S.told means.now) old))) }
    ensures err { IfErr result (λ trouble. (output : Told) → IsBrokenOff output
        (R.tried replacer.old) (R.tried replacer.new) trouble) }
    ensures begun { IfErr result (λ _. (output : Told) → Did
        (stand output (T.heard listener.old) (R.tried replacer.old))
        (stand output (T.heard listener.new) (R.tried replacer.new))
        (IsTriedAgain (setting_of S.told means.now) old)) }
{
    let manner = Manner {
        catalogue: means.catalogue,
        is_written: true,
    };
    match file_fixed(alloc, means.shelf, manner, old.parts, old.path.as_str()) {
        Ok(fixed) => {
            let Fixed { deed, .. } = fixed;
            place_if(
                alloc,
                deed,
                means.breaks_links,
                replaced,
                replacer,
                listener,
            )
        }
        Err(trouble) => {
            let status = tell_left_out(alloc, trouble, listener)?;
            Ok(status)
        }
    }
}

fn place_if<R: Replacing, T: Listener>(
    alloc: Global,
    deed: Deed,
    breaks_links: bool,
    replaced: &mut Nodes,
    replacer: &mut R,
    listener: &mut T,
) -> Result<u8, Trouble>
    ensures ok { IfOk result (λ status. (output : Told) →
        Did (stand output (T.heard listener.old) (R.tried replacer.old))
        (stand output (T.heard listener.new) (R.tried replacer.new))
        (Comes replaced.old replaced.new status (λ _. IsPlacedIf breaks_links deed))) }
    ensures err { IfErr result (λ trouble. (output : Told) → IsBrokenOff output
        (R.tried replacer.old) (R.tried replacer.new) trouble) }
    ensures begun { IfErr result (λ _. (output : Told) → Did
        (stand output (T.heard listener.old) (R.tried replacer.old))
        (stand output (T.heard listener.new) (R.tried replacer.new))
        (IsTriedIf breaks_links deed)) }
{
    match deed {
        Deed::Replace(new) => place(alloc, new, breaks_links, replaced, replacer, listener),
        Deed::Nothing => Ok(0),
        Deed::Put(_) => Ok(0),
    }
}

// Puts the mended bytes in the place of the file's, and tells what comes of that.
fn place<R: Replacing, T: Listener>(
    alloc: Global,
    new: FileReplacement,
    breaks_links: bool,
    replaced: &mut Nodes,
    replacer: &mut R,
    listener: &mut T,
) -> Result<u8, Trouble>
    ensures ok { IfOk result (λ status. (output : Told) →
        Did (stand output (T.heard listener.old) (R.tried replacer.old))
        (stand output (T.heard listener.new) (R.tried replacer.new))
        (Comes replaced.old replaced.new status (λ _. IsPlaced breaks_links new))) }
    ensures err { IfErr result (λ trouble. (output : Told) → IsBrokenOff output
        (R.tried replacer.old) (R.tried replacer.new) trouble) }
    ensures begun { IfErr result (λ _. (output : Told) → Did
        (stand output (T.heard listener.old) (R.tried replacer.old))
        (stand output (T.heard listener.new) (R.tried replacer.new))
        (IsTried breaks_links new)) }
{
    let FileReplacement {
        path,
        stamp,
        bytes,
        ..
    } = new;
    match replacer.replace(alloc, path.as_str(), stamp, breaks_links, &bytes) {
        Ok(loss) => {
            replaced.add(stamp)?;
            tell_loss(alloc, path, loss, listener)?;
            Ok(0)
        }
        Err(obstacle) => tell_hindrance(alloc, path, obstacle, listener),
    }
}

#[tactic(auto, using(crate::proofs::Hearing::none_heard))]
fn tell_loss<T: Listener>(
    alloc: Global,
    path: String,
    loss: Loss,
    listener: &mut T,
) -> Result<(), AllocError>
    ensures ok { OnOk result (Hears (T.heard listener.old) (T.heard listener.new)
        (spec.told_of path (Ok loss))) }
    ensures memory { OnErr result (T.heard listener.new ≡ T.heard listener.old) }
{
    match loss {
        Loss::Nothing => Ok(()),
        Loss::SetId => listener.hear(alloc, Trouble::Lost(path)),
    }
}

// Tells why the file at the path stays as it is, if others are still mended after it.
fn tell_hindrance<T: Listener>(
    alloc: Global,
    path: String,
    obstacle: Obstacle,
    listener: &mut T,
) -> Result<u8, Trouble>
    ensures status { IfOk result (λ status. status ≡ status_of (spec.hindrance path obstacle)) }
    ensures told { OnOk result (Hears (T.heard listener.old) (T.heard listener.new)
        (spec.hindrance path obstacle ∷ [])) }
    ensures goes_on { OnOk result (spec.is_end (Err obstacle) ≡ false) }
    ensures err { IfErr result (IsUnwritten path obstacle) }
    ensures none { OnErr result (T.heard listener.new ≡ T.heard listener.old) }
{
    let trouble = hindrance(path, obstacle);
    if trouble.is_passed_over() {
        let status = tell(alloc, trouble, listener)?;
        Ok(status)
    } else {
        Err(trouble)
    }
}

fn hindrance(path: String, obstacle: Obstacle) -> Trouble
    ensures { result ≡ spec.hindrance path obstacle }
{
    match obstacle {
        Obstacle::Changed => Trouble::Changed(path),
        Obstacle::Linked => Trouble::Linked(path),
        Obstacle::Owner(error) => Trouble::Owner(path, error),
        Obstacle::Failed(error) if is_of_memory(&error) => Trouble::Memory,
        Obstacle::Failed(error) => Trouble::Unwritable(path, error),
    }
}

fn is_of_memory(error: &io::Error) -> bool
    ensures { result ≡ causes.is_of_memory error.now }
{
    matches!(error.kind(), ErrorKind::OutOfMemory)
}

// Tells why a file is left out, unless memory was refused.
fn tell_left_out<T: Listener>(
    alloc: Global,
    trouble: FixTrouble,
    listener: &mut T,
) -> Result<u8, AllocError>
    ensures ok { IfOk result (λ status. Tells (T.heard listener.old) (T.heard listener.new)
        (IsLeftOutTold trouble status)) }
    ensures memory { OnErr result (T.heard listener.new ≡ T.heard listener.old) }
{
    if trouble.is_of_memory() {
        return Err(AllocError);
    }
    tell(alloc, Trouble::from(trouble), listener)
}

// Tells the trouble, and answers its status.
fn tell<T: Listener>(alloc: Global, trouble: Trouble, listener: &mut T) -> Result<u8, AllocError>
    ensures status { IfOk result (λ status. status ≡ status_of trouble) }
    ensures told { OnOk result (Hears (T.heard listener.old) (T.heard listener.new)
        (trouble ∷ [])) }
    ensures memory { OnErr result (T.heard listener.new ≡ T.heard listener.old) }
{
    let status = trouble.status();
    listener.hear(alloc, trouble)?;
    Ok(status)
}
