// What a command says once it has read all.

ghost use Rattle.std.specs.Prelude.{IfErr, OnErr, OnOk};
ghost use Rattle.check_files.specs.Told.{Does, Hears};
ghost use Rattle.spdx_commands.specs.Said.{AreCutShort, AreSaid, HearsBeginning, IsCutShort, IsSaid};

use crate::listener::Listener;
use line_engine::device::Sink;
use line_engine::lines::write_all;
use spdx_troubles::Trouble;
use std::alloc::{AllocError, Global};

/// What a command writes, and what it tells before and behind that.
#[derive(Drop)]
pub struct Said {
    pub before: Vec<Trouble>,
    pub text: Vec<u8>,
    pub after: Vec<Trouble>,
}

/// Tells and writes each of these, one behind the other.
///
/// # Errors
///
/// The output fails, or memory was refused: a beginning was told and written until then.
pub(crate) fn say_each<O: Sink, T: Listener>(
    alloc: Global,
    all: Vec<Said>,
    output: &mut O,
    listener: &mut T,
) -> Result<(), Trouble>
    ensures ok { OnOk result (Does (O.told output.old) (O.told output.new) (T.heard listener.old)
        (T.heard listener.new) (AreSaid all.items)) }
    ensures err { IfErr result (AreCutShort all.items (O.told output.old) (O.told output.new)
        (T.heard listener.old) (T.heard listener.new)) }
{
    for said in all {
        say(alloc, said, output, listener)?;
    }
    Ok(())
}

/// Tells and writes it.
///
/// # Errors
///
/// The output fails, or memory was refused: a beginning was told and written until then.
pub fn say<O: Sink, T: Listener>(
    alloc: Global,
    said: Said,
    output: &mut O,
    listener: &mut T,
) -> Result<(), Trouble>
    ensures ok { OnOk result (Does (O.told output.old) (O.told output.new) (T.heard listener.old)
        (T.heard listener.new) (IsSaid said)) }
    ensures err { IfErr result (IsCutShort said (O.told output.old) (O.told output.new)
        (T.heard listener.old) (T.heard listener.new)) }
{
    let Said {
        before,
        text,
        after,
    } = said;
    tell_each(alloc, before, listener)?;
    write_all(output, &text)?;
    tell_each(alloc, after, listener)?;
    Ok(())
}

/// Tells each of these.
///
/// # Errors
///
/// Memory was refused: the first of them were told.
#[tactic(auto, using(crate::proofs::Hearing::none_heard))]
pub(crate) fn tell_each<T: Listener>(
    alloc: Global,
    troubles: Vec<Trouble>,
    listener: &mut T,
) -> Result<(), AllocError>
    ensures all { OnOk result (Hears (T.heard listener.old) (T.heard listener.new)
        troubles.items) }
    ensures begun { OnErr result (HearsBeginning (T.heard listener.old) (T.heard listener.new)
        troubles.items) }
{
    for trouble in troubles {
        listener.hear(alloc, trouble)?;
    }
    Ok(())
}
