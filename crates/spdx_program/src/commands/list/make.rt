// The command `list make`.

ghost use Rattle.std.specs.Prelude.{◌≡◌};
ghost use Rattle.spdx_program.specs.Requests.{DoesMake};

use crate::commands::list::passed;
use crate::ended::{Ended, alone};
use line_engine::device::Sink;
use list_program::MadeOf;
use shelves::Shelf;
use spdx_troubles::Trouble;
use spdx_words::MakeRequest;
use std::alloc::Global;

/// Writes the list of SPDX's two files, as [`spdx_commands::make`] does.
#[tactic(auto, using(crate::proofs::Ending::make_done))]
pub(crate) fn make<S: Shelf, O: Sink>(
    alloc: Global,
    shelf: &S,
    request: &MakeRequest<'_>,
    output: &mut O,
) -> Result<Ended, Trouble>
    ensures { DoesMake (S.told shelf.now) request.now (O.told output.old)
        (O.told output.new) result }
{
    let paths = MadeOf {
        licenses: request.licenses,
        exceptions: request.exceptions,
        extras: request.extras,
    };
    alone(passed(spdx_commands::make(alloc, shelf, paths, output)))
}
