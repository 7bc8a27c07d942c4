// The command `list diff`.

ghost use Rattle.std.specs.Prelude.{◌≡◌};
ghost use Rattle.spdx_program.specs.Ends.{world};
ghost use Rattle.spdx_program.specs.Requests.{DoesLists};

use crate::commands::list::passed;
use crate::ended::{Ended, alone};
use check_program::Inside;
use line_engine::device::Sink;
use list_told::Lists;
use shelves::Shelf;
use spdx_troubles::Trouble;
use spdx_words::DiffRequest;
use std::alloc::Global;

/// Tells by what the newer list differs from the older one, as [`spdx_commands::diff`] does.
#[tactic(auto, using(crate::proofs::Ending::lists_done))]
pub(crate) fn diff<S: Shelf, O: Sink>(
    alloc: Global,
    shelf: &S,
    inside: Inside<'_>,
    request: &DiffRequest<'_>,
    output: &mut O,
) -> Result<Ended, Trouble>
    ensures { DoesLists (world (S.told shelf.now) inside.entry) request.now
        (O.told output.old) (O.told output.new) result }
{
    let lists = Lists {
        old: request.old,
        new: request.new,
    };
    let Inside {
        list,
        replacements,
        ..
    } = inside;
    alone(passed(spdx_commands::diff(alloc, shelf, list, replacements, lists, output)))
}
