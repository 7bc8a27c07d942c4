// The command `compare`.

ghost use Rattle.std.specs.Prelude.{◌≡◌};
ghost use Rattle.spdx_program.specs.Ends.{world};
ghost use Rattle.spdx_program.specs.Requests.{DoesCompare};

use crate::ended::{Ended, alone};
use check_program::Inside;
use line_engine::device::Sink;
use meaning_program::TextPair;
use shelves::Shelf;
use spdx_troubles::Trouble;
use spdx_words::CompareRequest;
use std::alloc::Global;

/// Compares what the request names, as [`spdx_commands::compare`] does.
#[tactic(auto, using(crate::proofs::Ending::compare_done))]
pub(crate) fn compare<S: Shelf, O: Sink>(
    alloc: Global,
    shelf: &S,
    inside: Inside<'_>,
    request: &CompareRequest<'_>,
    output: &mut O,
) -> Result<Ended, Trouble>
    ensures { DoesCompare (world (S.told shelf.now) inside.entry) request.now
        (O.told output.old) (O.told output.new) result }
{
    let asked = TextPair {
        list: request.list,
        is_lax: request.is_lax,
        one: request.one,
        other: request.other,
    };
    alone(spdx_commands::compare(alloc, shelf, inside.list, asked, output))
}
