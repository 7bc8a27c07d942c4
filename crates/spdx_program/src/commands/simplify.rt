// The command `simplify`.

ghost use Rattle.std.specs.Prelude.{◌≡◌};
ghost use Rattle.spdx_program.specs.Asked as spec;
ghost use Rattle.spdx_program.specs.Asked.{IsAskedOf};
ghost use Rattle.spdx_program.specs.Ends.{world};
ghost use Rattle.spdx_program.specs.Requests.{DoesSimplify};

use crate::ended::{Ended, alone};
use crate::readings::paths_or_input;
use check_program::Inside;
use line_engine::device::Sink;
use meaning_program::Request;
use shelves::Shelf;
use spdx_commands::Listener;
use spdx_troubles::Trouble;
use spdx_words::SimplifyRequest;
use std::alloc::Global;

/// Simplifies what the request names, as [`spdx_commands::simplify`] does.
#[tactic(auto, using(crate::proofs::Ending::simplify_done))]
pub(crate) fn simplify<S: Shelf, O: Sink, T: Listener>(
    alloc: Global,
    shelf: &S,
    inside: Inside<'_>,
    request: &SimplifyRequest<'_>,
    output: &mut O,
    teller: &mut T,
) -> Result<Ended, Trouble>
    ensures { DoesSimplify (world (S.told shelf.now) inside.entry) request.now
        (O.told output.old) (O.told output.new) (T.heard teller.old) (T.heard teller.new)
        result }
{
    let asked = asked(request);
    let list = inside.list;
    alone(spdx_commands::simplify(alloc, shelf, list, asked, output, teller))
}

fn asked<'r>(request: &'r SimplifyRequest<'r>) -> Request<'r>
    ensures { IsAskedOf request.now.paths.items (spec.simplify_of request.now) result }
{
    Request {
        list: request.list,
        is_lax: request.is_lax,
        paths: paths_or_input(&request.paths),
    }
}
