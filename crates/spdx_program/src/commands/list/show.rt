// The command `list show`.

ghost use Rattle.std.specs.Prelude.{◌≡◌};
ghost use Rattle.spdx_program.specs.Asked.{IsShowAsked};
ghost use Rattle.spdx_program.specs.Ends.{world};
ghost use Rattle.spdx_program.specs.Requests.{DoesShow};

use crate::ended::{Ended, alone};
use check_program::Inside;
use line_engine::device::Sink;
use list_told::NameQuery;
use shelves::Shelf;
use spdx_commands::Listener;
use spdx_troubles::Trouble;
use spdx_words::ShowRequest;
use std::alloc::Global;

/// Shows what the list says of the names, as [`spdx_commands::show`] does.
#[tactic(auto, using(crate::proofs::Ending::show_done))]
pub(crate) fn show<S: Shelf, O: Sink, T: Listener>(
    alloc: Global,
    shelf: &S,
    inside: Inside<'_>,
    request: &ShowRequest<'_>,
    output: &mut O,
    teller: &mut T,
) -> Result<Ended, Trouble>
    ensures { DoesShow (world (S.told shelf.now) inside.entry) request.now
        (O.told output.old) (O.told output.new) (T.heard teller.old) (T.heard teller.new)
        result }
{
    let asked = asked(request);
    let Inside {
        list,
        replacements,
        ..
    } = inside;
    alone(spdx_commands::show(alloc, shelf, list, replacements, asked, output, teller))
}

fn asked<'r>(request: &'r ShowRequest<'r>) -> NameQuery<'r>
    ensures { IsShowAsked request.now result }
{
    NameQuery {
        list: request.list,
        names: request.names.as_slice(),
    }
}
