// The command `diff`: what changed between two lists of packages.

ghost use Rattle.std.specs.Prelude.{◌≡◌};
ghost use Rattle.spdx_program.specs.Asked as spec;
ghost use Rattle.spdx_program.specs.Ends as ends;
ghost use Rattle.spdx_program.specs.Ends.{world};
ghost use Rattle.spdx_program.specs.Requests.{DoesChanges};

use crate::ended::Ended;
use crate::packages::wanted;
use changes_program::Request;
use check_program::Inside;
use line_engine::device::Sink;
use package_changes::Format;
use package_commands::{DiffEnd, DiffTask};
use shelves::Shelf;
use spdx_commands::Listener;
use spdx_troubles::Trouble;
use spdx_words::{ChangesFormat, ChangesRequest};
use std::alloc::Global;

/// Tells what changed between the files that the request names, as [`package_commands::diff`] does.
#[tactic(auto, using(crate::proofs::Ending::changes_done))]
pub(crate) fn changes<S: Shelf, O: Sink, T: Listener>(
    alloc: Global,
    shelf: &S,
    inside: Inside<'_>,
    request: &ChangesRequest<'_>,
    output: &mut O,
    teller: &mut T,
) -> Result<Ended, Trouble>
    ensures { DoesChanges (world (S.told shelf.now) inside.entry) request.now
        (O.told output.old) (O.told output.new) (T.heard teller.old) (T.heard teller.new)
        result }
{
    let asked = asked(request);
    let Inside {
        list,
        replacements,
        ..
    } = inside;
    ended(package_commands::diff(alloc, shelf, list, replacements, asked, output, teller))
}

fn asked<'r>(request: &'r ChangesRequest<'r>) -> DiffTask<'r>
    ensures { result ≡ spec.changes_of request.now }
{
    let run = Request {
        list: request.list,
        policy: request.policy,
        wanted: wanted(request.source, request.allow_empty, request.exclude_own),
        old: request.old,
        new: request.new,
        format: format_of(request.format),
    };
    DiffTask {
        run,
        tells_totals: request.tells_totals,
    }
}

fn format_of(format: ChangesFormat) -> Format
    ensures { result ≡ spec.difference_by format }
{
    match format {
        ChangesFormat::Text => Format::Text,
        ChangesFormat::Json => Format::Json,
        ChangesFormat::Markdown => Format::Markdown,
    }
}

fn ended(end: Result<DiffEnd, Trouble>) -> Result<Ended, Trouble>
    ensures { result ≡ ends.changed_end end }
{
    match end {
        Ok(changed) => {
            let DiffEnd { status, totals } = changed;
            Ok(Ended { status, totals })
        }
        Err(trouble) => Err(trouble),
    }
}
