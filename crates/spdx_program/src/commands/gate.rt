// The command `gate`.

ghost use Rattle.std.specs.Prelude.{◌≡◌};
ghost use Rattle.spdx_program.specs.Asked as spec;
ghost use Rattle.spdx_program.specs.Asked.{IsAskedOf};
ghost use Rattle.spdx_program.specs.Ends.{IsGateEnd, world};
ghost use Rattle.spdx_program.specs.Requests.{DoesGate};

use crate::ended::{Ended, alone};
use crate::outputs::Nowhere;
use crate::packages::wanted;
use crate::readings::{paths_or_input, style_of};
use check_program::Inside;
use finding_forms::Style;
use gate_program::{Look, Request};
use gate_told::Format;
use line_engine::device::Sink;
use package_commands::GateTask;
use shelves::Shelf;
use spdx_commands::Listener;
use spdx_troubles::Trouble;
use spdx_words::{GateFormat, GateRequest};
use std::alloc::Global;

/// Judges the packages that the request names, as [`package_commands::gate`] does.
#[tactic(auto, using(crate::proofs::Ending::gate_quiet, crate::proofs::Ending::gate_told))]
pub(crate) fn gate<S: Shelf, O: Sink, T: Listener>(
    alloc: Global,
    shelf: &S,
    inside: Inside<'_>,
    request: &GateRequest<'_>,
    colours: bool,
    output: &mut O,
    teller: &mut T,
) -> Result<Ended, Trouble>
    ensures { DoesGate (world (S.told shelf.now) inside.entry) colours request.now
        (O.told output.old) (O.told output.new) (T.heard teller.old) (T.heard teller.new)
        result }
{
    let asked = asked(request, colours, inside.version);
    if request.quiet {
        gate_as(alloc, shelf, inside, asked, &mut Nowhere {}, teller)
    } else {
        gate_as(alloc, shelf, inside, asked, output, teller)
    }
}

#[tactic(auto, using(crate::proofs::Ending::gate_done))]
fn gate_as<S: Shelf, O: Sink, T: Listener>(
    alloc: Global,
    shelf: &S,
    inside: Inside<'_>,
    asked: GateTask<'_>,
    output: &mut O,
    teller: &mut T,
) -> Result<Ended, Trouble>
    ensures { IsGateEnd (world (S.told shelf.now) inside.entry) asked.entry (O.told output.old)
        (O.told output.new) (T.heard teller.old) (T.heard teller.new) result }
{
    let Inside {
        list,
        replacements,
        ..
    } = inside;
    alone(package_commands::gate(alloc, shelf, list, replacements, asked, output, teller))
}

// What is asked of the command, whose logs tell this version.
fn asked<'r>(request: &'r GateRequest<'r>, colours: bool, version: &'r str) -> GateTask<'r>
    ensures { IsAskedOf request.now.paths.items (spec.gate_of request.now colours version.entry)
        result }
{
    let style = style_of(colours);
    let run = Request {
        list: request.list,
        policy: request.policy,
        wanted: wanted(request.source, request.allow_empty, request.exclude_own),
        paths: paths_or_input(&request.paths),
        baseline: request.baseline,
        look: Look {
            format: format_of(request.format, style, version),
            style,
            explain: request.explain,
            tells_unused: request.tells_unused,
        },
    };
    GateTask {
        run,
        is_quiet: request.quiet,
    }
}

fn format_of<'v>(format: GateFormat, style: Style, version: &'v str) -> Format<'v>
    ensures { result ≡ spec.verdict_by format style version.entry }
{
    match format {
        GateFormat::Human => Format::Human(style),
        GateFormat::Short => Format::Short,
        GateFormat::Json => Format::Json,
        GateFormat::Github => Format::Github,
        GateFormat::Sarif => Format::Sarif { version },
        GateFormat::Html => Format::Html,
    }
}
