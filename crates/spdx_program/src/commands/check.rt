// The command `check`.

ghost use Rattle.std.specs.Prelude.{◌≡◌};
ghost use Rattle.spdx_program.specs.Asked as spec;
ghost use Rattle.spdx_program.specs.Asked.{IsAskedOf};
ghost use Rattle.spdx_program.specs.Ends.{IsCheckEnd, stopped, world};
ghost use Rattle.spdx_program.specs.Requests.{DoesCheck};

use crate::ended::{Ended, alone};
use crate::outputs::Nowhere;
use crate::readings::{self, mode_of, paths_or_input, style_of};
use check_files::Telling;
use check_program::{CheckEnd, Inside, Request};
use finding_forms::{Format, Style};
use line_engine::device::Sink;
use shelves::OpenShelf;
use spdx_troubles::Trouble;
use spdx_words::{CheckRequest, FindingFormat};
use std::alloc::Global;

/// Checks what the request names, as [`check_program::check`] does.
#[tactic(auto, using(crate::proofs::Ending::check_quiet, crate::proofs::Ending::check_told))]
pub(crate) fn check<S: OpenShelf, O: Sink, T: Telling>(
    alloc: Global,
    shelf: &S,
    inside: Inside<'_>,
    request: &CheckRequest<'_>,
    colours: bool,
    output: &mut O,
    teller: &mut T,
) -> Result<Ended, Trouble>
    ensures { DoesCheck (world (S.Shelf.told shelf.now) inside.entry) colours request.now
        (O.told output.old) (O.told output.new) (T.told teller.old) (T.told teller.new) result }
{
    let asked = asked(request, colours);
    if request.quiet {
        check_as(alloc, shelf, inside, asked, &mut Nowhere {}, teller)
    } else {
        check_as(alloc, shelf, inside, asked, output, teller)
    }
}

#[tactic(auto, using(crate::proofs::Ending::check_done))]
fn check_as<S: OpenShelf, O: Sink, T: Telling>(
    alloc: Global,
    shelf: &S,
    inside: Inside<'_>,
    asked: Request<'_>,
    output: &mut O,
    teller: &mut T,
) -> Result<Ended, Trouble>
    ensures { IsCheckEnd (world (S.Shelf.told shelf.now) inside.entry) asked.entry
        (O.told output.old) (O.told output.new) (T.told teller.old) (T.told teller.new) result }
{
    let end = check_program::check(alloc, shelf, inside, asked, output, teller);
    alone(or_trouble(end))
}

fn asked<'r>(request: &'r CheckRequest<'r>, colours: bool) -> Request<'r>
    ensures { IsAskedOf request.now.paths.items (spec.check_of request.now colours) result }
{
    Request {
        list: request.list,
        mode: mode_of(request.is_lax),
        format: format_of(request.format, style_of(colours)),
        wanted: readings::asked(request.wanted),
        texts: request.texts,
        untagged: request.untagged,
        summary: request.summary,
        paths: paths_or_input(&request.paths),
    }
}

fn format_of(format: FindingFormat, style: Style) -> Format
    ensures { result ≡ spec.finding_by format style }
{
    match format {
        FindingFormat::Human => Format::Human(style),
        FindingFormat::Short => Format::Short,
        FindingFormat::Json => Format::Json,
        FindingFormat::Github => Format::Github,
        FindingFormat::Sarif => Format::Sarif,
    }
}

fn or_trouble(end: Result<u8, CheckEnd>) -> Result<u8, Trouble>
    ensures { result ≡ stopped end }
{
    match end {
        Ok(status) => Ok(status),
        Err(end) => Err(Trouble::from(end)),
    }
}
