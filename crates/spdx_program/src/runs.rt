// What is asked for, done and told.

ghost use Rattle.std.specs.Prelude.{◌≡◌, ◌<◌, false};
ghost use Rattle.check_files.specs.Told.{unkept};
ghost use Rattle.shelves.specs.Shelf.{silent};
ghost use Rattle.spdx_program.specs.Ends.{world};
ghost use Rattle.spdx_program.specs.Requests.{writes_files};
ghost use Rattle.spdx_program.specs.Served.{IsServed, outcome};

use crate::files::replace::Places;
use crate::files::system::System;
use crate::requests::perform;
use crate::teller::Teller;
use check_program::Inside;
use line_engine::device::Sink;
use shelves::{OpenShelf, OpenSystem};
use spdx_commands::Replacing;
use spdx_words::Request;
use std::alloc::Global;

/// Does what the request asks for, as [`perform`] does, tells its troubles line by line, then the totals or the trouble by
/// which it stops, and answers the program's status: 0 where nothing was refused, 1 where something was, 2 where the list or
/// a file can't be used, or a read breaks off, 3 where a write or memory failed. A file that can't be read keeps no other
/// from being read.
#[tactic(auto, using(crate::proofs::Told::served))]
pub fn serve<S: OpenShelf, R: Replacing, O: Sink, F: Sink + Drop>(
    alloc: Global,
    shelf: &S,
    inside: Inside<'_>,
    request: &Request<'_>,
    replacer: &mut R,
    output: &mut O,
    teller: &mut Teller<F>,
) -> u8
    ensures does { IsServed (world (S.Shelf.told shelf.now) inside.entry) teller.old.screen
        request.now
        (outcome (O.told output.old) (F.told teller.old.faults) (R.tried replacer.old))
        (outcome (O.told output.new) (F.told teller.new.faults) (R.tried replacer.new)) result }
    ensures low { result < 4 }
    ensures kept { writes_files request.now ≡ false →
        R.tried replacer.new ≡ R.tried replacer.old }
{
    let colours = teller.screen.colours;
    let end = perform(
        alloc, shelf, inside, request, colours, replacer, output, teller,
    );
    teller.end(alloc, end)
}

/// The same over the system, whose files, folders and input no clause knows.
pub fn run<R: System, O: Sink, F: Sink + Drop>(
    rt: &R,
    inside: Inside<'_>,
    request: &Request<'_>,
    output: &mut O,
    teller: &mut Teller<F>,
) -> u8
    ensures does { IsServed (world silent inside.entry) teller.old.screen request.now
        (outcome (O.told output.old) (F.told teller.old.faults) unkept)
        (outcome (O.told output.new) (F.told teller.new.faults) unkept) result }
    ensures low { result < 4 }
{
    let mut places = Places::new(rt);
    serve(
        rt.alloc(),
        &OpenSystem::new(rt),
        inside,
        request,
        &mut places,
        output,
        teller,
    )
}
