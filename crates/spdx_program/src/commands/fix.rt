// The command `fix`.

ghost use Rattle.std.specs.Prelude.{◌≡◌, false};
ghost use Rattle.spdx_commands.specs.Mend.{stand};
ghost use Rattle.spdx_program.specs.Asked as spec;
ghost use Rattle.spdx_program.specs.Asked.{IsAskedOf};
ghost use Rattle.spdx_program.specs.Ends.{world};
ghost use Rattle.spdx_program.specs.Requests.{DoesFix, IsFixed};

use crate::ended::{Ended, alone};
use crate::readings::{self, paths_or_input};
use check_program::Inside;
use fix_program::Request;
use line_engine::device::Sink;
use shelves::{Shelf, Stamp};
use spdx_commands::{Follower, Loss, Obstacle, Replacing};
use spdx_troubles::Trouble;
use spdx_words::FixRequest;
use std::alloc::Global;
use std::io::{self, ErrorKind};

/// Mends what the request names, as [`spdx_commands::fix`] does. Where files aren't to be written, the replacer isn't even at hand.
pub(crate) fn fix<S: Shelf, R: Replacing, O: Sink, T: Follower>(
    alloc: Global,
    shelf: &S,
    inside: Inside<'_>,
    request: &FixRequest<'_>,
    replacer: &mut R,
    output: &mut O,
    teller: &mut T,
) -> Result<Ended, Trouble>
    ensures does { DoesFix (world (S.told shelf.now) inside.entry) request.now
        (stand (O.told output.old) (T.heard teller.old) (R.tried replacer.old))
        (stand (O.told output.new) (T.heard teller.new) (R.tried replacer.new)) result }
    ensures kept { request.now.write ≡ false → R.tried replacer.new ≡ R.tried replacer.old }
{
    if request.write {
        fix_as(alloc, shelf, inside, request, replacer, output, teller)
    } else {
        fix_as(
            alloc,
            shelf,
            inside,
            request,
            &mut Nobody {},
            output,
            teller,
        )
    }
}

#[tactic(auto, using(crate::proofs::Ending::fix_done))]
fn fix_as<S: Shelf, R: Replacing, O: Sink, T: Follower>(
    alloc: Global,
    shelf: &S,
    inside: Inside<'_>,
    request: &FixRequest<'_>,
    replacer: &mut R,
    output: &mut O,
    teller: &mut T,
) -> Result<Ended, Trouble>
    ensures { IsFixed (world (S.told shelf.now) inside.entry) request.now
        (stand (O.told output.old) (T.heard teller.old) (R.tried replacer.old))
        (stand (O.told output.new) (T.heard teller.new) (R.tried replacer.new)) result }
{
    let asked = asked(request);
    let list = inside.list;
    let end = spdx_commands::fix(alloc, shelf, list, asked, replacer, output, teller);
    alone(end)
}

fn asked<'r>(request: &'r FixRequest<'r>) -> Request<'r>
    ensures { IsAskedOf request.now.paths.items (spec.fix_of request.now) result }
{
    Request {
        list: request.list,
        wanted: readings::asked(request.wanted),
        is_written: request.write,
        breaks_links: request.break_links,
        paths: paths_or_input(&request.paths),
    }
}

// Puts nothing in the place of any file.
#[derive(Drop)]
struct Nobody {}

impl Replacing for Nobody {
    ghost use Rattle.std.specs.Prelude.{[]};
    ghost use Rattle.check_files.specs.Told.{each};

    ghost tried = { λ _. each [] };

    // Memory is refused, of which nothing is kept.
    fn replace(
        &mut self,
        _alloc: Global,
        _path: &str,
        _read: Stamp,
        _breaks_links: bool,
        _bytes: &[u8],
    ) -> Result<Loss, Obstacle> {
        Err(Obstacle::Failed(io::Error::from(ErrorKind::OutOfMemory)))
    }
}
