// What is asked for, done.

ghost use Rattle.std.specs.Prelude.{◌≡◌, ◌<◌, IfOk, false};
ghost use Rattle.spdx_program.specs.Ends.{world};
ghost use Rattle.spdx_program.specs.Requests.{IsPerformed, side, writes_files};

use crate::commands::changes::changes;
use crate::commands::check::check;
use crate::commands::compare::compare;
use crate::commands::fix::fix;
use crate::commands::gate::gate;
use crate::commands::list::diff::diff;
use crate::commands::list::make::make;
use crate::commands::list::show::show;
use crate::commands::notice::notice;
use crate::commands::simplify::simplify;
use crate::ended::Ended;
use check_files::Telling;
use check_program::Inside;
use line_engine::device::Sink;
use shelves::OpenShelf;
use spdx_commands::{Follower, Replacing};
use spdx_troubles::Trouble;
use spdx_words::Request;
use std::alloc::Global;

/// Does what the request asks for: what is told goes to `output`, in colours where these are wanted and the form has some;
/// troubles go to `teller`, and bytes that are to take the places of files to `replacer`. The status is 0 where nothing was
/// refused, 1 where something was, 2 where a file can't be used or a read breaks off, 3 where it can't be told why. Unless
/// files are to be written, none is replaced, whatever comes of it.
///
/// # Errors
///
/// The trouble by which the command stops: a list or policy isn't had, a write fails, or memory was refused.
pub fn perform<S: OpenShelf, R: Replacing, O: Sink, T: Telling + Follower>(
    alloc: Global,
    shelf: &S,
    inside: Inside<'_>,
    request: &Request<'_>,
    colours: bool,
    replacer: &mut R,
    output: &mut O,
    teller: &mut T,
) -> Result<Ended, Trouble>
    ensures does { IsPerformed (world (S.Shelf.told shelf.now) inside.entry) colours request.now
        (side (O.told output.old) (T.told teller.old) (T.heard teller.old) (R.tried replacer.old))
        (side (O.told output.new) (T.told teller.new) (T.heard teller.new) (R.tried replacer.new))
        result }
    ensures low { IfOk result (λ ended. ended.status < 4) }
    ensures kept { writes_files request.now ≡ false →
        R.tried replacer.new ≡ R.tried replacer.old }
{
    match request {
        Request::Check(r) => check(alloc, shelf, inside, r, colours, output, teller),
        Request::Fix(r) => fix(alloc, shelf, inside, r, replacer, output, teller),
        Request::Gate(r) => gate(alloc, shelf, inside, r, colours, output, teller),
        Request::Notice(r) => notice(alloc, shelf, inside, r, output, teller),
        Request::Compare(r) => compare(alloc, shelf, inside, r, output),
        Request::Simplify(r) => simplify(alloc, shelf, inside, r, output, teller),
        Request::Show(r) => show(alloc, shelf, inside, r, output, teller),
        Request::Make(r) => make(alloc, shelf, r, output),
        Request::Diff(r) => diff(alloc, shelf, inside, r, output),
        Request::Changes(r) => changes(alloc, shelf, inside, r, output, teller),
    }
}
