// Words to requests of the commands over packages, a command at a time.

ghost use Rattle.std.specs.Prelude.{◌≡◌, List, ◌∷◌, codes, map};
ghost use Rattle.clap.specs.Walk.{Text};
ghost use Rattle.spdx_words.specs.Lines.{IsAnswer};
ghost use Rattle.spdx_words.specs.Options.{text_of};

use crate::command::with;
use crate::entered::entered;
use crate::packages::command::{diff, gate, notice};
use crate::packages::requests::{accepted, changes_request, files, gate_request, notice_request};
use crate::request::Request;
use crate::unfit::{Unfit, judged_unfit, notice_unfit, source_unfit};
use crate::values::value;
use clap::Error;
use std::alloc::Global;

/// What the words ask for, where the command is `gate`.
pub(crate) fn read_gate<'w>(
    alloc: Global,
    version: &'w str,
    words: &'w [String],
) -> Result<Request<'w>, Error>
    ensures { (program : Text) → (behind : List Text) →
        map text_of words.entry.now ≡ program ∷ codes "gate" ∷ behind →
        IsAnswer (map text_of words.entry.now) result }
{
    let matches = entered(alloc, with(alloc, version, gate(alloc)?)?, words)?;
    match judged_unfit(&matches) {
        Some(unfit) => Err(unfit.error(gate(alloc), "spdx gate")),
        None => match value(&matches, "policy") {
            Some(policy) => Ok(Request::Gate(gate_request(alloc, &matches, policy)?)),
            None => Err(Unfit::Missing("a policy is missing").error(gate(alloc), "spdx gate")),
        },
    }
}

/// What the words ask for, where the command is `notice`.
pub(crate) fn read_notice<'w>(
    alloc: Global,
    version: &'w str,
    words: &'w [String],
) -> Result<Request<'w>, Error>
    ensures { (program : Text) → (behind : List Text) →
        map text_of words.entry.now ≡ program ∷ codes "notice" ∷ behind →
        IsAnswer (map text_of words.entry.now) result }
{
    let matches = entered(alloc, with(alloc, version, notice(alloc)?)?, words)?;
    match notice_unfit(&matches) {
        Some(unfit) => Err(unfit.error(notice(alloc), "spdx notice")),
        None => match accepted(&matches) {
            Some(accepted) => Ok(Request::Notice(notice_request(alloc, &matches, accepted)?)),
            None => Err(Unfit::Missing("what is accepted is missing").error(
                notice(alloc),
                "spdx notice",
            )),
        },
    }
}

/// What the words ask for, where the command is `diff`.
pub(crate) fn read_diff<'w>(
    alloc: Global,
    version: &'w str,
    words: &'w [String],
) -> Result<Request<'w>, Error>
    ensures { (program : Text) → (behind : List Text) →
        map text_of words.entry.now ≡ program ∷ codes "diff" ∷ behind →
        IsAnswer (map text_of words.entry.now) result }
{
    let matches = entered(alloc, with(alloc, version, diff(alloc)?)?, words)?;
    match source_unfit(&matches) {
        Some(unfit) => Err(unfit.error(diff(alloc), "spdx diff")),
        None => match files(&matches) {
            Some((old, new)) => Ok(Request::Changes(changes_request(&matches, old, new))),
            None => Err(Unfit::Missing("a file is missing").error(diff(alloc), "spdx diff")),
        },
    }
}
