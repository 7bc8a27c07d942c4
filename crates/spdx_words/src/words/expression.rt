// Words to requests, a command at a time.

ghost use Rattle.std.specs.Prelude.{◌≡◌, List, ◌∷◌, codes, map};
ghost use Rattle.clap.specs.Walk.{Text};
ghost use Rattle.spdx_words.specs.Lines.{IsAnswer};
ghost use Rattle.spdx_words.specs.Options.{text_of};

use crate::command::{check, compare, fix, simplify, with};
use crate::entered::entered;
use crate::request::Request;
use crate::requests::{check_request, compare_request, fix_request, simplify_request};
use crate::unfit::{Unfit, check_unfit, fix_unfit};
use clap::Error;
use std::alloc::Global;

/// What the words ask for, where the command is `check`.
pub(crate) fn read_check<'w>(
    alloc: Global,
    version: &'w str,
    words: &'w [String],
) -> Result<Request<'w>, Error>
    ensures { (program : Text) → (behind : List Text) →
        map text_of words.entry.now ≡ program ∷ codes "check" ∷ behind →
        IsAnswer (map text_of words.entry.now) result }
{
    let matches = entered(alloc, with(alloc, version, check(alloc)?)?, words)?;
    match check_unfit(&matches) {
        Some(unfit) => Err(unfit.error(check(alloc), "spdx check")),
        None => Ok(Request::Check(check_request(alloc, &matches)?)),
    }
}

/// What the words ask for, where the command is `fix`.
pub(crate) fn read_fix<'w>(
    alloc: Global,
    version: &'w str,
    words: &'w [String],
) -> Result<Request<'w>, Error>
    ensures { (program : Text) → (behind : List Text) →
        map text_of words.entry.now ≡ program ∷ codes "fix" ∷ behind →
        IsAnswer (map text_of words.entry.now) result }
{
    let matches = entered(alloc, with(alloc, version, fix(alloc)?)?, words)?;
    match fix_unfit(&matches) {
        Some(unfit) => Err(unfit.error(fix(alloc), "spdx fix")),
        None => Ok(Request::Fix(fix_request(alloc, &matches)?)),
    }
}

/// What the words ask for, where the command is `compare`.
pub(crate) fn read_compare<'w>(
    alloc: Global,
    version: &'w str,
    words: &'w [String],
) -> Result<Request<'w>, Error>
    ensures { (program : Text) → (behind : List Text) →
        map text_of words.entry.now ≡ program ∷ codes "compare" ∷ behind →
        IsAnswer (map text_of words.entry.now) result }
{
    let matches = entered(alloc, with(alloc, version, compare(alloc)?)?, words)?;
    match compare_request(&matches) {
        Some(request) => Ok(Request::Compare(request)),
        None => Err(Unfit::Missing("an expression is missing").error(
            compare(alloc),
            "spdx compare",
        )),
    }
}

/// What the words ask for, where the command is `simplify`.
pub(crate) fn read_simplify<'w>(
    alloc: Global,
    version: &'w str,
    words: &'w [String],
) -> Result<Request<'w>, Error>
    ensures { (program : Text) → (behind : List Text) →
        map text_of words.entry.now ≡ program ∷ codes "simplify" ∷ behind →
        IsAnswer (map text_of words.entry.now) result }
{
    let matches = entered(alloc, with(alloc, version, simplify(alloc)?)?, words)?;
    Ok(Request::Simplify(simplify_request(alloc, &matches)?))
}
