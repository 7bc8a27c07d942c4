// Words to requests.

ghost use Rattle.std.specs.Prelude.{◌≡◌, List, ◌∷◌, codes, map};
ghost use Rattle.clap.specs.Walk.{Text};
ghost use Rattle.spdx_words.specs.Lines.{IsAnswer};
ghost use Rattle.spdx_words.specs.Options.{text_of};

pub(crate) mod expression;
pub(crate) mod list;
pub(crate) mod packages;

use crate::command::{list_alone, with_all};
use crate::entered::refusal;
use crate::request::Request;
use crate::words::expression::{read_check, read_compare, read_fix, read_simplify};
use crate::words::list::read_list;
use crate::words::packages::{read_diff, read_gate, read_notice};
use clap::Error;
use std::alloc::Global;

/// What the words ask for; the first is the program's name. `version` is what `--version` tells. Of the commands that one
/// alone is made which is entered: to make all of them takes longer than to check a line.
///
/// # Errors
///
/// The words are not understood, or ask for help or the version, or memory was refused. The error prints what is to be
/// told, and has the status.
pub fn read<'w>(alloc: Global, version: &'w str, words: &'w [String]) -> Result<Request<'w>, Error>
    ensures { IsAnswer (map text_of words.entry.now) result }
{
    match words.get(1) {
        Some(word) => read_command(alloc, version, words, word.as_str()),
        None => Err(refusal(alloc, with_all(alloc, version)?, words)),
    }
}

fn read_command<'w>(
    alloc: Global,
    version: &'w str,
    words: &'w [String],
    word: &str,
) -> Result<Request<'w>, Error>
    ensures { (program : Text) → (behind : List Text) →
        map text_of words.entry.now ≡ program ∷ word.now ∷ behind →
        IsAnswer (map text_of words.entry.now) result }
{
    if word == "check" {
        read_check(alloc, version, words)
    } else if word == "fix" {
        read_fix(alloc, version, words)
    } else if word == "gate" {
        read_gate(alloc, version, words)
    } else if word == "notice" {
        read_notice(alloc, version, words)
    } else if word == "diff" {
        read_diff(alloc, version, words)
    } else if word == "compare" {
        read_compare(alloc, version, words)
    } else if word == "simplify" {
        read_simplify(alloc, version, words)
    } else if word == "list" {
        read_list_behind(alloc, words)
    } else {
        Err(refusal(alloc, with_all(alloc, version)?, words))
    }
}

// What the words ask for, where the command is `list`.
fn read_list_behind<'w>(alloc: Global, words: &'w [String]) -> Result<Request<'w>, Error>
    ensures { (program : Text) → (behind : List Text) →
        map text_of words.entry.now ≡ program ∷ codes "list" ∷ behind →
        IsAnswer (map text_of words.entry.now) result }
{
    match words.split_first() {
        Some((_, behind)) => read_list(alloc, behind),
        None => Err(refusal(alloc, list_alone(alloc)?, words)),
    }
}
