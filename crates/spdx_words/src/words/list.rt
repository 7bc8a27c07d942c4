// Words to requests of the commands of `list`.

ghost use Rattle.std.specs.Prelude.{◌≡◌, List, ◌∷◌, codes, map};
ghost use Rattle.clap.specs.Walk.{Text};
ghost use Rattle.spdx_words.specs.Lines.{IsAnswer};
ghost use Rattle.spdx_words.specs.Options.{text_of};

use crate::command::{differ, list_alone, make};
use crate::entered::{entered, refusal};
use crate::request::Request;
use crate::requests::{diff_request, make_request, show_request};
use crate::unfit::Unfit;
use clap::Error;
use std::alloc::Global;

/// What the words behind `spdx` ask for, where the first of them is `list`.
pub(crate) fn read_list<'w>(alloc: Global, words: &'w [String]) -> Result<Request<'w>, Error>
    ensures { (program : Text) → (behind : List Text) →
        map text_of words.entry.now ≡ codes "list" ∷ behind →
        IsAnswer (program ∷ map text_of words.entry.now) result }
{
    match words.get(1) {
        Some(word) => read_command(alloc, words, word.as_str()),
        None => Err(refusal(alloc, list_alone(alloc)?, words)),
    }
}

fn read_command<'w>(alloc: Global, words: &'w [String], word: &str) -> Result<Request<'w>, Error>
    ensures { (program : Text) → (behind : List Text) →
        map text_of words.entry.now ≡ codes "list" ∷ word.now ∷ behind →
        IsAnswer (program ∷ map text_of words.entry.now) result }
{
    if word == "show" {
        read_show(alloc, words)
    } else if word == "make" {
        read_make(alloc, words)
    } else if word == "diff" {
        read_differ(alloc, words)
    } else {
        Err(refusal(alloc, list_alone(alloc)?, words))
    }
}

fn read_show<'w>(alloc: Global, words: &'w [String]) -> Result<Request<'w>, Error>
    ensures { (program : Text) → (behind : List Text) →
        map text_of words.entry.now ≡ codes "list" ∷ codes "show" ∷ behind →
        IsAnswer (program ∷ map text_of words.entry.now) result }
{
    let matches = entered(alloc, list_alone(alloc)?, words)?;
    Ok(Request::Show(show_request(alloc, &matches)?))
}

fn read_make<'w>(alloc: Global, words: &'w [String]) -> Result<Request<'w>, Error>
    ensures { (program : Text) → (behind : List Text) →
        map text_of words.entry.now ≡ codes "list" ∷ codes "make" ∷ behind →
        IsAnswer (program ∷ map text_of words.entry.now) result }
{
    let matches = entered(alloc, list_alone(alloc)?, words)?;
    match make_request(&matches) {
        Some(request) => Ok(Request::Make(request)),
        None => Err(Unfit::Missing("a file is missing").error(make(alloc), "spdx list make")),
    }
}

fn read_differ<'w>(alloc: Global, words: &'w [String]) -> Result<Request<'w>, Error>
    ensures { (program : Text) → (behind : List Text) →
        map text_of words.entry.now ≡ codes "list" ∷ codes "diff" ∷ behind →
        IsAnswer (program ∷ map text_of words.entry.now) result }
{
    let matches = entered(alloc, list_alone(alloc)?, words)?;
    match diff_request(&matches) {
        Some(request) => Ok(Request::Diff(request)),
        None => Err(Unfit::Missing("a file is missing").error(differ(alloc), "spdx list diff")),
    }
}
