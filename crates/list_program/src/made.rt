// The command `list make`: the list that SPDX's files make, written.

ghost use Rattle.std.specs.Prelude.{◌≡◌, true, ℕ, List, Some, IfErr, IfOk, OnOk, string_bytes};
ghost use Rattle.std.specs.Option.{option_copied};
ghost use Rattle.spdx_list.specs.Shown.{shown_extras};
ghost use Rattle.list_program.specs.Written.{
  AreExtrasAt,
  IsMadeText,
  IsNoText,
  IsUnwritten,
  MadePaths,
  WritesList,
  made_of,
};
ghost use Rattle.list_program.specs.declared.trouble.ListTrouble.TheVariants.{Output};

use crate::named::bytes_of;
use crate::trouble::ListTrouble;
use line_engine::device::Sink;
use line_engine::lines::write_all;
use shelves::Shelf;
use spdx_list::{Extras, list_text};
use spdx_requirement::failure::Failure;
use std::alloc::Global;

/// The paths of the files that a list is made of.
#[derive(Clone, Copy)]
pub struct MadeOf<'p> {
    pub licenses: &'p str,
    pub exceptions: &'p str,
    pub extras: Option<&'p str>,
}

/// Writes the list that the files make, with a newline behind it: it reads back as that list. Nothing is written before all
/// is read.
///
/// # Errors
///
/// A file can't be read, the files make no list, or memory was refused: nothing was written. Or the output fails, which may
/// have taken a beginning of it.
#[tactic(auto, using(crate::proofs::Causes::unwritten))]
pub fn put_made_list<S: Shelf, O: Sink>(
    alloc: Global,
    shelf: &S,
    paths: MadeOf<'_>,
    output: &mut O,
) -> Result<(), ListTrouble>
    ensures ok { OnOk result (WritesList (S.told shelf.now)
        (made_of paths.entry.licenses.now paths.entry.exceptions.now
        (option_copied paths.entry.extras))
        (O.told output.old).bytes (O.told output.new).bytes) }
    ensures err { IfErr result (IsUnwritten (S.told shelf.now)
        (made_of paths.entry.licenses.now paths.entry.exceptions.now
        (option_copied paths.entry.extras))
        (O.told output.old).bytes (O.told output.new).bytes) }
    ensures failed { IfErr result (λ t. t ≡ Output → (O.told output.new).has_failed ≡ true) }
{
    let mut text = made_text(alloc, shelf, paths)?;
    text.push('\n')?;
    match write_all(output, text.as_bytes()) {
        Ok(()) => Ok(()),
        Err(_) => Err(ListTrouble::Output),
    }
}

// The text of the list that the files make.
#[tactic(auto, using(crate::proofs::Causes::licenses_unread, crate::proofs::Causes::exceptions_unread))]
fn made_text<S: Shelf>(alloc: Global, shelf: &S, paths: MadeOf<'_>) -> Result<String, ListTrouble>
    ensures ok { IfOk result (λ text. IsMadeText (S.told shelf.now)
        (made_of paths.entry.licenses.now paths.entry.exceptions.now
        (option_copied paths.entry.extras)) (string_bytes text)) }
    ensures err { IfErr result (IsNoText (S.told shelf.now)
        (made_of paths.entry.licenses.now paths.entry.exceptions.now
        (option_copied paths.entry.extras))) }
{
    let licenses = bytes_of(alloc, shelf, paths.licenses)?;
    let exceptions = bytes_of(alloc, shelf, paths.exceptions)?;
    text_of(alloc, shelf, paths, &licenses, &exceptions)
}

// The text of the list that these bytes of the files make.
fn text_of<S: Shelf>(
    alloc: Global,
    shelf: &S,
    paths: MadeOf<'_>,
    licenses: &[u8],
    exceptions: &[u8],
) -> Result<String, ListTrouble>
    ensures ok { (S.told shelf.now).Holds paths.entry.licenses.now licenses.now →
        (S.told shelf.now).Holds paths.entry.exceptions.now exceptions.now →
        IfOk result (λ text. IsMadeText (S.told shelf.now)
        (made_of paths.entry.licenses.now paths.entry.exceptions.now
        (option_copied paths.entry.extras)) (string_bytes text)) }
    ensures err { (S.told shelf.now).Holds paths.entry.licenses.now licenses.now →
        (S.told shelf.now).Holds paths.entry.exceptions.now exceptions.now →
        IfErr result (IsNoText (S.told shelf.now)
        (made_of paths.entry.licenses.now paths.entry.exceptions.now
        (option_copied paths.entry.extras))) }
{
    let extras = extras_at(alloc, shelf, paths)?;
    match list_text(alloc, licenses, exceptions, &extras) {
        Ok(text) => Ok(text),
        Err(Failure::Refused(fault)) => {
            let path = String::from_str(alloc, paths.licenses)?;
            Err(ListTrouble::NotMade(path, fault))
        }
        Err(Failure::Memory(_)) => Err(ListTrouble::Memory),
    }
}

// The extras that the file at the path holds, if one is given.
#[tactic(auto, using(crate::proofs::Causes::extras_unread, crate::proofs::Causes::told_of_extras))]
fn extras_at<S: Shelf>(alloc: Global, shelf: &S, paths: MadeOf<'_>) -> Result<Extras, ListTrouble>
    ensures ok { IfOk result (λ x. AreExtrasAt (S.told shelf.now)
        (option_copied paths.entry.extras) (shown_extras x)) }
    ensures err { IfErr result (IsNoText (S.told shelf.now)
        (made_of paths.entry.licenses.now paths.entry.exceptions.now
        (option_copied paths.entry.extras))) }
{
    let Some(path) = paths.extras else {
        return Ok(Extras::new(alloc));
    };
    let bytes = bytes_of(alloc, shelf, path)?;
    match Extras::from_json(alloc, &bytes) {
        Ok(extras) => Ok(extras),
        Err(Failure::Refused(fault)) => {
            Err(ListTrouble::NotMade(String::from_str(alloc, path)?, fault))
        }
        Err(Failure::Memory(_)) => Err(ListTrouble::Memory),
    }
}
