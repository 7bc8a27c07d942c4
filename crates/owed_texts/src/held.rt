// General texts of licences, as the files of a folder have them.

ghost use Rattle.std.specs.Prelude.{◌≡◌, ◌++◌, IfErr, IfOk, OnOk, bytes_eq, map, option_map, string_bytes};
ghost use Rattle.std.specs.List.{list_any};
ghost use Rattle.std.specs.Option.{option_copied, option_to_list};
ghost use Rattle.spdx_requirement.specs.Failures.{IfRefused};
ghost use Rattle.owed_texts.specs.Held as spec;
ghost use Rattle.owed_texts.specs.Held.{
  AreHeld,
  IsEmptyText,
  IsNoText,
  IsText,
  IsTextOf,
  each_first,
  has_name,
  held_of,
  lacked_by,
  name_in,
};

use crate::plain::plain_if;
use crate::trouble::{Obstacle, TextTrouble, is_not_found, trouble_at};
use crate::within::bytes_within;
use notice_told::Lack;
use shelves::Shelf;
use spdx_requirement::failure::Failure;
use std::alloc::{AllocError, Global};
use std::path::Path;

/// A licence's text, as its file has it.
#[derive(Drop)]
pub struct HeldText {
    pub name: String,
    pub bytes: Vec<u8>,
}

/// The texts of a folder, and why others aren't had.
#[derive(Drop)]
pub struct HeldTexts {
    pub texts: Vec<HeldText>,
    pub lacking: Vec<TextTrouble>,
}

/// Where general texts are looked for, and how.
#[derive(Clone, Copy)]
pub struct TextFolder<'a> {
    pub path: &'a str,
    /// Whether links are followed that lead out of it.
    pub follow: bool,
    /// Whether a text may be missing.
    pub may_lack: bool,
    /// Whether what a terminal would obey in the texts is written by its number.
    pub plain: bool,
}

/// What the files of the folder hold of the texts that packages lack, each once, in the order in which they are wanted first.
/// One that can't be read, leads out of the folder or is empty is told, and so is one that isn't there, unless it may be
/// missing; all of them are.
///
/// # Errors
///
/// Memory was refused.
pub fn texts_in<S: Shelf>(
    alloc: Global,
    shelf: &S,
    folder: TextFolder<'_>,
    lacks: &[Lack<'_>],
) -> Result<HeldTexts, AllocError>
    ensures { IfOk result (AreHeld (S.told shelf.now) folder.entry
        (each_first (map lacked_by lacks.now))) }
{
    let names = names_of(alloc, lacks)?;
    let held = read_all(alloc, shelf, folder, &names)?;
    Ok(held)
}

// The names of the texts, each once, in the order in which they are wanted first.
fn names_of<'t>(alloc: Global, lacks: &[Lack<'t>]) -> Result<Vec<&'t str>, AllocError>
    ensures { IfOk result (λ names.
        map name_in names.items ≡ each_first (map lacked_by lacks.now)) }
{
    let mut names: Vec<&'t str> = Vec::new(alloc);
    for lack in lacks {
        put(&mut names, lack.text)?;
    }
    Ok(names)
}

fn put<'t>(names: &mut Vec<&'t str>, name: &'t str) -> Result<(), AllocError>
    ensures { OnOk result (map name_in names.new.items
        ≡ spec.with_name (map name_in names.old.items) name.now) }
{
    if !is_among(names, name) {
        names.push(name)?;
    }
    Ok(())
}

fn is_among(names: &[&str], name: &str) -> bool
    ensures { result ≡ has_name (map name_in names.now) name.now }
{
    has(names, name)
}

fn has(names: &[&str], name: &str) -> bool
    ensures { result ≡ list_any (λ one. bytes_eq (name_in one) name.now) names.now }
{
    names.iter().any(|one| *one == name)
}

fn read_all<S: Shelf>(
    alloc: Global,
    shelf: &S,
    folder: TextFolder<'_>,
    names: &[&str],
) -> Result<HeldTexts, AllocError>
    ensures { IfOk result (AreHeld (S.told shelf.now) folder.entry (map name_in names.now)) }
{
    let mut held = HeldTexts {
        texts: Vec::new(alloc),
        lacking: Vec::new(alloc),
    };
    for name in names {
        add(alloc, shelf, folder, *name, &mut held)?;
    }
    Ok(held)
}

// One text more.
fn add<S: Shelf>(
    alloc: Global,
    shelf: &S,
    folder: TextFolder<'_>,
    name: &str,
    held: &mut HeldTexts,
) -> Result<(), AllocError>
    ensures { OnOk result (spec.IsOneMore (S.told shelf.now) folder.entry name.now
        held.old held.new) }
{
    match text(alloc, shelf, folder, name) {
        Ok(text) => {
            keep(&mut held.texts, text)?;
            Ok(())
        }
        Err(Failure::Refused(trouble)) => {
            held.lacking.push(trouble)?;
            Ok(())
        }
        Err(Failure::Memory(error)) => Err(error),
    }
}

fn keep(texts: &mut Vec<HeldText>, text: Option<HeldText>) -> Result<(), AllocError>
    ensures { OnOk result (map held_of texts.new.items
        ≡ map held_of texts.old.items ++ option_to_list (option_map held_of text)) }
{
    if let Some(text) = text {
        texts.push(text)?;
    }
    Ok(())
}

// What the text's file holds; nothing where there is none and it may be missing.
fn text<S: Shelf>(
    alloc: Global,
    shelf: &S,
    folder: TextFolder<'_>,
    name: &str,
) -> Result<Option<HeldText>, Failure<TextTrouble>>
    ensures ok { IfOk result (λ text. IsText (S.told shelf.now) folder.entry name.now
        (option_map held_of text)) }
    ensures err { IfErr result (IfRefused (IsNoText (S.told shelf.now) folder.entry name.now)) }
{
    let may_lack = folder.may_lack;
    let path = text_path(alloc, folder.path, name)?;
    match bytes_within(alloc, shelf, name, inside(folder), path.as_str()) {
        Ok(bytes) => {
            let text = text_of(alloc, folder.plain, name, path.as_str(), bytes)?;
            Ok(Some(text))
        }
        Err(Failure::Refused(trouble)) => {
            unless_missing(may_lack, trouble)?;
            Ok(None)
        }
        Err(Failure::Memory(error)) => Err(Failure::Memory(error)),
    }
}

fn text_path(alloc: Global, folder: &str, name: &str) -> Result<String, AllocError>
    ensures { IfOk result (λ path. string_bytes path ≡ spec.text_path folder.now name.now) }
{
    let file = format!(in alloc; "{name}.txt")?;
    let path = Path::new(folder).join(alloc, file.as_str())?;
    String::from_str(alloc, path.as_str())
}

// The folder that nothing is read out of, if there is one.
fn inside<'a>(folder: TextFolder<'a>) -> Option<&'a str>
    ensures { option_copied result ≡ spec.inside folder.entry }
{
    if folder.follow {
        None
    } else {
        Some(folder.path)
    }
}

// The text that these bytes are; where there are none, that is a trouble.
fn text_of(
    alloc: Global,
    plain: bool,
    name: &str,
    path: &str,
    bytes: Vec<u8>,
) -> Result<HeldText, Failure<TextTrouble>>
    ensures ok { IfOk result (λ text. IsTextOf plain name.now bytes.items (held_of text)) }
    ensures err { IfErr result (IfRefused (IsEmptyText name.now path.now bytes.items)) }
{
    if bytes.is_empty() {
        return Err(Failure::Refused(trouble_at(alloc, name, path, Obstacle::Empty)?));
    }
    Ok(HeldText {
        name: String::from_str(alloc, name)?,
        bytes: plain_if(alloc, plain, bytes)?,
    })
}

// Whether nothing is there and that may be; else the trouble is told.
fn unless_missing(may_lack: bool, trouble: TextTrouble) -> Result<(), Failure<TextTrouble>>
    ensures ok { IfOk result (λ _. spec.IsLet may_lack trouble) }
    ensures err { IfErr result (IfRefused (spec.IsNotLet may_lack trouble)) }
{
    if may_lack && is_missing(&trouble.why) {
        Ok(())
    } else {
        Err(Failure::Refused(trouble))
    }
}

fn is_missing(why: &Obstacle) -> bool
    ensures { result ≡ spec.is_missing why.now }
{
    match why {
        Obstacle::Unreadable(error) => is_not_found(error),
        Obstacle::Unnamed
        | Obstacle::Special
        | Obstacle::LeadsOut
        | Obstacle::NoPath
        | Obstacle::Empty
        | Obstacle::NoFolder => false,
    }
}
