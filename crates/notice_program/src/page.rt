// How a run ends where each package has a choice.

ghost use Rattle.std.specs.Prelude.{◌≡◌, IfErr, IfOk, map, true};
ghost use Rattle.std.specs.List.{zip};
ghost use Rattle.spdx_requirement.specs.Failures.{IfRefused};
ghost use Rattle.owed_texts.specs.All.{reads_in};
ghost use Rattle.owed_texts.specs.Held.{each_first, held_of, lacked_by};
ghost use Rattle.notice_program.specs.Page as spec;
ghost use Rattle.notice_program.specs.Page.{
  AreGeneral,
  IsChosenEnd,
  IsFolderThere,
  IsHeldEnd,
  IsNoFolder,
  IsNotedEnd,
  IsPackagesEnd,
  IsPlacedEnd,
};
ghost use Rattle.notice_program.specs.Taken.{entry_of, taken, taken_by, used_in};
ghost use Rattle.notice_program.specs.Noted.{noted_in};
ghost use Rattle.notice_program.specs.Told.{has_own};

use crate::end::{End, Request};
use crate::noted::{all_general, all_noted, all_owns};
use crate::taken::{Entry, all_taken, all_used};
use crate::told::told;
use choice_program::Chosen;
use notice_told::{Lack, Look, NoticeFault, Package as Noted, all_lacks, notice_text};
use owed_texts::{
    AllOwn, HeldText, HeldTexts, Obstacle, OwnTexts, Placed, ReadFile, Reading, TextFolder,
    TextTrouble, all_own_files, texts_in, trouble_at, unreadable,
};
use shelves::Shelf;
use spdx_requirement::failure::Failure;
use std::alloc::{AllocError, Global};

/// How the run ends over packages with these choices.
pub(crate) fn chosen_end<S: Shelf>(
    alloc: Global,
    shelf: &S,
    request: Request<'_>,
    entries: &[Entry<'_>],
    chosen: &Chosen,
) -> Result<End, AllocError>
    ensures { IfOk result (IsChosenEnd (S.told shelf.now) request.entry
        (map taken (zip (map entry_of entries.now) (used_in chosen.now)))) }
{
    match check_folder(alloc, shelf, request.folders.own) {
        Ok(()) => there_end(alloc, shelf, request, entries, chosen),
        Err(Failure::Refused(trouble)) => Ok(End::NoFolder(trouble)),
        Err(Failure::Memory(error)) => Err(error),
    }
}

// Whether the folder below which all packages lie is there, where one is named.
fn check_folder<S: Shelf>(
    alloc: Global,
    shelf: &S,
    own: OwnTexts<'_>,
) -> Result<(), Failure<TextTrouble>>
    ensures ok { IfOk result (λ _. IsFolderThere (S.told shelf.now) own.entry) }
    ensures err { IfErr result (IfRefused (IsNoFolder (S.told shelf.now) own.entry)) }
{
    match own {
        OwnTexts::Below(all) => check_all(alloc, shelf, all),
        OwnTexts::Left | OwnTexts::Installed => Ok(()),
    }
}

fn check_all<S: Shelf>(alloc: Global, shelf: &S, all: &str) -> Result<(), Failure<TextTrouble>>
    ensures ok { IfOk result (λ _. (S.told shelf.now).IsFolder all.now true) }
    ensures err { IfErr result (IfRefused (spec.IsNoFolderAt (S.told shelf.now) all.now)) }
{
    match shelf.is_folder(all) {
        Ok(true) => Ok(()),
        Ok(false) => Err(Failure::Refused(trouble_at(alloc, all, all, Obstacle::NoFolder)?)),
        Err(error) => Err(unreadable(alloc, all, all, error)),
    }
}

fn there_end<S: Shelf>(
    alloc: Global,
    shelf: &S,
    request: Request<'_>,
    entries: &[Entry<'_>],
    chosen: &Chosen,
) -> Result<End, AllocError>
    ensures { IfOk result (IsPlacedEnd (S.told shelf.now) request.entry
        (map taken (zip (map entry_of entries.now) (used_in chosen.now)))) }
{
    let used = all_used(alloc, chosen)?;
    let placed = all_taken(alloc, entries, &used)?;
    placed_end(alloc, shelf, request, &placed)
}

// The same over packages whose own files are looked for.
fn placed_end<S: Shelf>(
    alloc: Global,
    shelf: &S,
    request: Request<'_>,
    placed: &[Placed<'_, '_>],
) -> Result<End, AllocError>
    ensures { IfOk result (IsPlacedEnd (S.told shelf.now) request.entry
        (map taken_by placed.now)) }
{
    let own = all_own_files(alloc, shelf, reading_of(request), placed)?;
    let AllOwn { files, lacking } = own;
    if is_none(&lacking) {
        read_end(alloc, shelf, request, placed, &files)
    } else {
        Ok(End::NoOwn(lacking))
    }
}

fn is_none(lacking: &[TextTrouble]) -> bool
    ensures { result ≡ spec.is_none lacking.now }
{
    match lacking {
        [] => true,
        [_, ..] => false,
    }
}

// How packages' own files are read.
fn reading_of<'a>(request: Request<'a>) -> Reading<'a>
    ensures { result ≡ spec.reading_of request.entry }
{
    Reading {
        folders: request.folders,
        source: request.wanted.source,
        plain: request.plain,
    }
}

// The same over packages with their own files.
fn read_end<S: Shelf>(
    alloc: Global,
    shelf: &S,
    request: Request<'_>,
    placed: &[Placed<'_, '_>],
    read: &[Vec<ReadFile>],
) -> Result<End, AllocError>
    ensures { IfOk result (IsNotedEnd (S.told shelf.now) request.entry
        (noted_in (map taken_by placed.now) (reads_in read.now))) }
{
    let owns = all_owns(alloc, read)?;
    let noted = all_noted(alloc, placed, &owns)?;
    noted_end(alloc, shelf, request, &noted)
}

fn noted_end<S: Shelf>(
    alloc: Global,
    shelf: &S,
    request: Request<'_>,
    noted: &[Noted<'_, '_>],
) -> Result<End, AllocError>
    ensures { IfOk result (IsPackagesEnd (S.told shelf.now) request.entry noted.now) }
{
    let lacks = all_lacks(alloc, noted)?;
    let held = held_texts(alloc, shelf, request, &lacks)?;
    let HeldTexts { texts, lacking } = held;
    if is_none(&lacking) {
        held_end(alloc, request, noted, &texts)
    } else {
        Ok(End::NoGeneral(lacking))
    }
}

// The general texts of what the packages lack, where they have a folder.
fn held_texts<S: Shelf>(
    alloc: Global,
    shelf: &S,
    request: Request<'_>,
    lacks: &[Lack<'_>],
) -> Result<HeldTexts, AllocError>
    ensures { IfOk result (AreGeneral (S.told shelf.now) request.entry
        (each_first (map lacked_by lacks.now))) }
{
    match request.folders.texts {
        Some(path) => {
            let folder = TextFolder {
                path,
                follow: request.folders.follow,
                may_lack: has_own(request.folders.own),
                plain: request.plain,
            };
            texts_in(alloc, shelf, folder, lacks)
        }
        None => Ok(HeldTexts {
            texts: Vec::new(alloc),
            lacking: Vec::new(alloc),
        }),
    }
}

/// Whether packages have texts of their own.
pub(crate) fn has_own(own: OwnTexts<'_>) -> bool
    ensures { result ≡ has_own own.entry }
{
    match own {
        OwnTexts::Left => false,
        OwnTexts::Below(_) | OwnTexts::Installed => true,
    }
}

// The same over packages and the general texts that are had.
fn held_end(
    alloc: Global,
    request: Request<'_>,
    noted: &[Noted<'_, '_>],
    held: &[HeldText],
) -> Result<End, AllocError>
    ensures { IfOk result (IsHeldEnd request.entry noted.now (map held_of held.now)) }
{
    let general = all_general(alloc, held)?;
    match notice_text(alloc, look_of(request), noted, &general) {
        Ok(text) => Ok(End::Told(told(alloc, request, text)?)),
        Err(NoticeFault::NotUtf8(name)) => Ok(End::NotUtf8(name)),
        Err(NoticeFault::Memory) => Err(AllocError),
    }
}

// How the page is written.
fn look_of(request: Request<'_>) -> Look
    ensures { result ≡ spec.look_of request.entry }
{
    Look {
        format: request.format,
        marks_general: has_own(request.folders.own),
    }
}
