// The end of a folder.

ghost use Rattle.std.specs.Prelude.{◌≡◌, IfErr, IfOk, OnErr, OnOk, Some, is_some, map, string_bytes};
ghost use Rattle.std.specs.Option.{option_copied};
ghost use Rattle.check_files.specs.Noted.{notes_of};
ghost use Rattle.check_files.specs.Tally.{is_clean, tally_of, with_bare, with_texts};
ghost use Rattle.check_files.specs.Begun.{IsBeginning};
ghost use Rattle.check_files.specs.Told.{Does, Hears, IsBrokenOff, Tells, Writes};
ghost use Rattle.check_files.specs.declared.trouble.CheckFault.TheVariants.{Memory};
ghost use Rattle.source_trees.specs.Readings.{is_all};
ghost use Rattle.check_sources.specs.Owed.{bare_at, owed_by, whole_of, wholes_text};
ghost use Rattle.check_program.specs.TreeBegun.{
  AreFirst,
  AreFirstPassed,
  IsBareBegun,
  IsEndBegun,
  IsOwedBegun,
  IsTextsStepBegun,
  IsWholesText,
};
ghost use Rattle.check_program.specs.Ends as spec;
ghost use Rattle.check_program.specs.Ends.{AreOwed, AreWholes, IsBareStep, IsEnd, IsTextsStep, left_trouble};
ghost use Rattle.check_program.specs.Steps.{PassesAll};

use crate::texts::{Texts, texts_in};
use check_files::{Below, CheckFault, CheckTrouble, Noted, Telling, pass_over};
use check_sources::{Sums, Whole, owed_by, put_wholes, without_license};
use line_engine::device::Sink;
use line_engine::lines::write_all;
use shelves::Shelf;
use spdx_check::Check;
use std::alloc::{AllocError, Global};

/// Tells what runs that were killed left, and, where all that tells a license is taken, which license texts are missing or not
/// needed and which files have no license.
///
/// # Errors
///
/// What is found can't be written, or memory was refused.
pub(crate) fn end_folder<S: Shelf, O: Sink, T: Telling>(
    alloc: Global,
    shelf: &S,
    check: &Check<'_>,
    is_told: bool,
    below: Below<'_>,
    noted: Noted,
    sums: &mut Sums,
    output: &mut O,
    teller: &mut T,
) -> Result<(), CheckFault>
    ensures ok { OnOk result (Does (O.told output.old) (O.told output.new) (T.told teller.old)
        (T.told teller.new) (λ text told. IsEnd (is_all below.entry.taken) (S.told shelf.now)
        check.now is_told (option_copied below.entry.folder) (notes_of noted)
        (tally_of sums.old) text told (tally_of sums.new))) }
    ensures err { IfErr result (IsBrokenOff (O.told output.new)) }
    ensures begun { OnErr result (Does (O.told output.old) (O.told output.new)
        (T.told teller.old) (T.told teller.new) (λ text told. IsEndBegun
        (is_all below.entry.taken) (S.told shelf.now) check.now is_told
        (option_copied below.entry.folder) (notes_of noted) (tally_of sums.old) text told)) }
{
    let Noted {
        used,
        untagged,
        left_behind,
    } = noted;
    tell_left(alloc, left_behind, teller)?;
    if !below.taken.is_all() {
        return Ok(());
    }
    let folder = below.folder;
    tell_texts(alloc, shelf, check, folder, &used, sums, output, teller)?;
    tell_bare(
        alloc,
        check,
        is_told,
        is_there(folder),
        &untagged,
        sums,
        output,
    )
}

fn is_there(folder: Option<&str>) -> bool
    ensures { result ≡ is_some (option_copied folder.entry) }
{
    match folder {
        Some(_) => true,
        None => false,
    }
}

// Tells what runs that were killed left. None of it is removed, since another run may be at work on it.
#[tactic(auto, using(crate::proofs::Seeing::none_left, crate::proofs::Seeing::one_more_left))]
fn tell_left<T: Telling>(
    alloc: Global,
    left_behind: Vec<String>,
    teller: &mut T,
) -> Result<(), AllocError>
    ensures all { OnOk result (Hears (T.told teller.old) (T.told teller.new)
        (map left_trouble left_behind.items)) }
    ensures begun { OnErr result (Tells (T.told teller.old) (T.told teller.new)
        (AreFirst (map left_trouble left_behind.items))) }
{
    for path in left_behind {
        teller.tell(alloc, CheckTrouble::LeftBehind(path))?;
    }
    Ok(())
}

// Tells which texts are missing and which nobody needs, where there is a folder of them.
fn tell_texts<S: Shelf, O: Sink, T: Telling>(
    alloc: Global,
    shelf: &S,
    check: &Check<'_>,
    folder: Option<&str>,
    used: &[String],
    sums: &mut Sums,
    output: &mut O,
    teller: &mut T,
) -> Result<(), CheckFault>
    ensures ok { OnOk result (Does (O.told output.old) (O.told output.new) (T.told teller.old)
        (T.told teller.new) (λ text told. IsTextsStep (S.told shelf.now) check.now
        (option_copied folder.entry) (map string_bytes used.now) (tally_of sums.old) text told
        (tally_of sums.new))) }
    ensures err { IfErr result (IsBrokenOff (O.told output.new)) }
    ensures begun { OnErr result (Does (O.told output.old) (O.told output.new)
        (T.told teller.old) (T.told teller.new) (λ text told. IsTextsStepBegun
        (S.told shelf.now) check.now (option_copied folder.entry) (map string_bytes used.now)
        (tally_of sums.old) text told)) }
{
    match folder {
        Some(folder) => tell_owed(alloc, shelf, check, folder, used, sums, output, teller),
        None => Ok(()),
    }
}

fn tell_owed<S: Shelf, O: Sink, T: Telling>(
    alloc: Global,
    shelf: &S,
    check: &Check<'_>,
    folder: &str,
    used: &[String],
    sums: &mut Sums,
    output: &mut O,
    teller: &mut T,
) -> Result<(), CheckFault>
    ensures ok { OnOk result (Does (O.told output.old) (O.told output.new) (T.told teller.old)
        (T.told teller.new) (λ text told. spec.OwesTexts (S.told shelf.now) check.now folder.now
        (map string_bytes used.now) (tally_of sums.old) text told (tally_of sums.new))) }
    ensures err { IfErr result (IsBrokenOff (O.told output.new)) }
    ensures begun { OnErr result (Does (O.told output.old) (O.told output.new)
        (T.told teller.old) (T.told teller.new) (λ text told. IsTextsStepBegun
        (S.told shelf.now) check.now (Some folder.now) (map string_bytes used.now)
        (tally_of sums.old) text told)) }
{
    let texts = texts_in(alloc, shelf, folder)?;
    put_or_pass(alloc, check, folder, used, texts, sums, output, teller)
}

// Tells what is owed of these texts, or why not all of them can be had.
fn put_or_pass<O: Sink, T: Telling>(
    alloc: Global,
    check: &Check<'_>,
    folder: &str,
    used: &[String],
    texts: Texts,
    sums: &mut Sums,
    output: &mut O,
    teller: &mut T,
) -> Result<(), CheckFault>
    ensures ok { OnOk result (Does (O.told output.old) (O.told output.new) (T.told teller.old)
        (T.told teller.new) (λ text told. AreOwed check.now folder.now
        (map string_bytes used.now) (map string_bytes texts.files.items) texts.troubles.items
        (tally_of sums.old) text told (tally_of sums.new))) }
    ensures err { IfErr result (IsBrokenOff (O.told output.new)) }
    ensures begun { OnErr result (Does (O.told output.old) (O.told output.new)
        (T.told teller.old) (T.told teller.new) (λ text told. IsOwedBegun check.now folder.now
        (map string_bytes used.now) (map string_bytes texts.files.items) texts.troubles.items
        (tally_of sums.old) text told)) }
{
    let Texts { files, troubles } = texts;
    if are_none(&troubles) {
        put_owed(alloc, check, folder, used, &files, sums, output)
    } else {
        pass_all(alloc, troubles, sums, teller)
    }
}

fn are_none(troubles: &[CheckTrouble]) -> bool
    ensures { result ≡ spec.are_none troubles.now }
{
    match troubles {
        [] => true,
        [_, ..] => false,
    }
}

// Tells each of these, and that what they are of is passed over.
fn pass_all<T: Telling>(
    alloc: Global,
    troubles: Vec<CheckTrouble>,
    sums: &mut Sums,
    teller: &mut T,
) -> Result<(), CheckFault>
    ensures ok { OnOk result (PassesAll troubles.items (T.told teller.old) (T.told teller.new)
        (tally_of sums.old) (tally_of sums.new)) }
    ensures err { IfErr result (λ fault. fault ≡ Memory) }
    ensures begun { OnErr result (Tells (T.told teller.old) (T.told teller.new)
        (AreFirstPassed troubles.items)) }
{
    for trouble in troubles {
        pass_over(alloc, trouble, sums, teller)?;
    }
    Ok(())
}

// Writes and counts which texts are missing, and which nobody needs.
fn put_owed<O: Sink>(
    alloc: Global,
    check: &Check<'_>,
    folder: &str,
    used: &[String],
    files: &[String],
    sums: &mut Sums,
    output: &mut O,
) -> Result<(), CheckFault>
    ensures ok { OnOk result (Writes (O.told output.old) (O.told output.new) (λ text.
        AreWholes check.now (owed_by folder.now (map string_bytes used.now)
        (map string_bytes files.now)) with_texts (tally_of sums.old) text
        (tally_of sums.new))) }
    ensures err { IfErr result (IsBrokenOff (O.told output.new)) }
    ensures begun { OnErr result (Writes (O.told output.old) (O.told output.new) (IsBeginning
        (IsWholesText check.now (owed_by folder.now (map string_bytes used.now)
        (map string_bytes files.now)) (tally_of sums.old)))) }
{
    let wholes = owed_by(alloc, folder, used, files)?;
    let text = text_of_wholes(alloc, check, sums, &wholes)?;
    sums.texts = sums.texts.saturating_add(wholes.len() as u64);
    write_all(output, &text)?;
    Ok(())
}

fn text_of_wholes(
    alloc: Global,
    check: &Check<'_>,
    sums: &Sums,
    wholes: &[Whole],
) -> Result<Vec<u8>, AllocError>
    ensures { IfOk result (λ text. text.items ≡ wholes_text check.now.format
        (is_clean (tally_of sums.now)) (map whole_of wholes.now)) }
{
    let mut text = Vec::new(alloc);
    put_wholes(alloc, &mut text, check.format, sums.is_clean(), wholes)?;
    Ok(text)
}

// Tells the files without a license, or else counts them where there are license texts.
fn tell_bare<O: Sink>(
    alloc: Global,
    check: &Check<'_>,
    is_told: bool,
    has_texts: bool,
    untagged: &[String],
    sums: &mut Sums,
    output: &mut O,
) -> Result<(), CheckFault>
    ensures ok { OnOk result (Writes (O.told output.old) (O.told output.new) (λ text.
        IsBareStep is_told check.now has_texts (map string_bytes untagged.now)
        (tally_of sums.old) text (tally_of sums.new))) }
    ensures err { IfErr result (IsBrokenOff (O.told output.new)) }
    ensures begun { OnErr result (Writes (O.told output.old) (O.told output.new)
        (IsBareBegun is_told check.now (map string_bytes untagged.now) (tally_of sums.old))) }
{
    if is_told {
        return put_bare(alloc, check, untagged, sums, output);
    }
    if has_texts {
        sums.untagged = sums.untagged.saturating_add(untagged.len() as u64);
    }
    Ok(())
}

// Writes and counts the files without a license.
fn put_bare<O: Sink>(
    alloc: Global,
    check: &Check<'_>,
    untagged: &[String],
    sums: &mut Sums,
    output: &mut O,
) -> Result<(), CheckFault>
    ensures ok { OnOk result (Writes (O.told output.old) (O.told output.new) (λ text.
        AreWholes check.now (map bare_at (map string_bytes untagged.now)) with_bare
        (tally_of sums.old) text (tally_of sums.new))) }
    ensures err { IfErr result (IsBrokenOff (O.told output.new)) }
    ensures begun { OnErr result (Writes (O.told output.old) (O.told output.new) (IsBeginning
        (IsWholesText check.now (map bare_at (map string_bytes untagged.now))
        (tally_of sums.old)))) }
{
    let wholes = without_license(alloc, untagged)?;
    let text = text_of_wholes(alloc, check, sums, &wholes)?;
    sums.bare = sums.bare.saturating_add(wholes.len() as u64);
    write_all(output, &text)?;
    Ok(())
}
