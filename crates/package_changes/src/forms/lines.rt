// A change as a line.

ghost use Rattle.std.specs.Prelude.{◌≡◌, ◌++◌, OnOk, flat_map};
ghost use Rattle.package_changes.specs.Lines.{behind, both_versions, versions_text, license_text, licenses_text, enough_text, enough_texts, reason_text, reason_texts, refused_text, notes_text, line_of};

use crate::forms::texts::put_shown;
use crate::tellings::{Reason, Release, Telling};
use std::alloc::{AllocError, Global};

/// Appends a line for each change.
pub(crate) fn put_lines(
    alloc: Global,
    page: &mut Vec<u8>,
    tellings: &[Telling<'_>],
) -> Result<(), AllocError>
    ensures { OnOk result (page.new.items ≡ page.old.items ++ flat_map line_of tellings.now) }
{
    for telling in tellings {
        put_line(alloc, page, telling)?;
    }
    Ok(())
}

#[tactic(auto, unfolding(crate::specs::Lines::line_of))]
fn put_line(alloc: Global, page: &mut Vec<u8>, telling: &Telling<'_>) -> Result<(), AllocError>
    ensures { OnOk result (page.new.items ≡ page.old.items ++ line_of telling.now) }
{
    page.extend_from_slice(telling.how.words().as_bytes())?;
    page.extend_from_slice(b": ")?;
    put_shown(alloc, page, telling.name)?;
    put_versions(alloc, page, &telling.old, &telling.new)?;
    page.extend_from_slice(b": ")?;
    put_licenses(alloc, page, &telling.old, &telling.new)?;
    put_notes(alloc, page, telling)?;
    page.extend_from_slice(b"\n")?;
    Ok(())
}

#[tactic(auto, unfolding(crate::specs::Lines::versions_text))]
fn put_versions(
    alloc: Global,
    page: &mut Vec<u8>,
    old: &Option<Release<'_>>,
    new: &Option<Release<'_>>,
) -> Result<(), AllocError>
    ensures { OnOk result (page.new.items
        ≡ page.old.items ++ versions_text «old».now «new».now) }
{
    match (old, new) {
        (None, None) => Ok(()),
        (Some(old), None) => put_behind(alloc, page, " ", old.version),
        (None, Some(new)) => put_behind(alloc, page, " ", new.version),
        (Some(old), Some(new)) => put_both_versions(alloc, page, old.version, new.version),
    }
}

fn put_both_versions(
    alloc: Global,
    page: &mut Vec<u8>,
    old: &str,
    new: &str,
) -> Result<(), AllocError>
    ensures { OnOk result (page.new.items ≡ page.old.items ++
        both_versions «old».now «new».now) }
{
    put_behind(alloc, page, " ", old)?;
    if old == new {
        return Ok(());
    }
    put_behind(alloc, page, " to ", new)
}

// Words of ours and a text of others, where there is one.
fn put_behind(alloc: Global, page: &mut Vec<u8>, words: &str, text: &str) -> Result<(), AllocError>
    ensures { OnOk result (page.new.items ≡ page.old.items ++ behind words.now text.now) }
{
    if text.is_empty() {
        return Ok(());
    }
    page.extend_from_slice(words.as_bytes())?;
    put_shown(alloc, page, text)
}

#[tactic(auto, unfolding(crate::specs::Lines::licenses_text))]
fn put_licenses(
    alloc: Global,
    page: &mut Vec<u8>,
    old: &Option<Release<'_>>,
    new: &Option<Release<'_>>,
) -> Result<(), AllocError>
    ensures { OnOk result (page.new.items
        ≡ page.old.items ++ licenses_text «old».now «new».now) }
{
    match (old, new) {
        (None, None) => Ok(()),
        (Some(old), None) => put_license(alloc, page, old.license),
        (None, Some(new)) => put_license(alloc, page, new.license),
        (Some(old), Some(new)) => {
            put_license(alloc, page, old.license)?;
            page.extend_from_slice(b" to ")?;
            put_license(alloc, page, new.license)
        }
    }
}

fn put_license(alloc: Global, page: &mut Vec<u8>, license: &str) -> Result<(), AllocError>
    ensures { OnOk result (page.new.items ≡ page.old.items ++ license_text license.now) }
{
    if license.is_empty() {
        return page.extend_from_slice(b"no license");
    }
    put_shown(alloc, page, license)
}

#[tactic(auto, unfolding(crate::specs::Lines::notes_text))]
fn put_notes(alloc: Global, page: &mut Vec<u8>, telling: &Telling<'_>) -> Result<(), AllocError>
    ensures { OnOk result (page.new.items ≡ page.old.items ++ notes_text telling.now) }
{
    put_enough_notes(alloc, page, telling)?;
    put_reasons(page, telling)?;
    put_refused(page, telling.is_refused)
}

#[tactic(auto, unfolding(crate::specs::Lines::enough_texts))]
fn put_enough_notes(
    alloc: Global,
    page: &mut Vec<u8>,
    telling: &Telling<'_>,
) -> Result<(), AllocError>
    ensures { OnOk result (page.new.items ≡ page.old.items ++ enough_texts telling.now) }
{
    put_enough(alloc, page, telling.enough_before, " was enough")?;
    put_enough(alloc, page, telling.enough_now, " is enough now")?;
    Ok(())
}

#[tactic(auto, unfolding(crate::specs::Lines::reason_texts))]
fn put_reasons(page: &mut Vec<u8>, telling: &Telling<'_>) -> Result<(), AllocError>
    ensures { OnOk result (page.new.items ≡ page.old.items ++ reason_texts telling.now) }
{
    put_reason(page, telling.untold_before, " before")?;
    put_reason(page, telling.untold_now, " now")
}

// A text of others and words of ours, where there is one.
#[tactic(auto, unfolding(crate::specs::Lines::enough_text))]
fn put_enough(alloc: Global, page: &mut Vec<u8>, text: &str, words: &str) -> Result<(), AllocError>
    ensures { OnOk result (page.new.items ≡ page.old.items ++ enough_text text.now words.now) }
{
    if text.is_empty() {
        return Ok(());
    }
    page.extend_from_slice(b"; ")?;
    put_shown(alloc, page, text)?;
    page.extend_from_slice(words.as_bytes())
}

fn put_reason(page: &mut Vec<u8>, reason: Reason, words: &str) -> Result<(), AllocError>
    ensures { OnOk result (page.new.items ≡ page.old.items ++ reason_text reason words.now) }
{
    if reason == Reason::Told {
        return Ok(());
    }
    page.extend_from_slice(b"; ")?;
    page.extend_from_slice(reason.words().as_bytes())?;
    page.extend_from_slice(words.as_bytes())
}

#[tactic(auto, unfolding(crate::specs::Lines::refused_text))]
fn put_refused(page: &mut Vec<u8>, is_refused: bool) -> Result<(), AllocError>
    ensures { OnOk result (page.new.items ≡ page.old.items ++ refused_text is_refused) }
{
    if is_refused {
        return page.extend_from_slice(b"; refused");
    }
    Ok(())
}
