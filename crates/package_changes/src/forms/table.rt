// The changes as a table of Markdown.

ghost use Rattle.std.specs.Prelude.{◌≡◌, ◌++◌, OnOk, flat_map};
ghost use Rattle.package_changes.specs.Table.{side_cells, enough_note, reason_note, refused_note, notes_cell, row_of, head, table_of};

use crate::forms::texts::put_span;
use crate::tellings::{Reason, Release, Telling};
use std::alloc::{AllocError, Global};

/// Appends a table with a row for each change, or a line that says that there is none.
pub(crate) fn put_table(
    alloc: Global,
    page: &mut Vec<u8>,
    tellings: &[Telling<'_>],
) -> Result<(), AllocError>
    ensures { OnOk result (page.new.items ≡ page.old.items ++ table_of tellings.now) }
{
    if tellings.is_empty() {
        return page.extend_from_slice(b"No package came or went, and no license changed.\n");
    }
    put_head(page)?;
    put_rows(alloc, page, tellings)
}

#[tactic(auto, unfolding(crate::specs::Table::head))]
fn put_head(page: &mut Vec<u8>) -> Result<(), AllocError>
    ensures { OnOk result (page.new.items ≡ page.old.items ++ head) }
{
    page.extend_from_slice(
        b"| Change | Package | Old | Old license | New | New license | |\n|---|---|---|---|---|---|---|\n",
    )
}

fn put_rows(alloc: Global, page: &mut Vec<u8>, tellings: &[Telling<'_>]) -> Result<(), AllocError>
    ensures { OnOk result (page.new.items ≡ page.old.items ++ flat_map row_of tellings.now) }
{
    for telling in tellings {
        put_row(alloc, page, telling)?;
    }
    Ok(())
}

#[tactic(auto, unfolding(crate::specs::Table::row_of))]
fn put_row(alloc: Global, page: &mut Vec<u8>, telling: &Telling<'_>) -> Result<(), AllocError>
    ensures { OnOk result (page.new.items ≡ page.old.items ++ row_of telling.now) }
{
    page.extend_from_slice(b"| ")?;
    page.extend_from_slice(telling.how.words().as_bytes())?;
    page.extend_from_slice(b" | ")?;
    put_span(alloc, page, telling.name)?;
    put_side(alloc, page, &telling.old)?;
    put_side(alloc, page, &telling.new)?;
    page.extend_from_slice(b" |")?;
    put_notes(alloc, page, telling)?;
    page.extend_from_slice(b" |\n")?;
    Ok(())
}

#[tactic(auto, unfolding(crate::specs::Table::side_cells))]
fn put_side(alloc: Global, page: &mut Vec<u8>, side: &Option<Release<'_>>) -> Result<(), AllocError>
    ensures { OnOk result (page.new.items ≡ page.old.items ++ side_cells side.now) }
{
    match side {
        None => page.extend_from_slice(b" |  | "),
        Some(release) => {
            page.extend_from_slice(b" | ")?;
            put_span(alloc, page, release.version)?;
            page.extend_from_slice(b" | ")?;
            put_span(alloc, page, release.license)
        }
    }
}

#[tactic(auto, unfolding(crate::specs::Table::notes_cell))]
fn put_notes(alloc: Global, page: &mut Vec<u8>, telling: &Telling<'_>) -> Result<(), AllocError>
    ensures { OnOk result (page.new.items ≡ page.old.items ++ notes_cell telling.now) }
{
    put_enough(alloc, page, telling.enough_before, " was enough.")?;
    put_enough(alloc, page, telling.enough_now, " is enough now.")?;
    put_reason(page, telling.untold_before, " before.")?;
    put_reason(page, telling.untold_now, " now.")?;
    put_refused(page, telling.is_refused)?;
    Ok(())
}

#[tactic(auto, unfolding(crate::specs::Table::enough_note))]
fn put_enough(alloc: Global, page: &mut Vec<u8>, text: &str, words: &str) -> Result<(), AllocError>
    ensures { OnOk result (page.new.items ≡ page.old.items ++ enough_note text.now words.now) }
{
    if text.is_empty() {
        return Ok(());
    }
    page.extend_from_slice(b" ")?;
    put_span(alloc, page, text)?;
    page.extend_from_slice(words.as_bytes())
}

#[tactic(auto, unfolding(crate::specs::Table::reason_note))]
fn put_reason(page: &mut Vec<u8>, reason: Reason, words: &str) -> Result<(), AllocError>
    ensures { OnOk result (page.new.items ≡ page.old.items ++ reason_note reason words.now) }
{
    if reason == Reason::Told {
        return Ok(());
    }
    page.extend_from_slice(b" ")?;
    page.extend_from_slice(reason.words().as_bytes())?;
    page.extend_from_slice(words.as_bytes())
}

#[tactic(auto, unfolding(crate::specs::Table::refused_note))]
fn put_refused(page: &mut Vec<u8>, is_refused: bool) -> Result<(), AllocError>
    ensures { OnOk result (page.new.items ≡ page.old.items ++ refused_note is_refused) }
{
    if is_refused {
        return page.extend_from_slice(b" **refused**");
    }
    Ok(())
}
