// Texts of others in a line, and in a cell of a table.

ghost use Rattle.std.specs.Prelude.{◌≡◌, ◌++◌, OnOk, flat_map, string_bytes};
ghost use Rattle.foreign_text.specs.Written.{text_for};
ghost use Rattle.package_changes.specs.Texts.{cell_byte, span, IsInside};

use foreign_text::{Sink, text_for};
use std::alloc::{AllocError, Global};

/// Appends the text as a line has it.
pub(crate) fn put_shown(alloc: Global, page: &mut Vec<u8>, text: &str) -> Result<(), AllocError>
    ensures { OnOk result (page.new.items ≡ page.old.items ++ text_for Sink.Line text.now) }
{
    let shown = text_for(alloc, Sink::Line, text)?;
    page.extend_from_slice(shown.as_bytes())
}

/// Appends the text in a code span, which nothing in it ends, nor the cell that it stands in.
#[tactic(auto, using(crate::proofs::Inside::inside))]
pub(crate) fn put_span(alloc: Global, page: &mut Vec<u8>, text: &str) -> Result<(), AllocError>
    ensures ok { OnOk result (page.new.items ≡ page.old.items ++ span text.now) }
    ensures inside { IsInside text.now }
{
    if text.is_empty() {
        return Ok(());
    }
    let shown = text_for(alloc, Sink::Line, text)?;
    page.push(b'`')?;
    put_cell_bytes(page, shown.as_bytes())?;
    page.push(b'`')?;
    Ok(())
}

fn put_cell_bytes(page: &mut Vec<u8>, bytes: &[u8]) -> Result<(), AllocError>
    ensures { OnOk result (page.new.items ≡ page.old.items ++ flat_map cell_byte bytes.now) }
{
    for byte in bytes {
        put_cell_byte(page, *byte)?;
    }
    Ok(())
}

fn put_cell_byte(page: &mut Vec<u8>, byte: u8) -> Result<(), AllocError>
    ensures { OnOk result (page.new.items ≡ page.old.items ++ cell_byte byte) }
{
    if byte == b'`' {
        return page.extend_from_slice(b"\\u{60}");
    }
    if byte == b'|' {
        return page.extend_from_slice(b"\\u{7c}");
    }
    page.push(byte)?;
    Ok(())
}
