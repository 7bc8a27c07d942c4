// The lines of two texts, side by side.

ghost use Rattle.std.specs.Prelude.{◌≡◌, ◌≢◌, ℕ, ◌<◌, ◌≤◌, ◌∷◌, IfOk, length, map, take, drop, slice_index};
ghost use Rattle.std.specs.List.{list_any};
ghost use Rattle.line_diff.specs.Diff.{whole_lines, rows_of, pair_of, is_changed};

use std::alloc::{AllocError, Global};

// The lines at one place of two texts, with their newlines; empty where a text has no line there.
#[derive(Clone, Copy)]
pub(crate) struct Row<'a> {
    pub(crate) old: &'a [u8],
    pub(crate) new: &'a [u8],
}

// How many bytes stand before the first newline.
fn newline_place(bytes: &[u8]) -> usize
    ensures within { result ≤ length bytes.now }
    ensures before { (k : ℕ) → k < result → slice_index bytes.now k ≢ 10 }
    ensures found { result < length bytes.now → slice_index bytes.now result ≡ 10 }
{
    for (i, byte) in bytes.iter().enumerate() {
        if *byte == b'\n' {
            return i;
        }
    }
    bytes.len()
}

// How long the first line is, with its newline.
fn line_len(bytes: &[u8]) -> usize
    ensures within { result ≤ length bytes.now }
    ensures some { 0 < length bytes.now → 0 < result }
    ensures lines { 0 < length bytes.now → whole_lines bytes.now
        ≡ take result bytes.now ∷ whole_lines (drop result bytes.now) }
{
    let end = newline_place(bytes);
    if end < bytes.len() { end + 1 } else { end }
}

pub(crate) fn rows_of<'a>(
    alloc: Global,
    old: &'a [u8],
    new: &'a [u8],
) -> Result<Vec<Row<'a>>, AllocError>
    ensures { IfOk result (λ rows. map pair_of rows.items ≡ rows_of old.now new.now) }
{
    let mut rows = Vec::new(alloc);
    let mut old = old;
    let mut new = new;
    while !old.is_empty() || !new.is_empty() {
        let (old_line, old_rest) = old.split_at(line_len(old));
        let (new_line, new_rest) = new.split_at(line_len(new));
        rows.push(Row {
            old: old_line,
            new: new_line,
        })?;
        old = old_rest;
        new = new_rest;
    }
    Ok(rows)
}

pub(crate) fn is_changed(row: &Row) -> bool
    ensures { result ≡ is_changed (pair_of row.now) }
{
    row.old != row.new
}

pub(crate) fn any_changed(rows: &[Row]) -> bool
    ensures { result ≡ list_any (λ r. is_changed (pair_of r)) rows.now }
{
    rows.iter().any(is_changed)
}
