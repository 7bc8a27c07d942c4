// The rows that a diff shows, in hunks.

ghost use Rattle.std.specs.Prelude.{◌≡◌, ◌<◌, ◌≤◌, ◌+◌, ◌^◌, ◌++◌, OnOk, IfOk, length, map, count_by, codes, string_bytes};
ghost use Rattle.std.specs.List.{flat_map, range_with_len};
ghost use Rattle.line_diff.specs.Diff.{pair_of, has_old, has_new, is_shown, range_text, hunk_len, hunk_head, line_text, row_text, shown_text};

use crate::rows::{Row, any_changed, is_changed};
use std::alloc::{AllocError, Global};

// How many lines stand before and behind a changed one.
const CONTEXT: usize = 3;

// Whether a changed row stands at most three rows away.
fn is_shown(rows: &[Row], i: usize) -> bool
    requires { i < length rows.now }
    ensures { result ≡ is_shown (map pair_of rows.now) i }
{
    let low = i.saturating_sub(CONTEXT);
    let high = rows.len().min(i + CONTEXT + 1);
    any_changed(&rows[low..high])
}

// How many rows are shown from here on, without a gap.
fn hunk_len(rows: &[Row], i: usize) -> usize
    requires { i ≤ length rows.now }
    ensures value { result ≡ hunk_len (map pair_of rows.now) i }
    ensures within { result + i ≤ length rows.now }
{
    for end in i..rows.len() {
        if !is_shown(rows, end) {
            return end - i;
        }
    }
    rows.len() - i
}

// How many of the rows have an old line.
fn old_count(rows: &[Row]) -> usize
    ensures { result ≡ count_by (λ r. has_old (pair_of r)) rows.now }
{
    rows.iter().filter(|row| !row.old.is_empty()).count()
}

fn new_count(rows: &[Row]) -> usize
    ensures { result ≡ count_by (λ r. has_new (pair_of r)) rows.now }
{
    rows.iter().filter(|row| !row.new.is_empty()).count()
}

// Where a hunk begins in a text, and how many lines it has there.
#[tactic(auto, unfolding(crate::specs::Diff::range_text))]
fn range_text(alloc: Global, i: usize, count: usize) -> Result<String, AllocError>
    requires { i + 1 < 2 ^ 64 }
    ensures { IfOk result (λ text. string_bytes text ≡ range_text i count) }
{
    let start = if count == 0 { i } else { i + 1 };
    format!(in alloc; "{start},{count}")
}

fn head_of(alloc: Global, old: &str, new: &str) -> Result<String, AllocError>
    ensures { IfOk result (λ text. string_bytes text
        ≡ codes "@@ -" ++ (old.now ++ (codes " +" ++ (new.now ++ codes " @@\n")))) }
{
    format!(in alloc; "@@ -{old} +{new} @@\n")
}

// The line before a hunk.
fn put_head(alloc: Global, text: &mut Vec<u8>, rows: &[Row], i: usize) -> Result<(), AllocError>
    requires { i < length rows.now }
    ensures { OnOk result (text.new.items
        ≡ text.old.items ++ hunk_head (map pair_of rows.now) i) }
{
    let hunk = &rows[i..i + hunk_len(rows, i)];
    let old = range_text(alloc, i, old_count(hunk))?;
    let new = range_text(alloc, i, new_count(hunk))?;
    let head = head_of(alloc, old.as_str(), new.as_str())?;
    text.extend_from_slice(head.as_bytes())
}

// A line behind its mark, and a word on a last line that has no newline.
#[tactic(auto, unfolding(crate::specs::Diff::line_text))]
fn put_line(text: &mut Vec<u8>, mark: u8, line: &[u8]) -> Result<(), AllocError>
    ensures { OnOk result (text.new.items ≡ text.old.items ++ line_text mark line.now) }
{
    if line.is_empty() {
        return Ok(());
    }
    text.push(mark)?;
    text.extend_from_slice(line)?;
    if line.ends_with(b"\n") {
        return Ok(());
    }
    text.extend_from_slice(b"\n\\ No newline at end of file\n")
}

fn put_row(text: &mut Vec<u8>, row: &Row) -> Result<(), AllocError>
    ensures { OnOk result (text.new.items ≡ text.old.items ++ row_text (pair_of row.now)) }
{
    if !is_changed(row) {
        return put_line(text, b' ', row.old);
    }
    put_line(text, b'-', row.old)?;
    put_line(text, b'+', row.new)
}

pub(crate) fn put_rows(alloc: Global, text: &mut Vec<u8>, rows: &[Row]) -> Result<(), AllocError>
    ensures { OnOk result (text.new.items ≡ text.old.items
        ++ flat_map (shown_text (map pair_of rows.now)) (range_with_len 0 (length rows.now))) }
{
    for i in 0..rows.len() {
        put_shown(alloc, text, rows, i)?;
    }
    Ok(())
}

// Puts a row if it is shown, the first of a hunk behind its head.
fn put_shown(alloc: Global, text: &mut Vec<u8>, rows: &[Row], i: usize) -> Result<(), AllocError>
    requires { i < length rows.now }
    ensures { OnOk result (text.new.items
        ≡ text.old.items ++ shown_text (map pair_of rows.now) i) }
{
    if !is_shown(rows, i) {
        return Ok(());
    }
    if i == 0 || !is_shown(rows, i - 1) {
        put_head(alloc, text, rows, i)?;
    }
    put_row(text, &rows[i])
}
