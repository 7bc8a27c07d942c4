// What would make all refused packages pass.

ghost use Rattle.std.specs.Prelude.{◌≡◌, ◌++◌, OnOk, OnErr, IfOk, flat_map, string_bytes};
ghost use Rattle.gate_forms.specs.Summary.{count_line, first_need, needs_line, next_need, summary_text};

use crate::reports::{Need, Summary};
use crate::totals::{put_counted, put_number};
use foreign_text::{Sink, put_text};
use std::alloc::{AllocError, Global};

/// Appends what would make all refused packages pass, and how many of them each entry serves:
/// `to pass all: allow Unicode-3.0 (16 packages), MPL-2.0 (2)`; behind it, how many packages no entry makes pass, and for
/// how many it was not sought. Where no package is refused nothing is said.
///
/// # Errors
///
/// Memory was refused, and the text is as it was.
pub fn put_summary(
    alloc: Global,
    text: &mut Vec<u8>,
    summary: &Summary<'_>,
) -> Result<(), AllocError>
    ensures ok { OnOk result (text.new.items ≡ text.old.items ++ summary_text summary.now) }
    ensures err { OnErr result (text.new.items ≡ text.old.items) }
{
    let lines = summary_lines(alloc, summary)?;
    text.extend_from_slice(lines.as_bytes())
}

fn summary_lines(alloc: Global, summary: &Summary<'_>) -> Result<String, AllocError>
    ensures { IfOk result (λ lines. string_bytes lines ≡ summary_text summary.now) }
{
    let mut lines = String::new(alloc);
    put_needs(&mut lines, summary.needs)?;
    put_count_line(
        &mut lines,
        summary.unmet,
        " can't pass by what may be allowed\n",
    )?;
    put_count_line(
        &mut lines,
        summary.not_sought,
        " without advice: too many entries to choose from\n",
    )?;
    Ok(lines)
}

fn put_needs(lines: &mut String, needs: &[Need<'_>]) -> Result<(), AllocError>
    ensures { OnOk result (
        string_bytes lines.new ≡ string_bytes lines.old ++ needs_line needs.now) }
{
    let Some((first, others)) = needs.split_first() else {
        return Ok(());
    };
    lines.push_str("to pass all: allow ")?;
    put_first(lines, first)?;
    for need in others {
        put_next(lines, need)?;
    }
    lines.push('\n')?;
    Ok(())
}

fn put_first(lines: &mut String, need: &Need<'_>) -> Result<(), AllocError>
    ensures { OnOk result (
        string_bytes lines.new ≡ string_bytes lines.old ++ first_need need.now) }
{
    put_text(lines, Sink::Line, need.entry)?;
    lines.push_str(" (")?;
    put_counted(lines, need.packages, "package")?;
    lines.push(')')?;
    Ok(())
}

fn put_next(lines: &mut String, need: &Need<'_>) -> Result<(), AllocError>
    ensures { OnOk result (
        string_bytes lines.new ≡ string_bytes lines.old ++ next_need need.now) }
{
    lines.push_str(", ")?;
    put_text(lines, Sink::Line, need.entry)?;
    lines.push_str(" (")?;
    put_number(lines, need.packages, ")")?;
    Ok(())
}

// So many packages, and words behind them; nothing where there are none.
fn put_count_line(lines: &mut String, count: u64, words: &str) -> Result<(), AllocError>
    ensures { OnOk result (
        string_bytes lines.new ≡ string_bytes lines.old ++ count_line count words.now) }
{
    if count == 0 {
        return Ok(());
    }
    put_counted(lines, count, "package")?;
    lines.push_str(words)?;
    Ok(())
}
