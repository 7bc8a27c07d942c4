// The form for people.

ghost use Rattle.std.specs.Prelude.{◌≡◌, ◌++◌, OnOk, OnErr, IfOk, flat_map, string_bytes, take};
ghost use Rattle.finding_forms.specs.Paint.{bold, painted};
ghost use Rattle.gate_forms.specs.Report.{package_text};
ghost use Rattle.gate_forms.specs.Human.{advice_line, expression_line, fault_line, head_line, human_text, leaf_line, leaf_lines, more_line, package_line, reasons_text, refused_lines, whole_line};

use crate::messages::{put_advice, put_decided, put_package, put_verdict};
use crate::reports::{Advice, Leaf, Report, Why};
use crate::text::carets::put_carets;
use finding_forms::{
    Style, begin_paint, end_paint, put_carets_under, put_excerpt_line, put_painted,
};
use foreign_text::{Sink, put_text};
use std::alloc::{AllocError, Global};

/// Appends a refused package as people read it: the package and the verdict, the expression, carets under each part that
/// is missing by the columns of a terminal, and what would help. Carets stand under twenty parts at most, for each line of
/// them is as long as the expression; of further ones the number is told. An expression that is none is shown round its
/// fault, as `finding_forms::put_excerpt_line` shows it. Of a package that passes nothing is said.
///
/// # Errors
///
/// Memory was refused, and the text is as it was.
pub fn put_human(
    alloc: Global,
    text: &mut Vec<u8>,
    style: Style,
    report: &Report<'_>,
) -> Result<(), AllocError>
    ensures ok { OnOk result (text.new.items ≡ text.old.items ++ human_text style report.now) }
    ensures err { OnErr result (text.new.items ≡ text.old.items) }
{
    if !report.verdict.is_refused() {
        return Ok(());
    }
    let lines = refused_lines(alloc, style, report)?;
    text.extend_from_slice(lines.as_bytes())
}

/// The lines of a refused package.
pub(crate) fn refused_lines(
    alloc: Global,
    style: Style,
    report: &Report<'_>,
) -> Result<String, AllocError>
    ensures { IfOk result (λ lines. string_bytes lines ≡ refused_lines style report.now) }
{
    let mut lines = String::new(alloc);
    put_head(&mut lines, style, report)?;
    put_reasons(alloc, &mut lines, style, report)?;
    Ok(lines)
}

fn put_head(lines: &mut String, style: Style, report: &Report<'_>) -> Result<(), AllocError>
    ensures { OnOk result (
        string_bytes lines.new ≡ string_bytes lines.old ++ head_line style report.now) }
{
    put_painted(lines, style, "[1;31m", "error")?;
    lines.push_str(": ")?;
    put_package_line(lines, style, report)?;
    Ok(())
}

/// Appends the package and the verdict, as a line.
pub(crate) fn put_package_line(
    lines: &mut String,
    style: Style,
    report: &Report<'_>,
) -> Result<(), AllocError>
    ensures { OnOk result (
        string_bytes lines.new ≡ string_bytes lines.old ++ package_line style report.now) }
{
    put_bold_package(lines, style, report)?;
    lines.push_str(": ")?;
    put_verdict(lines, Sink::Line, report)?;
    lines.push('\n')?;
    Ok(())
}

fn put_bold_package(lines: &mut String, style: Style, report: &Report<'_>) -> Result<(), AllocError>
    ensures { OnOk result (string_bytes lines.new ≡
        string_bytes lines.old ++ painted style bold (package_text Sink.Line report.now)) }
{
    begin_paint(lines, style, "[1m")?;
    put_package(lines, Sink::Line, report)?;
    end_paint(lines, style)?;
    Ok(())
}

/// Appends the expression, and why it is refused.
pub(crate) fn put_reasons(
    alloc: Global,
    lines: &mut String,
    style: Style,
    report: &Report<'_>,
) -> Result<(), AllocError>
    ensures { OnOk result (
        string_bytes lines.new ≡ string_bytes lines.old ++ reasons_text style report.now) }
{
    put_expression(lines, report)?;
    match report.why {
        Why::Nothing => Ok(()),
        Why::Fault { reason, start, end } => {
            put_fault(alloc, lines, style, report.expression, reason, start, end)?;
            Ok(())
        }
        Why::Missing { leaves, advice } => {
            put_missing(alloc, lines, style, report.expression, leaves)?;
            put_advice_line(lines, advice)?;
            Ok(())
        }
    }
}

/// Appends the expression as a line, where there is one; round its fault, where it has one.
pub(crate) fn put_expression(lines: &mut String, report: &Report<'_>) -> Result<(), AllocError>
    ensures { OnOk result (string_bytes lines.new ≡
        string_bytes lines.old ++ expression_line report.now.expression.now report.now.why) }
{
    if report.expression.is_empty() {
        return Ok(());
    }
    match report.why {
        Why::Nothing | Why::Missing { .. } => put_whole(lines, report.expression),
        Why::Fault { start, .. } => put_excerpt_line(lines, report.expression, start),
    }
}

fn put_whole(lines: &mut String, text: &str) -> Result<(), AllocError>
    ensures { OnOk result (
        string_bytes lines.new ≡ string_bytes lines.old ++ whole_line text.now) }
{
    lines.push_str("  ")?;
    put_text(lines, Sink::Line, text)?;
    lines.push('\n')?;
    Ok(())
}

/// Appends carets under what is shown of the fault, and its reason.
pub(crate) fn put_fault(
    alloc: Global,
    lines: &mut String,
    style: Style,
    expression: &str,
    reason: &str,
    start: usize,
    end: usize,
) -> Result<(), AllocError>
    ensures { OnOk result (string_bytes lines.new ≡
        string_bytes lines.old ++ fault_line style expression.now reason.now start end) }
{
    put_carets_under(alloc, lines, style, expression, start, end)?;
    lines.push(' ')?;
    put_text(lines, Sink::Line, reason)?;
    lines.push('\n')?;
    Ok(())
}

// The requirements under which carets are put.
fn first_of<'s, 'r>(leaves: &'s [Leaf<'r>]) -> &'s [Leaf<'r>]
    ensures { result.now ≡ take 20 leaves.now }
{
    if leaves.len() <= 20 {
        leaves
    } else {
        &leaves[..20]
    }
}

fn put_missing(
    alloc: Global,
    lines: &mut String,
    style: Style,
    expression: &str,
    leaves: &[Leaf<'_>],
) -> Result<(), AllocError>
    ensures { OnOk result (string_bytes lines.new ≡
        string_bytes lines.old ++ leaf_lines style expression.now leaves.now) }
{
    put_leaf_lines(alloc, lines, style, expression, first_of(leaves))?;
    put_more_line(lines, leaves.len())?;
    Ok(())
}

fn put_leaf_lines(
    alloc: Global,
    lines: &mut String,
    style: Style,
    expression: &str,
    leaves: &[Leaf<'_>],
) -> Result<(), AllocError>
    ensures { OnOk result (string_bytes lines.new ≡
        string_bytes lines.old ++ flat_map (leaf_line style expression.now) leaves.now) }
{
    for leaf in leaves {
        put_leaf_line(alloc, lines, style, expression, leaf)?;
    }
    Ok(())
}

fn put_leaf_line(
    alloc: Global,
    lines: &mut String,
    style: Style,
    expression: &str,
    leaf: &Leaf<'_>,
) -> Result<(), AllocError>
    ensures { OnOk result (string_bytes lines.new ≡
        string_bytes lines.old ++ leaf_line style expression.now leaf.now) }
{
    put_carets(alloc, lines, style, expression, leaf.start, leaf.end)?;
    put_decided(lines, Sink::Line, leaf)?;
    lines.push('\n')?;
    Ok(())
}

// How many more there are than twenty.
fn put_more_line(lines: &mut String, count: usize) -> Result<(), AllocError>
    ensures { OnOk result (string_bytes lines.new ≡ string_bytes lines.old ++ more_line count) }
{
    if count <= 20 {
        return Ok(());
    }
    match write!(lines, "  and {} more\n", count - 20) {
        Ok(()) => Ok(()),
        Err(_) => Err(AllocError),
    }
}

/// Appends what would help, as a line.
pub(crate) fn put_advice_line(lines: &mut String, advice: Advice<'_>) -> Result<(), AllocError>
    ensures { OnOk result (
        string_bytes lines.new ≡ string_bytes lines.old ++ advice_line advice.entry) }
{
    lines.push_str("  ")?;
    put_advice(lines, Sink::Line, advice)?;
    lines.push('\n')?;
    Ok(())
}
