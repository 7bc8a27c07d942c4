// The parts of an expression as an indented tree.

ghost use Rattle.std.specs.Prelude.{◌≡◌, ◌++◌, OnOk, OnErr, IfOk, flat_map, string_bytes};
ghost use Rattle.gate_forms.specs.Report.{part_text};
ghost use Rattle.gate_forms.specs.Human.{explained_text, closing_text, indent, node_line, sign};

use crate::messages::put_decided;
use crate::reports::{Node, Part, Report, Why};
use crate::text::carets::put_copies;
use crate::text::human::{put_advice_line, put_expression, put_fault, put_package_line};
use finding_forms::{Style, put_painted};
use foreign_text::{Sink, put_text};
use std::alloc::{AllocError, Global};

/// Appends any package's verdict, the expression, the expression's parts as a tree, and what would help. A part stands in
/// a line, indented by its depth, behind `+` where it is accepted and `-` where it is not; behind a requirement stands the
/// entry that decided it. A part deeper than 24 is indented as one of 24, and its depth is told in digits.
///
/// # Errors
///
/// Memory was refused, and the text is as it was.
pub fn put_explained(
    alloc: Global,
    text: &mut Vec<u8>,
    style: Style,
    report: &Report<'_>,
) -> Result<(), AllocError>
    ensures ok { OnOk result (
        text.new.items ≡ text.old.items ++ explained_text style report.now) }
    ensures err { OnErr result (text.new.items ≡ text.old.items) }
{
    let lines = explained_lines(alloc, style, report)?;
    text.extend_from_slice(lines.as_bytes())
}

fn explained_lines(alloc: Global, style: Style, report: &Report<'_>) -> Result<String, AllocError>
    ensures { IfOk result (λ lines. string_bytes lines ≡ explained_text style report.now) }
{
    let mut lines = String::new(alloc);
    put_package_line(&mut lines, style, report)?;
    put_expression(&mut lines, report)?;
    put_nodes(&mut lines, style, report.nodes)?;
    put_closing(alloc, &mut lines, style, report)?;
    Ok(lines)
}

fn put_nodes(lines: &mut String, style: Style, nodes: &[Node<'_>]) -> Result<(), AllocError>
    ensures { OnOk result (string_bytes lines.new ≡
        string_bytes lines.old ++ flat_map (node_line style) nodes.now) }
{
    for node in nodes {
        put_node(lines, style, node)?;
    }
    Ok(())
}

fn put_node(lines: &mut String, style: Style, node: &Node<'_>) -> Result<(), AllocError>
    ensures { OnOk result (
        string_bytes lines.new ≡ string_bytes lines.old ++ node_line style node.now) }
{
    put_indent(lines, node.depth)?;
    put_sign(lines, style, node.part.is_accepted())?;
    lines.push(' ')?;
    put_part(lines, Sink::Line, &node.part)?;
    lines.push('\n')?;
    Ok(())
}

fn put_indent(lines: &mut String, depth: usize) -> Result<(), AllocError>
    ensures { OnOk result (string_bytes lines.new ≡ string_bytes lines.old ++ indent depth) }
{
    put_copies(lines, ' ', 2 + 2 * depth.min(24))?;
    if depth <= 24 {
        return Ok(());
    }
    match write!(lines, "{depth}: ") {
        Ok(()) => Ok(()),
        Err(_) => Err(AllocError),
    }
}

fn put_sign(lines: &mut String, style: Style, accepted: bool) -> Result<(), AllocError>
    ensures { OnOk result (string_bytes lines.new ≡ string_bytes lines.old ++ sign style accepted) }
{
    if accepted {
        put_painted(lines, style, "[1;32m", "+")
    } else {
        put_painted(lines, style, "[1;31m", "-")
    }
}

/// Appends the operator, or the requirement and what decided it.
pub(crate) fn put_part(line: &mut String, how: Sink, part: &Part<'_>) -> Result<(), AllocError>
    ensures { OnOk result (
        string_bytes line.new ≡ string_bytes line.old ++ part_text how part.now) }
{
    match part {
        Part::License(leaf) => {
            put_text(line, how, leaf.text)?;
            line.push_str(": ")?;
            put_decided(line, how, leaf)?;
            Ok(())
        }
        Part::And { .. } => line.push_str("AND"),
        Part::Or { .. } => line.push_str("OR"),
    }
}

fn put_closing(
    alloc: Global,
    lines: &mut String,
    style: Style,
    report: &Report<'_>,
) -> Result<(), AllocError>
    ensures { OnOk result (
        string_bytes lines.new ≡ string_bytes lines.old ++ closing_text style report.now) }
{
    match report.why {
        Why::Nothing => Ok(()),
        Why::Fault { reason, start, end } => {
            put_fault(alloc, lines, style, report.expression, reason, start, end)
        }
        Why::Missing { advice, .. } => put_advice_line(lines, advice),
    }
}
