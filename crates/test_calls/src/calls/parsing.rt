// Which texts are expressions, and the first fault of those that are not.

use crate::answer::{Answer, fields, placed_fault};
use crate::catalogues::mode_named;
use spdx::expression::ExpressionReq;
use spdx::{Catalogue, Expression};
use std::alloc::{AllocError, Global};

/// The postfix list of the text's tree, or its fault with the place.
pub(crate) fn tree(alloc: Global, catalogue: &Catalogue, given: &str) -> Answer {
    let (mode, text) = fields(given)?;
    match Expression::parse_mode(alloc, catalogue, text, mode_named(mode)) {
        Ok(expression) => Ok(format!(in alloc; "{expression:?}")?),
        Err(failure) => placed_fault(alloc, failure),
    }
}

/// Whether the trees of two texts are equal, from both sides.
pub(crate) fn equal(alloc: Global, catalogue: &Catalogue, given: &str) -> Answer {
    let (left, right) = fields(given)?;
    let one = Expression::parse(alloc, catalogue, left)?;
    is_equal(alloc, catalogue, &one, right)
}

fn is_equal<'c>(
    alloc: Global,
    catalogue: &'c Catalogue,
    one: &Expression<'c>,
    text: &str,
) -> Answer {
    let other = Expression::parse(alloc, catalogue, text)?;
    Ok(sides(one, &other).to_string(alloc)?)
}

fn sides<'c>(one: &Expression<'c>, other: &Expression<'c>) -> &'static str {
    match (*one == *other, *other == *one) {
        (true, true) => "yes",
        (false, false) => "no",
        _ => "yes and no",
    }
}

/// Each requirement with its place.
pub(crate) fn spans(alloc: Global, catalogue: &Catalogue, given: &str) -> Answer {
    let (mode, text) = fields(given)?;
    let expression = Expression::parse_mode(alloc, catalogue, text, mode_named(mode))?;
    spans_of(alloc, &expression)
}

fn spans_of(alloc: Global, expression: &Expression<'_>) -> Answer {
    let mut shown = String::new(alloc);
    for requirement in expression.requirements() {
        put_placed(&mut shown, requirement)?;
    }
    Ok(shown)
}

/// Puts the requirement with its place, in brackets.
pub(crate) fn put_placed(
    shown: &mut String,
    requirement: &ExpressionReq<'_>,
) -> Result<(), AllocError> {
    let (start, end) = (requirement.span.start, requirement.span.end);
    write!(shown, "[{} {start}..{end}]", requirement.req)
}

/// The index of a text that is one listed licence.
pub(crate) fn index(alloc: Global, catalogue: &Catalogue, text: &str) -> Answer {
    let expression = Expression::parse(alloc, catalogue, text)?;
    indices(alloc, &expression)
}

fn indices(alloc: Global, expression: &Expression<'_>) -> Answer {
    let mut shown = String::new(alloc);
    for requirement in expression.requirements() {
        match requirement.req.license.id() {
            Some(id) => write!(shown, "{}", id.license().index)?,
            None => shown.push_str("a reference")?,
        }
    }
    Ok(shown)
}

/// How many nodes and how many requirements a tree has.
pub(crate) fn counts(alloc: Global, catalogue: &Catalogue, text: &str) -> Answer {
    let expression = Expression::parse(alloc, catalogue, text)?;
    let (nodes, requirements) = counts_of(&expression);
    Ok(format!(in alloc; "{nodes} nodes, {requirements} requirements")?)
}

fn counts_of(expression: &Expression<'_>) -> (u64, u64) {
    let mut nodes = 0u64;
    for _ in expression.iter() {
        nodes = nodes.saturating_add(1);
    }
    let mut requirements = 0u64;
    for _ in expression.requirements() {
        requirements = requirements.saturating_add(1);
    }
    (nodes, requirements)
}
