// Copies, which are equal in every part.

use crate::answer::{Answer, NoAnswer, said};
use spdx::{Catalogue, Expression, Licensee};
use std::alloc::Global;

/// Whether the copy of an expression equals it, its text too, and each copied node the node.
pub(crate) fn expression(alloc: Global, catalogue: &Catalogue, text: &str) -> Answer {
    let expression = Expression::parse(alloc, catalogue, text)?;
    are_all_copied(alloc, &expression, text)
}

fn are_all_copied(alloc: Global, expression: &Expression<'_>, text: &str) -> Answer {
    let is_same = is_copied(alloc, expression, text)?;
    said(alloc, are_copied(alloc, expression)? && is_same)
}

fn is_copied(alloc: Global, expression: &Expression<'_>, text: &str) -> Result<bool, NoAnswer> {
    let copy = expression.try_clone(alloc)?;
    let is_same = copy == *expression && copy.text() == text;
    Ok(are_requirements_copied(alloc, &copy)? && is_same)
}

fn are_copied(alloc: Global, expression: &Expression<'_>) -> Result<bool, NoAnswer> {
    let mut are_same = true;
    for node in expression.iter() {
        are_same &= node.try_clone(alloc)? == *node;
    }
    Ok(are_same)
}

fn are_requirements_copied(alloc: Global, expression: &Expression<'_>) -> Result<bool, NoAnswer> {
    let mut are_same = true;
    for requirement in expression.requirements() {
        are_same &= requirement.try_clone(alloc)? == *requirement;
        are_same &= requirement.req.try_clone(alloc)? == requirement.req;
    }
    Ok(are_same)
}

/// Whether the copy of a licensee equals it, its requirement too, and another licensee doesn't.
pub(crate) fn licensee(alloc: Global, catalogue: &Catalogue, text: &str) -> Answer {
    let licensee = Licensee::parse(alloc, catalogue, text)?;
    is_licensee_copied(alloc, catalogue, &licensee)
}

fn is_licensee_copied<'c>(
    alloc: Global,
    catalogue: &'c Catalogue,
    licensee: &Licensee<'c>,
) -> Answer {
    let is_same = is_same_copy(alloc, licensee)?;
    let other = Licensee::parse(alloc, catalogue, "LicenseRef-another")?;
    said(alloc, is_same && other != *licensee)
}

fn is_same_copy(alloc: Global, licensee: &Licensee<'_>) -> Result<bool, NoAnswer> {
    let copy = licensee.try_clone(alloc)?;
    Ok(copy == *licensee && copy.req() == licensee.req())
}
