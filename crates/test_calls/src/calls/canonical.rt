// Canonical and normal texts.

use crate::answer::{Answer, NoAnswer, placed_fault};
use spdx::{Catalogue, Expression, ParseMode};
use std::alloc::Global;

/// The canonical text, `stays` where the text is its own, or the fault with its place.
pub(crate) fn text(alloc: Global, catalogue: &Catalogue, text: &str) -> Answer {
    match Expression::canonicalize(alloc, catalogue, text) {
        Ok(Some(canonical)) => Ok(canonical),
        Ok(None) => Ok("stays".to_string(alloc)?),
        Err(failure) => placed_fault(alloc, failure),
    }
}

/// What strict parsing makes of the canonical text of a text that the lax mode accepts.
pub(crate) fn read_strictly(alloc: Global, catalogue: &Catalogue, text: &str) -> Answer {
    let canonical = canonical_of(alloc, catalogue, text)?;
    match Expression::parse(alloc, catalogue, canonical.as_str()) {
        Ok(expression) => Ok(format!(in alloc; "{expression:?}")?),
        Err(failure) => placed_fault(alloc, failure),
    }
}

fn canonical_of(alloc: Global, catalogue: &Catalogue, text: &str) -> Answer {
    let (_, canonical) = Expression::parse_canonical(alloc, catalogue, text, ParseMode::LAX)?;
    match canonical {
        Some(canonical) => Ok(canonical),
        None => Ok(text.to_string(alloc)?),
    }
}

/// The normal text, where it is its own and means an equal expression.
pub(crate) fn normal(alloc: Global, catalogue: &Catalogue, text: &str) -> Answer {
    let expression = Expression::parse(alloc, catalogue, text)?;
    normal_of(alloc, catalogue, &expression)
}

fn normal_of<'c>(alloc: Global, catalogue: &'c Catalogue, expression: &Expression<'c>) -> Answer {
    let normal = expression.normal_text(alloc)?;
    if is_read_back(alloc, catalogue, expression, normal.as_str())? {
        Ok(normal)
    } else {
        Ok("not read back".to_string(alloc)?)
    }
}

fn is_read_back<'c>(
    alloc: Global,
    catalogue: &'c Catalogue,
    expression: &Expression<'c>,
    normal: &str,
) -> Result<bool, NoAnswer> {
    let again = Expression::parse(alloc, catalogue, normal)?;
    let is_same = again == *expression;
    Ok(again.normal_text(alloc)?.as_str() == normal && is_same)
}

/// The fix, which has none itself, or `none`.
pub(crate) fn fix(alloc: Global, catalogue: &Catalogue, text: &str) -> Answer {
    let Some(fix) = Expression::fix(alloc, catalogue, text)? else {
        return Ok("none".to_string(alloc)?);
    };
    match Expression::fix(alloc, catalogue, fix.as_str())? {
        None => Ok(fix),
        Some(_) => Ok("not mended".to_string(alloc)?),
    }
}
