// What expressions mean.

use crate::answer::{Answer, NoAnswer};
use spdx::{Catalogue, Expression, Failure, ParseMode, TooManySets};
use std::alloc::{AllocError, Global};

/// By `sets EXPRESSION` the minimal sets, each in brackets; by `text EXPRESSION` the meaning text; by `than EXPRESSION ;
/// EXPRESSION` `same`, `more` where the first one asks more, `less` where the second one does, or `neither`.
pub(crate) fn told(alloc: Global, catalogue: &Catalogue, asked: &str) -> Answer {
    let (form, rest) = asked.split_once(" ").unwrap_or((asked, ""));
    let (first, second) = rest.split_once(" ; ").unwrap_or((rest, ""));
    match read(alloc, catalogue, first)? {
        Some(one) => told_of(alloc, catalogue, &one, form, second),
        None => Ok("no expression".to_string(alloc)?),
    }
}

fn told_of<'c>(
    alloc: Global,
    catalogue: &'c Catalogue,
    one: &Expression<'c>,
    form: &str,
    second: &str,
) -> Answer {
    match form {
        "sets" => whole(alloc, sets_text(alloc, one)),
        "text" => whole(alloc, one.meaning_text(alloc)),
        _ => match read(alloc, catalogue, second)? {
            Some(other) => whole(alloc, relation(alloc, one, &other)),
            None => Ok("no expression".to_string(alloc)?),
        },
    }
}

fn whole(alloc: Global, told: Result<String, Failure<TooManySets>>) -> Answer {
    match told {
        Ok(text) => Ok(text),
        Err(Failure::Refused(refusal)) => Ok(format!(in alloc; "{refusal}")?),
        Err(Failure::Memory(_)) => Err(NoAnswer::Memory),
    }
}

fn read<'c>(
    alloc: Global,
    catalogue: &'c Catalogue,
    text: &str,
) -> Result<Option<Expression<'c>>, AllocError> {
    match Expression::parse_mode(alloc, catalogue, text, ParseMode::LAX) {
        Ok(expression) => Ok(Some(expression)),
        Err(Failure::Refused(_)) => Ok(None),
        Err(Failure::Memory(error)) => Err(error),
    }
}

// How what the one asks compares with what the other one asks.
fn relation<'c>(
    alloc: Global,
    one: &Expression<'c>,
    other: &Expression<'c>,
) -> Result<String, Failure<TooManySets>> {
    let same = one.is_equivalent(alloc, other)?;
    let forth = one.asks_at_least(alloc, other)?;
    let back = other.asks_at_least(alloc, one)?;
    let told = match (same, forth, back) {
        (true, true, true) => "same",
        (false, true, false) => "more",
        (false, false, true) => "less",
        (false, false, false) => "neither",
        _ => "unlike",
    };
    Ok(String::from_str(alloc, told)?)
}

// The minimal sets, each in brackets.
fn sets_text(alloc: Global, expression: &Expression<'_>) -> Result<String, Failure<TooManySets>> {
    let sets = expression.minimal_sets(alloc)?;
    let mut text = String::new(alloc);
    for set in &sets {
        if !text.is_empty() {
            text.push(' ')?;
        }
        put_set(alloc, &mut text, expression, set)?;
    }
    Ok(text)
}

fn put_set(
    alloc: Global,
    text: &mut String,
    expression: &Expression<'_>,
    set: &[usize],
) -> Result<(), AllocError> {
    let mut mark = "[";
    for place in set {
        text.push_str(mark)?;
        if let Some(requirement) = expression.requirements().nth(*place) {
            let req = &requirement.req;
            text.push_str(format!(in alloc; "{req}")?.as_str())?;
        }
        mark = ", ";
    }
    text.push(']')
}
