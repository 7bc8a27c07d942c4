// What expressions mean.

use crate::end::Answer;
use crate::lent::Lent;
use spdx::{Catalogue, Expression, Failure, TooManySets};
use std::alloc::Global;

// Expressions of more than one minimal set, in which some set contains another one.
const ONE: &str = "(Zlib AND MIT) OR Apache-2.0 OR (Apache-2.0 AND MIT)";

const OTHER: &str = "Apache-2.0 OR (MIT AND Zlib)";

/// What the call of that name answers.
pub(crate) fn answer(alloc: Global, catalogue: &Catalogue, call: &str) -> Answer {
    let one = Lent::new(alloc, catalogue, ONE)?;
    match call {
        "minimal_sets" => minimal_sets(alloc, &one),
        "meaning_text" => meaning_text(alloc, &one),
        _ => of_two(
            alloc,
            &one,
            &Expression::parse(alloc, catalogue, OTHER)?,
            call,
        ),
    }
}

// The minimal sets, by their number.
fn minimal_sets(alloc: Global, one: &Lent<'_>) -> Answer {
    match one.expression.minimal_sets(alloc) {
        Ok(sets) => Ok(format!(in alloc; "{} sets", sets.len())?),
        Err(failure) => Err(one.end_of(&failure)),
    }
}

fn meaning_text(alloc: Global, one: &Lent<'_>) -> Answer {
    match one.expression.meaning_text(alloc) {
        Ok(text) => Ok(text),
        Err(failure) => Err(one.end_of(&failure)),
    }
}

fn of_two<'c>(alloc: Global, one: &Lent<'c>, other: &Expression<'c>, call: &str) -> Answer {
    if call == "asks_at_least" {
        told(alloc, one, one.expression.asks_at_least(alloc, other))
    } else {
        told(alloc, one, one.expression.is_equivalent(alloc, other))
    }
}

fn told(alloc: Global, one: &Lent<'_>, answer: Result<bool, Failure<TooManySets>>) -> Answer {
    match answer {
        Ok(holds) => Ok(format!(in alloc; "{holds}")?),
        Err(failure) => Err(one.end_of(&failure)),
    }
}
