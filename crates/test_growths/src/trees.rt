// Trees that are evaluated and written.

use crate::end::{Answer, End};
use crate::lent::Lent;
use spdx::expression::ExpressionReq;
use spdx::{Catalogue, Expression, Failure, LicenseReq};
use std::alloc::{AllocError, Global};

// A thousand requirements, which the packed truths of no inline word hold.
fn long_text(alloc: Global) -> Result<String, AllocError> {
    let mut text = "MIT OR ".repeat(alloc, 999)?;
    text.push_str("MIT")?;
    Ok(text)
}

const LEANS_LEFT: &str =
    "((MIT AND (Zlib)) AND Apache-2.0 OR LicenseRef-a) OR BSD-2-Clause+ OR Zlib";

/// What the call of that name answers of a thousand requirements.
pub(crate) fn answer(alloc: Global, catalogue: &Catalogue, call: &str) -> Answer {
    let text = long_text(alloc)?;
    answer_of(alloc, &Lent::new(alloc, catalogue, text.as_str())?, call)
}

fn answer_of(alloc: Global, lent: &Lent<'_>, call: &str) -> Answer {
    if call == "evaluate" {
        evaluate(alloc, lent)
    } else {
        evaluate_with_failures(alloc, lent)
    }
}

// What the tree of a thousand requirements comes to, where the last alone is true, and how often the closure was called.
fn truth_by_the_last(alloc: Global, tree: &Expression<'_>) -> (Result<bool, AllocError>, u32) {
    let mut calls = 0u32;
    let truth = tree.evaluate(
        alloc,
        &mut |_: &LicenseReq| {
            calls = calls.saturating_add(1);
            calls == 1000
        },
    );
    (truth, calls)
}

// Evaluates them, the last alone true.
fn evaluate(alloc: Global, lent: &Lent<'_>) -> Answer {
    let (truth, calls) = truth_by_the_last(alloc, &lent.expression);
    match truth {
        Ok(truth) => Ok(format!(in alloc; "{truth}, {calls} calls")?),
        Err(AllocError) if calls > 0 => Err(End::Otherwise("the closure was called")),
        Err(AllocError) => Err(lent.end()),
    }
}

// The same with the list of those that were refused, where all are false.
fn all_refused<'t, 'c>(
    alloc: Global,
    tree: &'t Expression<'c>,
) -> (Result<(), Failure<Vec<&'t ExpressionReq<'c>>>>, u32) {
    let mut calls = 0u32;
    let refused = tree.evaluate_with_failures(
        alloc,
        &mut |_: &LicenseReq| {
            calls = calls.saturating_add(1);
            false
        },
    );
    (refused, calls)
}

// The same, all of them false, with the list of those that were refused.
fn evaluate_with_failures(alloc: Global, lent: &Lent<'_>) -> Answer {
    let (refused, calls) = all_refused(alloc, &lent.expression);
    match refused {
        Ok(()) => Err(End::Otherwise("true")),
        Err(Failure::Refused(refused)) => {
            let count = refused.len();
            Ok(format!(in alloc; "{count} refused, {calls} calls")?)
        }
        Err(Failure::Memory(_)) if calls > 0 => Err(End::Otherwise("the closure was called")),
        Err(Failure::Memory(_)) => Err(lent.end()),
    }
}

/// Writes the normal text of a tree that leans left.
pub(crate) fn normal_text(alloc: Global, catalogue: &Catalogue) -> Answer {
    let lent = Lent::new(alloc, catalogue, LEANS_LEFT)?;
    match lent.expression.normal_text(alloc) {
        Ok(normal) => Ok(normal),
        Err(AllocError) => Err(lent.end()),
    }
}
