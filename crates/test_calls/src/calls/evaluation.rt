// Truth over the answers of a closure, and the requirements that it refused.

use crate::answer::{Answer, NoAnswer, fields};
use crate::calls::parsing::put_placed;
use spdx::expression::ExpressionReq;
use spdx::{Catalogue, Expression, Failure, LicenseReq};
use std::alloc::{AllocError, Global};

// Answers from left to right, each `t` a true one, and how many were asked for.
#[derive(Clone, Copy)]
struct Answers<'t> {
    letters: &'t str,
    calls: usize,
}

impl<'t> Answers<'t> {
    fn new(letters: &'t str) -> Answers<'t> {
        Answers { letters, calls: 0 }
    }

    fn next(&mut self) -> bool {
        let answer = matches!(self.letters.as_bytes().get(self.calls), Some(b't'));
        self.calls = self.calls.saturating_add(1);
        answer
    }
}

/// The truth over these answers, and how many were asked for.
pub(crate) fn truth(alloc: Global, catalogue: &Catalogue, given: &str) -> Answer {
    let (text, letters) = fields(given)?;
    let expression = Expression::parse(alloc, catalogue, text)?;
    truth_of(alloc, &expression, letters)
}

fn truth_of(alloc: Global, expression: &Expression<'_>, letters: &str) -> Answer {
    let mut answers = Answers::new(letters);
    let truth = truth_over(alloc, expression, &mut answers)?;
    Ok(format!(in alloc; "{truth}, {} calls", answers.calls)?)
}

fn truth_over(
    alloc: Global,
    expression: &Expression<'_>,
    answers: &mut Answers<'_>,
) -> Result<bool, AllocError> {
    expression.evaluate(alloc, &mut |_: &LicenseReq| answers.next())
}

/// `true`, or the requirements that were refused, each with its place, and how many answers were asked for.
pub(crate) fn failures(alloc: Global, catalogue: &Catalogue, given: &str) -> Answer {
    let (text, letters) = fields(given)?;
    let expression = Expression::parse(alloc, catalogue, text)?;
    failures_of(alloc, &expression, letters)
}

fn failures_of(alloc: Global, expression: &Expression<'_>, letters: &str) -> Answer {
    let mut answers = Answers::new(letters);
    let shown = failures_over(alloc, expression, &mut answers)?;
    Ok(format!(in alloc; "{} calls, {shown}", answers.calls)?)
}

fn failures_over(alloc: Global, expression: &Expression<'_>, answers: &mut Answers<'_>) -> Answer {
    match expression.evaluate_with_failures(alloc, &mut |_: &LicenseReq| answers.next()) {
        Ok(()) => Ok("true".to_string(alloc)?),
        Err(Failure::Memory(_)) => Err(NoAnswer::Memory),
        Err(Failure::Refused(refused)) => listed(alloc, refused),
    }
}

fn listed(alloc: Global, refused: Vec<&ExpressionReq<'_>>) -> Answer {
    let mut shown = String::new(alloc);
    for requirement in refused {
        put_placed(&mut shown, requirement)?;
    }
    Ok(shown)
}

/// The truth where OSI has approved, and where it has not.
pub(crate) fn osi_approved(alloc: Global, catalogue: &Catalogue, text: &str) -> Answer {
    let expression = Expression::parse(alloc, catalogue, text)?;
    osi_approved_of(alloc, &expression)
}

fn osi_approved_of(alloc: Global, expression: &Expression<'_>) -> Answer {
    let truth = truth_where(alloc, expression, true)?;
    let other = truth_where(alloc, expression, false)?;
    Ok(format!(in alloc; "{truth}, opposite {other}")?)
}

// The truth where those requirements are true that OSI has approved, or those that it has not.
fn truth_where(
    alloc: Global,
    expression: &Expression<'_>,
    has_approved: bool,
) -> Result<bool, AllocError> {
    expression.evaluate(
        alloc,
        &mut |req: &LicenseReq| is_approved(req) == has_approved,
    )
}

fn is_approved(req: &LicenseReq<'_>) -> bool {
    match req.license.id() {
        Some(id) => id.is_osi_approved(),
        None => false,
    }
}
