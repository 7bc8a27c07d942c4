// Orders of ids, items and requirements.

use crate::answer::{Answer, said};
use spdx::expression::ExpressionReq;
use spdx::{Catalogue, Expression};
use std::alloc::Global;
use std::cmp::Ordering;

// Whether two requirements, and their licences, are ordered so, and equal where they are level.
fn are_ordered(one: &ExpressionReq<'_>, other: &ExpressionReq<'_>, order: Ordering) -> bool {
    let (a, b) = (&one.req, &other.req);
    a.cmp(b) == order && a.partial_cmp(b) == Some(order) && (a == b) == (order == Ordering::Equal)
}

/// Whether the requirements of the text ascend, each pair of them taken both ways.
pub(crate) fn ascending(alloc: Global, catalogue: &Catalogue, text: &str) -> Answer {
    let expression = Expression::parse(alloc, catalogue, text)?;
    said(alloc, do_ascend(&expression))
}

fn do_ascend(expression: &Expression<'_>) -> bool {
    let mut ascend = true;
    for (i, one) in expression.requirements().enumerate() {
        for (j, other) in expression.requirements().enumerate() {
            ascend &= are_ordered(one, other, i.cmp(&j));
        }
    }
    ascend
}

/// Whether the licences of the requirements of the text ascend.
pub(crate) fn licenses_ascending(alloc: Global, catalogue: &Catalogue, text: &str) -> Answer {
    let expression = Expression::parse(alloc, catalogue, text)?;
    said(alloc, do_licenses_ascend(&expression))
}

fn do_licenses_ascend(expression: &Expression<'_>) -> bool {
    let mut ascend = true;
    for (i, one) in expression.requirements().enumerate() {
        for (j, other) in expression.requirements().enumerate() {
            let (a, b) = (&one.req.license, &other.req.license);
            ascend &= a.cmp(b) == i.cmp(&j) && (a == b) == (i == j);
            ascend &= a.partial_cmp(b) == Some(i.cmp(&j));
        }
    }
    ascend
}
