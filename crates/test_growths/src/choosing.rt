// Licensees that are chosen.

use crate::end::{Answer, End};
use crate::lent::{Lent, licensees};
use spdx::{
    AcceptedLicensees, Catalogue, Expression, ExpressionJudge, Licensee, minimized_for_all,
};
use std::alloc::{AllocError, Global};

const TEXT: &str = "(MIT AND LicenseRef-a) OR Zlib";

const OTHER: &str = "LicenseRef-a OR Apache-2.0";

// In the order of their priority.
const ACCEPTED: [&str; 3] = ["MIT", "LicenseRef-a", "Zlib"];

/// What the call of that name answers.
pub(crate) fn answer(alloc: Global, catalogue: &Catalogue, call: &str) -> Answer {
    let lent = Lent::new(alloc, catalogue, TEXT)?;
    by_licensees(alloc, catalogue, &lent, call)
}

fn by_licensees<'c>(
    alloc: Global,
    catalogue: &'c Catalogue,
    lent: &Lent<'c>,
    call: &str,
) -> Answer {
    let accepted = licensees(alloc, catalogue, &ACCEPTED)?;
    match call {
        "ExpressionJudge::new" => judge(alloc, lent, &accepted),
        "minimized_requirements" => for_one(alloc, lent, &accepted),
        "minimized_among" => among(alloc, lent, &accepted),
        _ => {
            let other = Expression::parse(alloc, catalogue, OTHER)?;
            for_two(alloc, lent, &both(lent, &other), &accepted, call)
        }
    }
}

// What the call of that name answers for two expressions.
fn for_two<'c>(
    alloc: Global,
    lent: &Lent<'c>,
    expressions: &[&Expression<'c>],
    accepted: &[Licensee<'c>],
    call: &str,
) -> Answer {
    match call {
        "ExpressionJudge::new_all" => joint_judge(alloc, lent, expressions, accepted),
        "minimized_for_all" => {
            lent.chosen(alloc, minimized_for_all(alloc, expressions, accepted))
        }
        _ => Err(End::Otherwise("no call has that name")),
    }
}

fn both<'l, 'c>(one: &'l Lent<'c>, other: &'l Expression<'c>) -> [&'l Expression<'c>; 2] {
    [&one.expression, other]
}

// The licensees, lent.
fn members<'l, 'c>(
    alloc: Global,
    accepted: &'l [Licensee<'c>],
) -> Result<Vec<&'l Licensee<'c>>, AllocError> {
    let mut members = Vec::new(alloc);
    for licensee in accepted {
        members.push(licensee)?;
    }
    Ok(members)
}

fn judge<'c>(alloc: Global, lent: &Lent<'c>, accepted: &[Licensee<'c>]) -> Answer {
    let members = members(alloc, accepted)?;
    made(
        alloc,
        lent,
        ExpressionJudge::new(alloc, &lent.expression, members.as_slice()),
    )
}

fn joint_judge<'c>(
    alloc: Global,
    lent: &Lent<'c>,
    expressions: &[&Expression<'c>],
    accepted: &[Licensee<'c>],
) -> Answer {
    let members = members(alloc, accepted)?;
    made(
        alloc,
        lent,
        ExpressionJudge::new_all(alloc, expressions, members.as_slice()),
    )
}

fn made(
    alloc: Global,
    lent: &Lent<'_>,
    judge: Result<ExpressionJudge<'_, '_>, AllocError>,
) -> Answer {
    match judge {
        Ok(judge) => Ok(format!(in alloc; "{} questions", judge.asked())?),
        Err(AllocError) => Err(lent.end()),
    }
}

fn for_one<'c>(alloc: Global, lent: &Lent<'c>, accepted: &[Licensee<'c>]) -> Answer {
    lent.chosen(
        alloc,
        lent.expression.minimized_requirements(alloc, accepted),
    )
}

fn among<'c>(alloc: Global, lent: &Lent<'c>, accepted: &[Licensee<'c>]) -> Answer {
    among_twice(alloc, lent, &mut AcceptedLicensees::new(alloc, accepted))
}

// Twice, so that the second choice has what the first one left in memory, if there was some.
fn among_twice<'c>(
    alloc: Global,
    lent: &Lent<'c>,
    accepted: &mut AcceptedLicensees<'_, 'c>,
) -> Answer {
    let choice = lent.expression.minimized_among(alloc, accepted);
    let first = lent.chosen(alloc, choice)?;
    let choice = lent.expression.minimized_among(alloc, accepted);
    let second = lent.chosen(alloc, choice)?;
    if first == second {
        Ok(second)
    } else {
        Err(End::Otherwise("another choice"))
    }
}
