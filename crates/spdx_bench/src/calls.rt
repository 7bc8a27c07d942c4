// The calls that are measured. Each gives a number, and the numbers are added up.

use spdx::lexer::Lexer;
use spdx::{Catalogue, Expression, LicenseItem, LicenseReq, Licensee, ParseMode};
use std::alloc::Global;

// A call on a text.
#[derive(Clone, Copy)]
pub(crate) enum Reading {
    // The number of its tokens, a fault among them.
    Tokens(ParseMode),
    // 1 if it is accepted.
    Tree(ParseMode),
    // 1 if its canonical text is another one.
    Canonical,
}

// A call on an expression.
#[derive(Clone, Copy)]
pub(crate) enum Question<'r, 'c> {
    // 1 if it is true where approved licences are allowed.
    Truth,
    // How many of these licensees are in the least choice.
    Choice(&'r [Licensee<'c>]),
}

fn count_tokens(catalogue: &Catalogue, mode: ParseMode, text: &str) -> u64 {
    let mut count = 0u64;
    let mut lexer = Lexer::new_mode(catalogue, text, mode);
    for _ in lexer.by_ref() {
        count = count.saturating_add(1);
    }
    count
}

fn read(alloc: Global, catalogue: &Catalogue, call: Reading, text: &str) -> u64 {
    match call {
        Reading::Tokens(mode) => count_tokens(catalogue, mode, text),
        Reading::Tree(mode) => {
            u64::from(Expression::parse_mode(alloc, catalogue, text, mode).is_ok())
        }
        Reading::Canonical => match Expression::canonicalize(alloc, catalogue, text) {
            Ok(Some(_)) => 1,
            _ => 0,
        },
    }
}

fn is_approved(req: &LicenseReq<'_>) -> bool {
    match &req.license {
        LicenseItem::Spdx { id, .. } => id.is_osi_approved(),
        LicenseItem::Other(_) => false,
    }
}

fn truth(alloc: Global, expression: &Expression<'_>) -> u64 {
    let mut policy = |req: &LicenseReq<'_>| is_approved(req);
    match expression.evaluate(alloc, &mut policy) {
        Ok(true) => 1,
        _ => 0,
    }
}

fn choice<'c>(alloc: Global, expression: &Expression<'c>, accepted: &[Licensee<'c>]) -> u64 {
    match expression.minimized_requirements(alloc, accepted) {
        Ok(chosen) => chosen.len() as u64,
        Err(_) => 0,
    }
}

fn ask<'c>(alloc: Global, expression: &Expression<'c>, call: Question<'_, 'c>) -> u64 {
    match call {
        Question::Truth => truth(alloc, expression),
        Question::Choice(accepted) => choice(alloc, expression, accepted),
    }
}

// What the call gives on all lines, so many times over.
pub(crate) fn total_of_readings(
    alloc: Global,
    catalogue: &Catalogue,
    call: Reading,
    lines: &[&str],
    times: u64,
) -> u64 {
    let mut total = 0u64;
    for _ in 0..times {
        for line in lines {
            total = total.saturating_add(read(alloc, catalogue, call, *line));
        }
    }
    total
}

// What the call gives on all expressions, so many times over.
pub(crate) fn total_of_answers<'c>(
    alloc: Global,
    expressions: &[Expression<'c>],
    call: Question<'_, 'c>,
    times: u64,
) -> u64 {
    let mut total = 0u64;
    for _ in 0..times {
        for expression in expressions {
            total = total.saturating_add(ask(alloc, expression, call));
        }
    }
    total
}
