// The calls that are measured. Each is counted that gives `Ok`.

use spdx::{Catalogue, ParseMode};
use spdx_lines::LineMode;
use std::alloc::Global;

// A call on a text.
#[derive(Clone, Copy)]
pub(crate) enum Call<'l> {
    // Whether it is an expression, by the list of these bytes.
    Whole(&'l [u8]),
    // The same, by a list that was read.
    Check(&'l Catalogue),
    // Its requirements.
    Requirements(&'l Catalogue),
    // Its truth where its one requirement is not met.
    Truth(&'l Catalogue),
}

fn check(alloc: Global, catalogue: &Catalogue, line: &[u8]) -> bool {
    spdx_calls::check(alloc, catalogue, ParseMode::STRICT, line).is_ok()
}

fn check_whole(alloc: Global, list: &[u8], line: &[u8]) -> bool {
    match Catalogue::from_json(alloc, list) {
        Ok(catalogue) => check(alloc, &catalogue, line),
        Err(_) => false,
    }
}

fn is_ok(alloc: Global, call: Call<'_>, line: &[u8]) -> bool {
    let mut room = [0u8; 512];
    match call {
        Call::Whole(list) => check_whole(alloc, list, line),
        Call::Check(catalogue) => check(alloc, catalogue, line),
        Call::Requirements(catalogue) => {
            spdx_calls::requirements(alloc, catalogue, ParseMode::STRICT, line, &mut room).is_ok()
        }
        Call::Truth(catalogue) => {
            spdx_calls::evaluate_bits(alloc, catalogue, ParseMode::STRICT, line, &[0], 1).is_ok()
        }
    }
}

// How many calls on all lines, so many times over, gave `Ok`.
pub(crate) fn total(alloc: Global, call: Call<'_>, lines: &[&[u8]], times: u64) -> u64 {
    let mut ok = 0u64;
    for _ in 0..times {
        for line in lines {
            ok = ok.saturating_add(u64::from(is_ok(alloc, call, *line)));
        }
    }
    ok
}

// How many lines are accepted, and how many there are.
pub(crate) fn answered_lines(alloc: Global, list: &[u8], text: &[u8]) -> (u64, u64) {
    let Ok(catalogue) = Catalogue::from_json(alloc, list) else {
        return (0, 0);
    };
    match spdx_calls::lines(alloc, &catalogue, LineMode::Strict, b"MIT\n", text, &mut []) {
        Ok(told) => (
            told.summary.lines.saturating_sub(told.summary.refused),
            told.summary.lines,
        ),
        Err(_) => (0, 0),
    }
}
