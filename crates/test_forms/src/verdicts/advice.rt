// What would help, in the forms that tell it.

use crate::verdicts::packages::package;
use finding_forms::Style;
use gate_forms::{
    Advice, Leaf, Mark, Report, Verdict, Why, put_explained, put_human, put_json, put_short,
};
use std::alloc::{AllocError, Global};

/// Appends a package that lacks a licence: nothing helps, something does, and that was not sought.
pub(crate) fn put_advised(alloc: Global, shown: &mut Vec<u8>) -> Result<(), AllocError> {
    put_advice(alloc, shown, Advice::Unmet)?;
    put_advice(alloc, shown, Advice::Allow(&["ISC", "Zlib\n"]))?;
    put_advice(alloc, shown, Advice::NotSought { entries: 1025 })
}

fn put_advice(alloc: Global, shown: &mut Vec<u8>, advice: Advice<'_>) -> Result<(), AllocError> {
    let missing = [
        leaf("ISC", 9, 12, Mark::Open, ""),
        leaf(
            "AGPL-3.0-only",
            16,
            29,
            Mark::Denied,
            "deny \"AGPL-3.0-only\"",
        ),
    ];
    let why = Why::Missing {
        leaves: &missing,
        advice,
    };
    put_lacking(
        alloc,
        shown,
        &package(
            "reader",
            "MIT AND (ISC OR AGPL-3.0-only)",
            Verdict::Refused,
            why,
            &[],
        ),
    )
}

fn leaf<'r>(text: &'r str, start: usize, end: usize, mark: Mark, by: &'r str) -> Leaf<'r> {
    Leaf {
        text,
        start,
        end,
        mark,
        by,
    }
}

fn put_lacking(alloc: Global, shown: &mut Vec<u8>, report: &Report<'_>) -> Result<(), AllocError> {
    put_human(alloc, shown, Style::Plain, report)?;
    put_explained(alloc, shown, Style::Plain, report)?;
    put_short(alloc, shown, report)?;
    put_json(alloc, shown, report)
}
