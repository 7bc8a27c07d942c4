// What is written of the packages.

use crate::verdicts::packages::{HOSTILE, package};
use finding_forms::Style;
use gate_forms::{
    Report, Totals, Verdict, Why, put_explained, put_github, put_human, put_json, put_page,
    put_sarif_beginning, put_sarif_ending, put_sarif_result, put_short, put_totals, put_unused,
};
use std::alloc::{AllocError, Global};

/// Appends each package in each form, and the page.
pub(crate) fn put_all(alloc: Global, shown: &mut Vec<u8>) -> Result<(), AllocError> {
    let fault = Why::Fault {
        reason: "unknown <term>",
        start: 4,
        end: 9,
    };
    let unstated = Verdict::Unstated { allowed: false };
    put_each(
        alloc,
        shown,
        &package(HOSTILE, "MIT\tAPCHE", Verdict::Refused, fault, &[]),
    )?;
    put_each(
        alloc,
        shown,
        &package("left-pad", "", unstated, Why::Nothing, &[]),
    )?;
    put_each(
        alloc,
        shown,
        &package("serde", "MIT", Verdict::Allowed, Why::Nothing, &[]),
    )
}

// The package in each form.
fn put_each(alloc: Global, shown: &mut Vec<u8>, report: &Report<'_>) -> Result<(), AllocError> {
    put_human(alloc, shown, Style::Plain, report)?;
    put_human(alloc, shown, Style::Coloured, report)?;
    put_explained(alloc, shown, Style::Plain, report)?;
    put_short(alloc, shown, report)?;
    put_github(alloc, shown, report)?;
    put_json(alloc, shown, report)?;
    put_sarif_beginning(alloc, shown, "0.1")?;
    put_sarif_result(alloc, shown, true, report)?;
    put_sarif_ending(shown)?;
    let totals = Totals {
        packages: 1,
        allowed: 0,
        by_exception: 0,
        refused: 1,
        unstated: 0,
    };
    put_totals(alloc, shown, &totals)?;
    put_unused(alloc, shown, "policy.toml", &["allow \"Zlib\"\n"])?;
    put_page(
        alloc,
        shown,
        "policy.toml",
        &totals,
        std::slice::from_ref(report),
    )
}
