// Refusals beside a baseline: one that is new, two that are known, and a package that is allowed.

use crate::verdicts::packages::package;
use gate_forms::{
    Baseline, Report, Totals, Verdict, Why, put_json, put_known, put_page, put_sarif_beginning,
    put_sarif_ending, put_sarif_result,
};
use std::alloc::{AllocError, Global};

/// Appends them in each form that tells of a baseline, and the line of those that are known.
pub(crate) fn put_beside_baseline(alloc: Global, shown: &mut Vec<u8>) -> Result<(), AllocError> {
    let reports = all();
    for report in &reports {
        put_json(alloc, shown, report)?;
    }
    put_sarif(alloc, shown, &reports)?;
    let totals = Totals {
        packages: 4,
        allowed: 1,
        by_exception: 0,
        refused: 2,
        unstated: 1,
    };
    put_page(alloc, shown, "policy.toml", &totals, &reports)?;
    put_known(alloc, shown, "old\n.json", &reports)?;
    put_known(alloc, shown, "old.json", &reports[..1])?;
    put_known(alloc, shown, "old.json", &reports[1..2])
}

fn all<'r>() -> [Report<'r>; 4] {
    let fault = Why::Fault {
        reason: "unknown term",
        start: 0,
        end: 5,
    };
    let unstated = Verdict::Unstated { allowed: false };
    [
        beside("a", "APCHE", Verdict::Refused, fault, Baseline::New),
        beside("b", "APCHE", Verdict::Refused, fault, Baseline::Known),
        beside("c\n", "", unstated, Why::Nothing, Baseline::Known),
        beside("d", "MIT", Verdict::Allowed, Why::Nothing, Baseline::Known),
    ]
}

fn beside<'r>(
    name: &'r str,
    expression: &'r str,
    verdict: Verdict,
    why: Why<'r>,
    baseline: Baseline,
) -> Report<'r> {
    let mut report = package(name, expression, verdict, why, &[]);
    report.baseline = baseline;
    report
}

fn put_sarif(
    alloc: Global,
    shown: &mut Vec<u8>,
    reports: &[Report<'_>; 4],
) -> Result<(), AllocError> {
    put_sarif_beginning(alloc, shown, "0.1")?;
    put_sarif_result(alloc, shown, true, &reports[0])?;
    put_sarif_result(alloc, shown, false, &reports[1])?;
    put_sarif_ending(shown)
}
