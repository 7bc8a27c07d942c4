// Expressions of more than 200 bytes.

use crate::verdicts::packages::package;
use finding_forms::Style;
use gate_forms::{Advice, Leaf, Mark, Report, Verdict, Why, put_explained, put_human};
use std::alloc::{AllocError, Global};

// The fault stands behind 140 bytes, and before 140.
const FAULTY: &str = "MIT OR MIT OR MIT OR MIT OR MIT OR MIT OR MIT OR MIT OR MIT OR MIT OR \
    MIT OR MIT OR MIT OR MIT OR MIT OR MIT OR MIT OR MIT OR MIT OR MIT OR Zlib2 \
    OR MIT OR MIT OR MIT OR MIT OR MIT OR MIT OR MIT OR MIT OR MIT OR MIT \
    OR MIT OR MIT OR MIT OR MIT OR MIT OR MIT OR MIT OR MIT OR MIT OR MIT";

// ISC stands behind 216 bytes.
const READ: &str = "MIT AND MIT AND MIT AND MIT AND MIT AND MIT AND MIT AND MIT AND MIT AND \
    MIT AND MIT AND MIT AND MIT AND MIT AND MIT AND MIT AND MIT AND MIT AND \
    MIT AND MIT AND MIT AND MIT AND MIT AND MIT AND MIT AND MIT AND MIT AND ISC";

/// Appends a package whose expression is none, which is shown round the fault, and one whose expression is read, which
/// is shown whole.
pub(crate) fn put_long(alloc: Global, shown: &mut Vec<u8>) -> Result<(), AllocError> {
    let fault = Why::Fault {
        reason: "unknown term",
        start: 140,
        end: 145,
    };
    put_both(alloc, shown, FAULTY, fault)?;
    let isc = Leaf {
        text: "ISC",
        start: 216,
        end: 219,
        mark: Mark::Open,
        by: "",
    };
    let missing = Why::Missing {
        leaves: &[isc],
        advice: Advice::Allow(&["ISC"]),
    };
    put_both(alloc, shown, READ, missing)
}

fn put_both(
    alloc: Global,
    shown: &mut Vec<u8>,
    expression: &str,
    why: Why<'_>,
) -> Result<(), AllocError> {
    let report: Report<'_> = package("reader", expression, Verdict::Refused, why, &[]);
    put_human(alloc, shown, Style::Plain, &report)?;
    put_human(alloc, shown, Style::Coloured, &report)?;
    put_explained(alloc, shown, Style::Plain, &report)
}
