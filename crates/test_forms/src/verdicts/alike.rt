// Packages of which the same is told, once.

use crate::verdicts::packages::package;
use finding_forms::Style;
use gate_forms::{Advice, Leaf, Mark, Report, Verdict, Why, put_refusals};
use std::alloc::{AllocError, Global};

/// Appends refused packages, of which three and two are refused alike, among others.
pub(crate) fn put_alike(alloc: Global, shown: &mut Vec<u8>) -> Result<(), AllocError> {
    let missing = [Leaf {
        text: "Zlib",
        start: 0,
        end: 4,
        mark: Mark::Open,
        by: "",
    }];
    let advised = lacking(&missing, Advice::Allow(&["Zlib"]));
    let unmet = lacking(&missing, Advice::Unmet);
    let unstated = Verdict::Unstated { allowed: false };
    let reports: [Report<'_>; 8] = [
        package("a", "Zlib", Verdict::Refused, advised, &[]),
        package("b", "", unstated, Why::Nothing, &[]),
        package("c", "Zlib", Verdict::Allowed, Why::Nothing, &[]),
        package("d", "Zlib", Verdict::Refused, advised, &[]),
        package("e", "Zlib", Verdict::Refused, unmet, &[]),
        package("f\n", "Zlib", Verdict::Refused, advised, &[]),
        package("g", "", unstated, Why::Nothing, &[]),
        package("h", "Zlib OR 0BSD", Verdict::Refused, advised, &[]),
    ];
    put_refusals(alloc, shown, Style::Plain, &reports)
}

fn lacking<'r>(leaves: &'r [Leaf<'r>], advice: Advice<'r>) -> Why<'r> {
    Why::Missing { leaves, advice }
}
