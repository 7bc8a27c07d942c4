// Choices by a policy.
//
// A line `==` stands between two sections. A section is a policy in TOML, then a line `--` and rows, one for each package:
//
//     PACKAGE VERSION EXPRESSION => ALONE ; TOGETHER
//
// ALONE is what the package is used under by its own choice, and TOGETHER by the one choice for all packages of the section.

mod answers;

use crate::choices::answers::{Rows, answers, read_rows};
use spdx_catalogue::Catalogue;
use spdx_licensee::Replacements;
use spdx_policy::Policy;
use std::alloc::{AllocError, Global};
use test_rows::Tally;

/// Appends the rows that don't hold, and how many do; gives whether all do.
pub(crate) fn try_rows(
    alloc: Global,
    shown: &mut String,
    catalogue: &Catalogue,
    text: &str,
) -> Result<bool, AllocError> {
    let mut tally = Tally::new();
    for section in text.split("==\n") {
        try_section(alloc, shown, &mut tally, catalogue, section)?;
    }
    tally.end(shown)
}

fn try_section(
    alloc: Global,
    shown: &mut String,
    tally: &mut Tally,
    catalogue: &Catalogue,
    section: &str,
) -> Result<(), AllocError> {
    let (text, lines) = section.split_once("--\n").unwrap_or((section, ""));
    let replacements = Replacements::new(alloc);
    let Ok(policy) = Policy::from_toml(alloc, catalogue, replacements, text.as_bytes()) else {
        return tally.count(shown, text, "a policy", "none");
    };
    try_lines(alloc, shown, tally, catalogue, (&policy, lines))
}

fn try_lines<'c>(
    alloc: Global,
    shown: &mut String,
    tally: &mut Tally,
    catalogue: &'c Catalogue,
    (policy, lines): (&Policy<'c>, &str),
) -> Result<(), AllocError> {
    let rows = read_rows(alloc, catalogue, policy, lines)?;
    count_all(alloc, shown, tally, &rows)
}

fn count_all(
    alloc: Global,
    shown: &mut String,
    tally: &mut Tally,
    rows: &Rows<'_>,
) -> Result<(), AllocError> {
    let given = answers(alloc, rows)?;
    for (place, answered) in given.iter().enumerate() {
        let asked = rows.asked.get(place).map_or("", |text| text.as_str());
        let wanted = rows.wanted.get(place).map_or("", |text| text.as_str());
        tally.count(shown, asked, wanted, answered.as_str())?;
    }
    Ok(())
}
