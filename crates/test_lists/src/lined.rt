//! Lists as lines: which catalogue they are, and that the list inside is the same so as in JSON.

use crate::made::shown::{Rows, rows_text};
use list_program::{LinesFault, catalogue_in_lines, day_in_lines};
use spdx_catalogue::Catalogue;
use spdx_known::LINES;
use spdx_requirement::failure::Failure;
use std::alloc::{AllocError, Global};

/// Lines, and what is read of them: version and day, and how many licences, exceptions and imprecise names; or why they are none.
const ROWS: [(&str, &str); 10] = [
    ("v\u{c}\u{c}\u{c}", "v -: 0 0 0"),
    ("v\t2025-07-01\u{c}\u{c}\u{c}", "v 2025-07-01: 0 0 0"),
    (
        "v\u{c}0\tx\n\u{c}1\tA\tA B\n3\tB\tC\n\u{c}a b\tA\n",
        "v -: 2 1 1",
    ),
    ("v\u{c}\u{c}1\tA\tA\tB\n\u{c}", "v -: 1 0 0"),
    ("", "NotLines"),
    ("v\u{c}\u{c}", "NotLines"),
    ("v\u{c}\u{c}A\tA\n\u{c}", "NotLines"),
    ("v\u{c}\u{c}12\tA\tA\n\u{c}", "NotLines"),
    (
        "v\u{c}\u{c}1\tB\tB\n1\tA\tA\n\u{c}",
        "Catalogue(NotAscending(Licenses, 1))",
    ),
    (
        "v\u{c}\u{c}1\tA\tA\n\u{c}a b\tB\n",
        "Catalogue(UnlistedTarget(0))",
    ),
];

fn read(alloc: Global, text: &str) -> Result<String, AllocError> {
    match catalogue_in_lines(alloc, text) {
        Ok(catalogue) => shown(alloc, &catalogue, text),
        Err(Failure::Refused(LinesFault::NotLines)) => String::from_str(alloc, "NotLines"),
        Err(Failure::Refused(fault)) => format!(in alloc; "{fault:?}"),
        Err(Failure::Memory(error)) => Err(error),
    }
}

fn shown(alloc: Global, catalogue: &Catalogue, text: &str) -> Result<String, AllocError> {
    let day = day_in_lines(alloc, text)?;
    let day = match &day {
        Some(day) => day.as_str(),
        None => "-",
    };
    let version = catalogue.license_version();
    let licenses = catalogue.licenses().len();
    let exceptions = catalogue.exceptions().len();
    let imprecise = catalogue.imprecise_names().len();
    format!(in alloc; "{version} {day}: {licenses} {exceptions} {imprecise}")
}

/// Appends the rows that don't hold, and whether the list inside is the same in both forms; gives whether all is as it has to
/// be.
pub(crate) fn try_rows(
    alloc: Global,
    told: &mut String,
    inside: &Catalogue,
) -> Result<bool, AllocError> {
    let mut is_good = true;
    for (text, wanted) in ROWS {
        let answered = read(alloc, text)?;
        if answered.as_str() != wanted {
            told.push_str(format!(in alloc; "{text:?}: {answered}\n")?.as_str())?;
            is_good = false;
        }
    }
    let is_same = is_inside(alloc, inside)?;
    told.push_str(format!(in alloc; "the list inside as lines: {is_same}\n")?.as_str())?;
    Ok(is_good && is_same)
}

// Whether the lines inside are this list.
fn is_inside(alloc: Global, inside: &Catalogue) -> Result<bool, AllocError> {
    match catalogue_in_lines(alloc, LINES) {
        Ok(lines) => Ok(rows_text(alloc, rows(&lines))? == rows_text(alloc, rows(inside))?),
        Err(_) => Ok(false),
    }
}

fn rows(catalogue: &Catalogue) -> Rows<'_> {
    Rows {
        version: catalogue.license_version(),
        licenses: catalogue.licenses(),
        exceptions: catalogue.exceptions(),
        imprecise: catalogue.imprecise_names(),
    }
}
