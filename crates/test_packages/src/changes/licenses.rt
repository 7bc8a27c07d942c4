// What is answered to a row of how a license changed.

use package_changes::{LicenseChange, Untold, license_change};
use spdx_catalogue::Catalogue;
use spdx_meaning::Relation;
use std::alloc::{AllocError, Global};

/// How the license before the bar changed to the one behind it.
pub(crate) fn license(
    alloc: Global,
    catalogue: &Catalogue,
    licenses: &str,
) -> Result<String, AllocError> {
    let (old, new) = licenses.split_once(" | ").unwrap_or((licenses, ""));
    match license_change(alloc, catalogue, old, new)? {
        LicenseChange::Kept => String::from_str(alloc, "kept"),
        LicenseChange::Rewritten => String::from_str(alloc, "rewritten"),
        LicenseChange::Compared(comparison) => {
            let how = word_of(comparison.relation);
            let before = enough(alloc, &comparison.first_alone)?;
            let now = enough(alloc, &comparison.second_alone)?;
            format!(in alloc; "{how} {before} | {now}")
        }
        LicenseChange::Untold { old, new } => {
            let before = reason(alloc, old)?;
            let now = reason(alloc, new)?;
            format!(in alloc; "untold {before} | {now}")
        }
    }
}

// What the newer license asks beside the older one.
fn word_of(relation: Relation) -> &'static str {
    match relation {
        Relation::Same => "same-meaning",
        Relation::Less => "more",
        Relation::More => "less",
        Relation::Neither => "other",
    }
}

fn enough(alloc: Global, alone: &Option<Vec<String>>) -> Result<String, AllocError> {
    let mut shown = String::new(alloc);
    let Some(names) = alone else {
        return String::from_str(alloc, "-");
    };
    for name in names {
        if !shown.is_empty() {
            shown.push_str(" AND ")?;
        }
        shown.push_str(name.as_str())?;
    }
    Ok(shown)
}

fn reason(alloc: Global, untold: Option<Untold>) -> Result<String, AllocError> {
    match untold {
        None => String::from_str(alloc, "-"),
        Some(Untold::Unstated) => String::from_str(alloc, "unstated"),
        Some(Untold::Unread) => String::from_str(alloc, "unread"),
        Some(Untold::TooManySets(count)) => format!(in alloc; "too-many-sets {count}"),
    }
}
