// What stands behind the packages.

use gate_forms::{Need, Summary, put_summary, put_unused};
use std::alloc::{AllocError, Global};

/// Appends warnings of entries that are not used, and what would make all packages pass.
pub(crate) fn put_behind(alloc: Global, shown: &mut Vec<u8>) -> Result<(), AllocError> {
    put_unused(alloc, shown, "policy.toml", &[])?;
    let unused = [
        "deny \"AGPL-3.0-only\"",
        "allow-if \"osi-approved\"",
        "clarify for left-pad",
    ];
    put_unused(alloc, shown, "a\nb", &unused)?;
    let needs = [
        need("Unicode-3.0", 16),
        need("MPL-2.0", 2),
        need("LicenseRef-a\nb", 1),
    ];
    put(alloc, shown, &needs, 3, 1)?;
    put(alloc, shown, &[need("ISC", 1)], 0, 0)?;
    put(alloc, shown, &[], 1, 0)?;
    put(alloc, shown, &[], 0, 0)
}

fn need<'r>(entry: &'r str, packages: u64) -> Need<'r> {
    Need { entry, packages }
}

fn put(
    alloc: Global,
    shown: &mut Vec<u8>,
    needs: &[Need<'_>],
    unmet: u64,
    not_sought: u64,
) -> Result<(), AllocError> {
    let summary = Summary {
        needs,
        unmet,
        not_sought,
    };
    put_summary(alloc, shown, &summary)
}
