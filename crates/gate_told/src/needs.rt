// What would make all packages pass.

ghost use Rattle.std.specs.Prelude.{◌≡◌, ◌++◌, IfOk, OnErr, OnOk, map};
ghost use Rattle.gate_forms.specs.Summary.{summary_text};
ghost use Rattle.spdx_gate.specs.Needs.{need_entry, need_packages};
ghost use Rattle.gate_told.specs.Needs.{TellsEnough, summary_of, told_needed, told_packages};

use gate_forms::{Need, Summary, put_summary};
use spdx_gate::{Need as Needed, Report};
use std::alloc::{AllocError, Global};

/// Appends which entries in `allow` would make the refused packages pass, and how many of them need each; how many packages
/// nothing makes pass that may be allowed, and for how many that wasn't sought. With the entries that are told in `allow`
/// each refused package passes that something helps.
///
/// Takes `n log n` comparisons of texts, for `n` entries of the advice on all packages.
///
/// # Errors
///
/// Memory was refused, and the text is as it was.
pub fn put_needs(alloc: Global, text: &mut Vec<u8>, report: &Report<'_>) -> Result<(), AllocError>
    ensures ok { OnOk result (text.new.items ≡ text.old.items
        ++ summary_text (summary_of report.now)) }
    ensures err { OnErr result (text.new.items ≡ text.old.items) }
    ensures enough { OnOk result (TellsEnough report.now) }
{
    let needed = report.needs(alloc)?;
    let needs = told_needs(alloc, &needed)?;
    let summary = Summary {
        needs: &needs,
        unmet: report.unmet() as u64,
        not_sought: report.unsought() as u64,
    };
    put_summary(alloc, text, &summary)
}

fn told_needs<'n>(alloc: Global, needed: &'n [Needed]) -> Result<Vec<Need<'n>>, AllocError>
    ensures entries { IfOk result (λ needs.
        map told_needed needs.items ≡ map need_entry needed.now) }
    ensures packages { IfOk result (λ needs.
        map told_packages needs.items ≡ map need_packages needed.now) }
{
    let mut needs = Vec::new(alloc);
    for need in needed {
        needs.push(Need {
            entry: need.entry.as_str(),
            packages: need.packages as u64,
        })?;
    }
    Ok(needs)
}
