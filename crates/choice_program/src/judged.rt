// What a policy says of packages.

ghost use Rattle.std.specs.Prelude.{◌≡◌, IfOk, map};
ghost use Rattle.std.specs.Option.{option_copied};
ghost use Rattle.gate_program.specs.Asked.{lent};
ghost use Rattle.gate_program.specs.Files.{moved_package, view_of};
ghost use Rattle.choice_program.specs.Judged as spec;
ghost use Rattle.choice_program.specs.Judged.{IsReportOn};

use gate_program::view;
use package_sources::Package;
use spdx_catalogue::Catalogue;
use spdx_gate::{Judgement, Package as View, Report, Row, judge};
use spdx_policy::Policy;
use std::alloc::{AllocError, Global};

/// A row for each package, in their order.
#[tactic(auto, using(crate::proofs::Judging::reported))]
pub(crate) fn report_on<'c>(
    alloc: Global,
    catalogue: &'c Catalogue,
    policy: &Policy<'c>,
    packages: &[&Package],
) -> Result<Report<'c>, AllocError>
    ensures { IfOk result (IsReportOn catalogue.now policy.now (map lent packages.now)) }
{
    let views = views_of(alloc, packages)?;
    judge(alloc, catalogue, policy, &views)
}

fn views_of<'p>(alloc: Global, packages: &[&'p Package]) -> Result<Vec<View<'p>>, AllocError>
    ensures { IfOk result (λ views.
        map moved_package views.items ≡ map view_of (map lent packages.now)) }
{
    let mut views = Vec::new(alloc);
    for package in packages {
        views.push(view(*package))?;
    }
    Ok(views)
}

/// The judgement of the package of that number; none, where it states no licence.
pub(crate) fn judgement_at<'r, 'c>(
    report: &'r Report<'c>,
    number: usize,
) -> Option<&'r Judgement<'c>>
    ensures { option_copied result ≡ spec.judgement_at report.now number }
{
    match report.rows.get(number) {
        Some(row) => judgement_in(report, row),
        None => None,
    }
}

fn judgement_in<'r, 'c>(report: &'r Report<'c>, row: &Row) -> Option<&'r Judgement<'c>>
    ensures { option_copied result ≡ spec.judgement_in report.now row.now }
{
    match row.judgement {
        Some(place) => report.judgements.get(place),
        None => None,
    }
}
