// What is told of each change, with what a policy says of the packages that it leaves.

ghost use Rattle.std.specs.Prelude.{◌≡◌, ◌++◌, IfOk, OnOk, map};
ghost use Rattle.std.specs.Option.{option_copied};
ghost use Rattle.package_changes.specs.Rows.{row_of};
ghost use Rattle.gate_program.specs.Files.{moved_package};
ghost use Rattle.changes_program.specs.Said.{row_if, said_row};
ghost use Rattle.changes_program.specs.Tellings as spec;
ghost use Rattle.changes_program.specs.Tellings.{
  AreTold,
  IsJudgedBy,
  moved_telling,
  tellings_of,
};

use crate::said::Said;
use package_changes::{Package, Release, Telling};
use spdx_catalogue::Catalogue;
use spdx_gate::{Package as Judged, Report, Row, judge};
use spdx_policy::Policy;
use std::alloc::{AllocError, Global};

/// What is told of each change that is said; where a policy is given, whether it refuses the package that the change leaves.
pub(crate) fn told_of<'s>(
    alloc: Global,
    catalogue: &Catalogue,
    policy: &Option<Policy<'_>>,
    said: &'s [Said<'_>],
) -> Result<Vec<Telling<'s>>, AllocError>
    ensures { IfOk result (λ tellings.
        AreTold catalogue.now policy.now (map said_row said.now) tellings.items) }
{
    match policy {
        Some(policy) => {
            let report = judged(alloc, catalogue, policy, said)?;
            let tellings = tellings_of(alloc, said, Some(&report))?;
            Ok(tellings)
        }
        None => {
            let tellings = tellings_of(alloc, said, None)?;
            Ok(tellings)
        }
    }
}

// What the policy says of the package that each change leaves, a row for each.
fn judged<'c>(
    alloc: Global,
    catalogue: &'c Catalogue,
    policy: &Policy<'c>,
    said: &[Said<'_>],
) -> Result<Report<'c>, AllocError>
    ensures { IfOk result (IsJudgedBy catalogue.now policy.now (map said_row said.now)) }
{
    let packages = packages_of(alloc, said)?;
    judge(alloc, catalogue, policy, &packages)
}

fn packages_of<'s>(alloc: Global, said: &'s [Said<'_>]) -> Result<Vec<Judged<'s>>, AllocError>
    ensures { IfOk result (λ packages. map moved_package packages.items
        ≡ map spec.judged_of (map said_row said.now)) }
{
    let mut packages = Vec::new(alloc);
    for one in said {
        packages.push(judged_of(one))?;
    }
    Ok(packages)
}

// What went is judged as a package of which nothing is stated.
fn judged_of<'s>(said: &'s Said<'_>) -> Judged<'s>
    ensures { moved_package result ≡ spec.judged_of (said_row said.now) }
{
    match &said.new {
        Some(new) => Judged {
            name: new.name,
            version: unless_empty(new.version),
            license: unless_empty(new.license),
        },
        None => Judged {
            name: "",
            version: None,
            license: None,
        },
    }
}

fn unless_empty(text: &str) -> Option<&str>
    ensures { option_copied result ≡ spec.unless_empty text.now }
{
    if text.is_empty() { None } else { Some(text) }
}

// What is told of each; where a report is given, whether its row of what came or changed is refused.
fn tellings_of<'s>(
    alloc: Global,
    said: &'s [Said<'_>],
    report: Option<&Report<'_>>,
) -> Result<Vec<Telling<'s>>, AllocError>
    ensures { IfOk result (λ tellings. map moved_telling tellings.items
        ≡ tellings_of (option_copied report.entry) (map said_row said.now)) }
{
    let mut tellings = Vec::new(alloc);
    for (number, one) in said.iter().enumerate() {
        tellings.push(telling_of(one, row_at(report, number)))?;
    }
    Ok(tellings)
}

fn row_at<'r>(report: Option<&'r Report<'_>>, number: usize) -> Option<&'r Row>
    ensures { option_copied result ≡ spec.row_at (option_copied report.entry) number }
{
    match report {
        Some(report) => report.rows.get(number),
        None => None,
    }
}

fn telling_of<'s>(said: &'s Said<'_>, row: Option<&Row>) -> Telling<'s>
    ensures { moved_telling result
        ≡ spec.telling_of (said_row said.now) (option_copied row.entry) }
{
    Telling {
        how: said.how,
        name: name_of(said),
        old: release(&said.old),
        new: release(&said.new),
        enough_before: said.enough_before.as_str(),
        enough_now: said.enough_now.as_str(),
        untold_before: said.untold_before,
        untold_now: said.untold_now,
        is_refused: said.new.is_some() && is_refused(row),
    }
}

fn is_refused(row: Option<&Row>) -> bool
    ensures { result ≡ spec.is_refused (option_copied row.entry) }
{
    match row {
        Some(row) => !row.verdict.is_allowed(),
        None => false,
    }
}

// The package's name, as the older list has it, else as the newer one does.
fn name_of<'s>(said: &'s Said<'_>) -> &'s str
    ensures { result.now ≡ spec.name_of (said_row said.now) }
{
    match (&said.old, &said.new) {
        (Some(one), _) | (None, Some(one)) => one.name,
        (None, None) => "",
    }
}

fn release<'s>(of: &'s Option<Package<'_>>) -> Option<Release<'s>>
    ensures { spec.moved_release result ≡ spec.release_of (row_if of.now) }
{
    match of {
        Some(one) => Some(Release {
            version: one.version,
            license: one.license,
        }),
        None => None,
    }
}
