// What was refused before.

ghost use Rattle.std.specs.Prelude.{◌≡◌, ◌++◌, IfOk, OnOk, filter, flat_map, map, string_bytes};
ghost use Rattle.gate_program.specs.Asked as spec;
ghost use Rattle.gate_program.specs.Asked.{
  asked_as,
  asked_of,
  is_line,
  lent,
  moved_asked,
  packages_in,
  refusal_in,
  text_in,
  told_name,
};
ghost use Rattle.gate_program.specs.Before.{AreKnown, IsBefore};
ghost use Rattle.std.specs.Option.{option_copied};

use crate::judging::judged;
use crate::known::{Refusal, known_among};
use package_files::Listed;
use package_sources::{Package, Spot};
use spdx_catalogue::Catalogue;
use spdx_gate::{Report, Row};
use spdx_policy::Policy;
use std::alloc::{AllocError, Global};

/// Which packages of a run are refused in an older file too.
#[derive(Drop)]
pub struct Before {
    /// The older file.
    pub older: Vec<Listed>,
    /// Of each package of the run, in order, whether one of its name and license is refused there.
    pub known: Vec<bool>,
}

// A package, as its refusal would be, and whether it is refused.
#[derive(Clone, Copy)]
struct Asked<'t> {
    refusal: Refusal<'t>,
    is_refused: bool,
}

/// What the policy refuses in the older files, beside this report of these files.
pub(crate) fn refused_before<'c>(
    alloc: Global,
    catalogue: &'c Catalogue,
    policy: &Policy<'c>,
    older: Vec<Listed>,
    files: &[Listed],
    report: &Report<'_>,
) -> Result<Before, AllocError>
    ensures { IfOk result (
        IsBefore catalogue.now policy.now older.items files.now report.now) }
{
    let older_report = judged(alloc, catalogue, policy, &older)?;
    let known = known_in(alloc, &older, &older_report, files, report)?;
    Ok(Before { older, known })
}

// Of each package of these files whether one of its name and license is refused in the older files.
fn known_in<'t>(
    alloc: Global,
    older: &'t [Listed],
    older_report: &'t Report<'_>,
    files: &'t [Listed],
    report: &'t Report<'_>,
) -> Result<Vec<bool>, AllocError>
    ensures { IfOk result (λ known.
        AreKnown older.now older_report.now files.now report.now known.items) }
{
    let before = asked_in(alloc, older, older_report)?;
    let now = asked_in(alloc, files, report)?;
    let refused = refused_of(alloc, &before)?;
    let refusals = refusals_of(alloc, &now)?;
    let known = known_among(alloc, &refused, &refusals)?;
    Ok(known)
}

// The packages that are refused.
fn refused_of<'t>(alloc: Global, all: &[Asked<'t>]) -> Result<Vec<Refusal<'t>>, AllocError>
    ensures { IfOk result (λ refusals. refusals.items
        ≡ map refusal_in (filter (λ a. a.is_refused) all.now)) }
{
    let mut refusals = Vec::new(alloc);
    for one in all {
        if one.is_refused {
            refusals.push(one.refusal)?;
        }
    }
    Ok(refusals)
}

// All of them, as if they were refused.
fn refusals_of<'t>(alloc: Global, all: &[Asked<'t>]) -> Result<Vec<Refusal<'t>>, AllocError>
    ensures { IfOk result (λ refusals. refusals.items ≡ map refusal_in all.now) }
{
    let mut refusals = Vec::new(alloc);
    for one in all {
        refusals.push(one.refusal)?;
    }
    Ok(refusals)
}

// Each package of the files that has a row.
fn asked_in<'t>(
    alloc: Global,
    files: &'t [Listed],
    report: &'t Report<'_>,
) -> Result<Vec<Asked<'t>>, AllocError>
    ensures { IfOk result (λ all.
        map moved_asked all.items ≡ asked_of report.now (packages_in files.now)) }
{
    let packages = packages_of(alloc, files)?;
    let all = asked_of(alloc, &packages, report)?;
    Ok(all)
}

fn asked_of<'t>(
    alloc: Global,
    packages: &[&'t Package],
    report: &'t Report<'_>,
) -> Result<Vec<Asked<'t>>, AllocError>
    ensures { IfOk result (λ all.
        map moved_asked all.items ≡ asked_of report.now (map lent packages.now)) }
{
    let mut all = Vec::new(alloc);
    for (number, package) in packages.iter().enumerate() {
        add_asked(&mut all, report, *package, report.rows.get(number))?;
    }
    Ok(all)
}

// The package with this row, if it has one.
fn add_asked<'t>(
    all: &mut Vec<Asked<'t>>,
    report: &'t Report<'_>,
    listed: &'t Package,
    row: Option<&Row>,
) -> Result<(), AllocError>
    ensures { OnOk result (map moved_asked all.new.items
        ≡ map moved_asked all.old.items
        ++ spec.asked_at report.now listed.now (option_copied row.entry)) }
{
    if let Some(row) = row {
        all.push(Asked {
            refusal: Refusal {
                name: name_of(listed),
                license: text_of(report, row),
            },
            is_refused: !row.verdict.is_allowed(),
        })?;
    }
    Ok(())
}

fn packages_of<'t>(alloc: Global, files: &'t [Listed]) -> Result<Vec<&'t Package>, AllocError>
    ensures { IfOk result (λ packages. map lent packages.items ≡ packages_in files.now) }
{
    let mut packages = Vec::new(alloc);
    for file in files {
        add_packages(&mut packages, &file.packages)?;
    }
    Ok(packages)
}

fn add_packages<'t>(packages: &mut Vec<&'t Package>, more: &'t [Package]) -> Result<(), AllocError>
    ensures { OnOk result (map lent packages.new.items
        ≡ map lent packages.old.items ++ more.now) }
{
    for one in more {
        packages.push(one)?;
    }
    Ok(())
}

/// The package's name, unless that is the number of its line, which changes as lines come and go.
pub fn name_of(listed: &Package) -> &str
    ensures { result.now ≡ told_name listed.now }
{
    let name = listed.name.as_str();
    if is_line(&listed.spot) && name.starts_with("line ") {
        return "";
    }
    name
}

fn is_line(spot: &Spot) -> bool
    ensures { result ≡ is_line spot.now }
{
    match spot {
        Spot::Line(_) => true,
        Spot::Record(_) | Spot::Pointer(_) => false,
    }
}

// The text that was judged; empty where no license is stated.
fn text_of<'t>(report: &'t Report<'_>, row: &Row) -> &'t str
    ensures { result.now ≡ text_in report.now row.now }
{
    let judgement = match row.judgement {
        Some(place) => report.judgements.get(place),
        None => None,
    };
    match judgement {
        Some(judgement) => judgement.text.as_str(),
        None => "",
    }
}
