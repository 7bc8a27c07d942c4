//! What a policy says of packages.

ghost use Rattle.std.specs.Prelude.{◌≡◌, ◌+◌, All, IfOk, length, count_by};
ghost use Rattle.std.specs.List.{list_all};
ghost use Rattle.std.specs.Option.{option_copied};
ghost use Rattle.spdx_gate.specs.Verdicts.{passes};
ghost use Rattle.spdx_gate.specs.Reports as spec;
ghost use Rattle.spdx_gate.specs.Reports.{IsRight, IsRow, IsReport};
ghost use Rattle.spdx_gate.specs.Benches.{AddsFor, IsIndex};

use crate::bench::place_of;
use crate::judgement::Judgement;
use crate::package::{Package, Verdict};
use crate::totals::Totals;
use spdx_catalogue::Catalogue;
use spdx_policy::Policy;
use std::alloc::{AllocError, Global};
use std::collections::BTreeMap;

/// What a policy says of one package.
#[derive(Drop)]
pub struct Row {
    pub verdict: Verdict,
    /// The exceptions that hold for it, ascending.
    pub exceptions: Vec<usize>,
    /// The clarification that stands for its licence.
    pub clarification: Option<usize>,
    /// The place of its judgement in the report; none, where it states no licence.
    pub judgement: Option<usize>,
}

/// What a policy says of packages: a row for each, in their order, and the judgements of their
/// texts, each once under the same exceptions.
#[derive(Drop)]
pub struct Report<'c> {
    pub rows: Vec<Row>,
    pub judgements: Vec<Judgement<'c>>,
}

/// What the policy says of each package. Its text is the expression of the first clarification that
/// holds for it, else its licence; equal texts under the same exceptions are judged once.
pub fn judge<'c>(
    alloc: Global,
    catalogue: &'c Catalogue,
    policy: &Policy<'c>,
    packages: &[Package<'_>],
) -> Result<Report<'c>, AllocError>
    ensures { IfOk result (λ report.
        IsReport catalogue.now policy.now packages.now report) }
{
    let mut judgements = Vec::new(alloc);
    let mut by_key = BTreeMap::new(alloc);
    let mut rows = Vec::new(alloc);
    for asked in packages {
        let row = row_of(
            alloc,
            catalogue,
            policy,
            asked,
            &mut judgements,
            &mut by_key,
        )?;
        rows.push(row)?;
    }
    Ok(Report { rows, judgements })
}

// What the policy says of a package.
fn row_of<'c>(
    alloc: Global,
    catalogue: &'c Catalogue,
    policy: &Policy<'c>,
    asked: &Package<'_>,
    judgements: &mut Vec<Judgement<'c>>,
    by_key: &mut BTreeMap<String, Vec<usize>>,
) -> Result<Row, AllocError>
    requires right { All (IsRight catalogue.now policy.now) judgements.old.items }
    requires index { IsIndex by_key.old judgements.old.items }
    ensures row { IfOk result (λ row.
        IsRow catalogue.now policy.now judgements.new.items asked.now row) }
    ensures adds { IfOk result (λ _. AddsFor catalogue.now policy.now asked.now
        judgements.old.items judgements.new.items) }
    ensures index { IfOk result (λ _. IsIndex by_key.new judgements.new.items) }
{
    let exceptions = policy.exceptions_for(alloc, asked.name, asked.version)?;
    let clarification = policy.clarification_for(alloc, asked.name, asked.version)?;
    let Some(text) = text(policy, clarification, asked.license) else {
        return Ok(Row {
            verdict: Verdict::Unstated(policy.allows_unstated()),
            exceptions,
            clarification,
            judgement: None,
        });
    };
    let place = place_of(
        alloc,
        catalogue,
        policy,
        exceptions.as_slice(),
        text,
        judgements,
        by_key,
    )?;
    let verdict = judgements[place].verdict();
    Ok(Row {
        verdict,
        exceptions,
        clarification,
        judgement: Some(place),
    })
}

// What is judged of a package: the expression of its clarification, else its licence.
fn text<'p>(
    policy: &'p Policy<'_>,
    clarification: Option<usize>,
    license: Option<&'p str>,
) -> Option<&'p str>
    ensures { option_copied result ≡ spec.text_by policy.now clarification
        (option_copied license.entry) }
{
    if let Some(table) = clarification
        && let Some(expression) = policy.clarification(table)
    {
        return Some(expression);
    }
    license
}

impl Report<'_> {
    /// How many packages are allowed, refused and unstated.
    pub fn totals(&self) -> Totals
        ensures packages { result.packages ≡ length self.now.rows.items }
        ensures allowed { result.allowed ≡
            count_by (λ row. spec.counts_allowed row.verdict) self.now.rows.items }
        ensures by_exception { result.by_exception ≡
            count_by (λ row. spec.counts_by_exception row.verdict) self.now.rows.items }
        ensures refused { result.refused ≡
            count_by (λ row. spec.counts_refused row.verdict) self.now.rows.items }
        ensures unstated { result.unstated ≡
            count_by (λ row. spec.counts_unstated row.verdict) self.now.rows.items }
        ensures sum { result.allowed + result.refused + result.unstated ≡ result.packages }
    {
        Totals::of(self.rows.as_slice())
    }

    /// Whether every package is allowed.
    pub fn is_passed(&self) -> bool
        ensures { result ≡ list_all (λ row. passes row.verdict) self.now.rows.items }
    {
        self.rows.iter().all(|row| row.verdict.is_allowed())
    }
}
