// What is told of the packages of a run.

ghost use Rattle.std.specs.Prelude.{◌≡◌, List, [], ◌∷◌, ◌++◌, IfOk, OnOk, map, option_map};
ghost use Rattle.std.specs.Option.{option_copied};
ghost use Rattle.gate_forms.specs.declared.reports.Report as forms;
ghost use Rattle.gate_told.specs.Moved.{moved_node, moved_why};
ghost use Rattle.gate_told.specs.Packages.{
  moved_report,
  nodes_told,
  report_of,
  row_telling,
  row_told,
  state_at,
  state_by,
  text_told,
  why_told,
};
ghost use Rattle.gate_told.specs.Scopes as scopes;
ghost use Rattle.gate_told.specs.Scopes.{AreToldIn, told_in};
ghost use Rattle.gate_told.specs.Texts.{telling_in};

use crate::breakdowns::{Breakdown, told_verdict};
use gate_forms::{Baseline, Node, Report, Why};
use spdx_gate::{Row, Verdict};
use std::alloc::{AllocError, Global};

/// A package of a run.
#[derive(Clone, Copy)]
pub struct NamedPackage<'r> {
    /// The file that names it.
    pub file: &'r str,
    pub name: &'r str,
    pub version: Option<&'r str>,
}

/// Which packages of a run are told.
#[derive(Clone, Copy)]
pub enum Scope {
    /// Each of them.
    All,
    /// Those that are refused, or state no licence though they must.
    Refused,
}

/// What is told of the packages of a run, in their order, by a policy of this path: of the n-th package its file, its
/// name and its version, the verdict of the n-th row, and what the breakdown tells that has the number of the row's
/// judgement. Where there is a baseline, the n-th of `known` says whether the refusal of the n-th package is known. A
/// package without a row is not told. Of as many packages as rows each is told, in its own file, and as refused exactly
/// if its row is; in the scope of refused ones, these alone are told, and take memory.
///
/// # Errors
///
/// Memory was refused.
pub fn told_packages<'r>(
    alloc: Global,
    scope: Scope,
    policy: &'r str,
    packages: &[NamedPackage<'r>],
    rows: &[Row],
    breakdowns: &'r [Breakdown<'r>],
    known: Option<&[bool]>,
) -> Result<Vec<Report<'r>>, AllocError>
    ensures { IfOk result (λ told.
        AreToldIn scope policy.now (map telling_in breakdowns.now) rows.now known.entry packages.now
        told.items) }
{
    let mut told = Vec::new(alloc);
    for (number, named) in packages.iter().enumerate() {
        let baseline = state_at(known, number);
        add_told(
            &mut told,
            scope,
            policy,
            named,
            rows.get(number),
            breakdowns,
            baseline,
        )?;
    }
    Ok(told)
}

// Adds what is told of a package with this row, if it is in the scope.
fn add_told<'r>(
    told: &mut Vec<Report<'r>>,
    scope: Scope,
    policy: &'r str,
    named: &NamedPackage<'r>,
    row: Option<&Row>,
    breakdowns: &'r [Breakdown<'r>],
    baseline: Baseline,
) -> Result<(), AllocError>
    ensures { OnOk result ((all : List forms.Report) × (map moved_report all
        ≡ row_told policy.now (map telling_in breakdowns.now) named.now baseline
        (option_copied row.entry)) × (told.new.items ≡ told.old.items ++ told_in scope all)) }
{
    match row {
        Some(row) => add_in(
            told,
            scope,
            report_of(policy, named, row, breakdowns, baseline),
        ),
        None => Ok(()),
    }
}

#[tactic(auto, using(crate::proofs::Scopes::one_in))]
fn add_in<'r>(
    told: &mut Vec<Report<'r>>,
    scope: Scope,
    report: Report<'r>,
) -> Result<(), AllocError>
    ensures { OnOk result (told.new.items ≡ told.old.items ++ told_in scope (report.entry ∷ [])) }
{
    if is_told(scope, &report) {
        told.push(report)?;
    }
    Ok(())
}

fn is_told(scope: Scope, report: &Report<'_>) -> bool
    ensures { result ≡ scopes.is_told scope report.now }
{
    match scope {
        Scope::All => true,
        Scope::Refused => report.verdict.is_refused(),
    }
}

// What is told of a package.
fn report_of<'r>(
    policy: &'r str,
    named: &NamedPackage<'r>,
    row: &Row,
    breakdowns: &'r [Breakdown<'r>],
    baseline: Baseline,
) -> Report<'r>
    ensures { moved_report result ≡
        report_of policy.now (map telling_in breakdowns.now) named.now row.now baseline }
{
    let text = TextTold::of(breakdown_of(row, breakdowns), row.verdict);
    Report {
        policy,
        file: named.file,
        name: named.name,
        version: named.version,
        expression: text.expression,
        verdict: told_verdict(row.verdict),
        baseline,
        why: text.why,
        nodes: text.nodes,
    }
}

fn breakdown_of<'r>(row: &Row, breakdowns: &'r [Breakdown<'r>]) -> Option<&'r Breakdown<'r>>
    ensures { option_map telling_in (option_copied result) ≡
        row_telling (map telling_in breakdowns.now) row.now }
{
    match row.judgement {
        Some(number) => breakdowns.get(number),
        None => None,
    }
}

// What is told of the text that a package is judged by.
#[derive(Clone, Copy)]
struct TextTold<'r> {
    expression: &'r str,
    nodes: &'r [Node<'r>],
    why: Why<'r>,
}

impl<'r> TextTold<'r> {
    fn of(breakdown: Option<&'r Breakdown<'r>>, verdict: Verdict) -> TextTold<'r>
        ensures expression { result.expression.now ≡
            text_told (option_map telling_in (option_copied breakdown.entry)) }
        ensures nodes { map moved_node result.nodes.now ≡
            nodes_told (option_map telling_in (option_copied breakdown.entry)) }
        ensures why { moved_why result.why ≡
            why_told (option_map telling_in (option_copied breakdown.entry)) verdict }
    {
        match breakdown {
            Some(breakdown) => TextTold {
                expression: breakdown.expression,
                nodes: breakdown.nodes.as_slice(),
                why: breakdown.why(verdict),
            },
            None => TextTold {
                expression: "",
                nodes: &[],
                why: Why::Nothing,
            },
        }
    }
}

// Whether the refusal of that number is known.
fn state_at(known: Option<&[bool]>, number: usize) -> Baseline
    ensures { result ≡ state_at known.entry number }
{
    match known {
        Some(known) => state_by(known.get(number)),
        None => Baseline::Absent,
    }
}

fn state_by(is_known: Option<&bool>) -> Baseline
    ensures { result ≡ state_by (option_copied is_known.entry) }
{
    match is_known {
        Some(true) => Baseline::Known,
        _ => Baseline::New,
    }
}
