//! What of a policy was of use in a report.

ghost use Rattle.std.specs.Prelude.{◌≡◌, ◌==◌, IfOk, OnOk};
ghost use Rattle.std.specs.List.{list_any};
ghost use Rattle.spdx_gate.specs.Reports as spec;
ghost use Rattle.spdx_gate.specs.Reports.{decided_in, is_by, is_number};
ghost use Rattle.spdx_gate.specs.Used.{
  AddsEntries,
  AddsNumbers,
  AreClarifications,
  AreDecided,
  AreExceptions,
};

use crate::judgement::{Judgement, Outcome};
use crate::report::{Report, Row};
use spdx_policy::{Decision, Entry};
use std::alloc::{AllocError, Global};
use std::collections::BTreeSet;
use std::marker::Model;

/// What of a policy was of use in a report: the entries that decided a requirement of some package,
/// and the exceptions and clarifications that hold for some package. A look-up takes time by the
/// logarithm of how many these are.
#[derive(Drop)]
pub struct Uses<'r, 'c> {
    // whose uses they are; contracts see it alone
    report: &'r Report<'c>,
    entries: BTreeSet<Entry>,
    exceptions: BTreeSet<usize>,
    clarifications: BTreeSet<usize>,
}

impl<'r, 'c> Model for Uses<'r, 'c> {
    ghost use Rattle.spdx_gate.specs.declared.report.Report.{Report};

    ghost Value = { Report };

    ghost use Rattle.spdx_gate.specs.UsesModel.{report_used, AreOfUse};

    ghost view = { report_used };

    ghost invariant = { AreOfUse };
}

impl<'r, 'c> Uses<'r, 'c> {
    /// What was of use in the report. Takes `n log n` steps, for `n` decisions of its judgements and
    /// exceptions of its rows.
    ///
    /// # Errors
    ///
    /// Memory was refused.
    pub fn of(alloc: Global, report: &'r Report<'c>) -> Result<Uses<'r, 'c>, AllocError>
        ensures { IfOk result (λ uses. uses ≡ report.now) }
    {
        Ok(Uses {
            report,
            entries: entries_in(alloc, report.judgements.as_slice())?,
            exceptions: exceptions_in(alloc, report.rows.as_slice())?,
            clarifications: clarifications_in(alloc, report.rows.as_slice())?,
        })
    }

    /// Whether the entry decided a requirement of some package.
    pub fn is_entry_used(&self, entry: Entry) -> bool
        ensures { result ≡ list_any (λ j. decided_in entry j.outcome) self.now.judgements.items }
    {
        self.entries.contains(&entry)
    }

    /// Whether the exception holds for some package.
    pub fn is_exception_used(&self, table: usize) -> bool
        ensures { result ≡ list_any (spec.has_exception table) self.now.rows.items }
    {
        self.exceptions.contains(&table)
    }

    /// Whether the clarification holds for some package, as the first that does.
    pub fn is_clarification_used(&self, table: usize) -> bool
        ensures { result ≡ list_any (spec.has_clarification table) self.now.rows.items }
    {
        self.clarifications.contains(&table)
    }
}

// The entries that decided a requirement of one of the texts.
fn entries_in(alloc: Global, judgements: &[Judgement<'_>]) -> Result<BTreeSet<Entry>, AllocError>
    ensures { IfOk result (λ entries. AreDecided entries judgements.now) }
{
    let mut entries = BTreeSet::new(alloc);
    for judgement in judgements {
        add_decided(&mut entries, &judgement.outcome)?;
    }
    Ok(entries)
}

// Adds those that decided a requirement of the text.
fn add_decided(entries: &mut BTreeSet<Entry>, outcome: &Outcome<'_>) -> Result<(), AllocError>
    ensures { OnOk result (
        AddsEntries entries.old (λ e. decided_in e outcome.now) entries.new) }
{
    match outcome {
        Outcome::Judged(judged) => add_deciding(entries, judged.decisions.as_slice()),
        Outcome::Unreadable(_) => Ok(()),
    }
}

fn add_deciding(entries: &mut BTreeSet<Entry>, decisions: &[Decision]) -> Result<(), AllocError>
    ensures { OnOk result (
        AddsEntries entries.old (λ e. list_any (is_by e) decisions.now) entries.new) }
{
    for decision in decisions {
        add_by(entries, *decision)?;
    }
    Ok(())
}

// Adds the entry that decided, if one did.
fn add_by(entries: &mut BTreeSet<Entry>, decision: Decision) -> Result<(), AllocError>
    ensures { OnOk result (AddsEntries entries.old (λ e. is_by e decision) entries.new) }
{
    match decision {
        Decision::Allowed(entry) | Decision::Denied(entry) => {
            entries.insert(entry)?;
            Ok(())
        }
        Decision::Open => Ok(()),
    }
}

// The exceptions that hold for one of the packages.
fn exceptions_in(alloc: Global, rows: &[Row]) -> Result<BTreeSet<usize>, AllocError>
    ensures { IfOk result (λ exceptions. AreExceptions exceptions rows.now) }
{
    let mut exceptions = BTreeSet::new(alloc);
    for row in rows {
        add_all(&mut exceptions, row.exceptions.as_slice())?;
    }
    Ok(exceptions)
}

fn add_all(numbers: &mut BTreeSet<usize>, more: &[usize]) -> Result<(), AllocError>
    ensures { OnOk result (
        AddsNumbers numbers.old (λ n. list_any (λ k. k == n) more.now) numbers.new) }
{
    for number in more {
        numbers.insert(*number)?;
    }
    Ok(())
}

// The clarifications that stand for the licence of one of the packages.
fn clarifications_in(alloc: Global, rows: &[Row]) -> Result<BTreeSet<usize>, AllocError>
    ensures { IfOk result (λ clarifications. AreClarifications clarifications rows.now) }
{
    let mut clarifications = BTreeSet::new(alloc);
    for row in rows {
        add_if_any(&mut clarifications, row.clarification)?;
    }
    Ok(clarifications)
}

fn add_if_any(numbers: &mut BTreeSet<usize>, number: Option<usize>) -> Result<(), AllocError>
    ensures { OnOk result (AddsNumbers numbers.old (λ n. is_number number n) numbers.new) }
{
    if let Some(number) = number {
        numbers.insert(number)?;
    }
    Ok(())
}
