// The verdicts on packages in each form.

ghost use Rattle.std.specs.Prelude.{◌≡◌, [], ◌++◌, true, false, IfOk, OnErr, OnOk, flat_map, map};
ghost use Rattle.finding_forms.specs.SarifLog.{results_text};
ghost use Rattle.gate_forms.specs.Sarif.{result_of};
ghost use Rattle.gate_told.specs.Verdicts as spec;
ghost use Rattle.gate_told.specs.Verdicts.{
  IsLog,
  IsLogOf,
  explanations_text,
  is_any_named,
  is_any_refused,
  is_of_refusals,
  line_text,
  log_line,
  new_of,
  people_text,
  refused_of,
  verdicts_text,
};
ghost use Rattle.gate_told.specs.Scopes as scopes;
ghost use Rattle.gate_told.specs.Scopes.{IsEnough};

use crate::packages::Scope;
use finding_forms::Style;
use gate_forms::{
    Report, Totals, put_explained, put_github, put_human, put_json, put_page, put_refusals,
    put_sarif_beginning, put_sarif_ending, put_sarif_result, put_short, put_totals,
};
use std::alloc::{AllocError, Global};

// Each refused package is compared with all others, so above this number that would take long.
const MOST_GATHERED: u64 = 1_000;

/// Whether so few packages are refused, up to 1000, that equal refusals are told once, and what would make all of them pass.
pub fn are_gathered(totals: &Totals) -> bool
    ensures { result ≡ spec.are_gathered totals.now }
{
    totals.refused.saturating_add(totals.unstated) <= MOST_GATHERED
}

/// How verdicts are written.
#[derive(Clone, Copy)]
pub enum Format<'v> {
    /// The refusals as people read them, and the totals.
    Human(Style),
    /// A line for each refusal, and the totals.
    Short,
    /// A line of JSON for each refusal.
    Json,
    /// An error of a GitHub workflow for each refusal.
    Github,
    /// One log of SARIF, by the tool in this version.
    Sarif { version: &'v str },
    /// One page of HTML.
    Html,
}

/// Which packages this form tells of: the page of all, the other forms of those that are refused.
pub fn scope_of(format: Format<'_>) -> Scope
    ensures { result ≡ scopes.scope_of format.entry }
{
    match format {
        Format::Html => Scope::All,
        Format::Human(_) | Format::Short | Format::Json | Format::Github | Format::Sarif { .. } => {
            Scope::Refused
        }
    }
}

/// How a package is told in lines.
#[derive(Clone, Copy)]
pub(crate) enum Line {
    Human(Style),
    Short,
    Json,
    Github,
}

/// Appends the verdicts in their order, and where people read them in lines the totals. Refusals that are known are told
/// where machines read all of them, as JSON and SARIF, and on the page. For people equal refusals are told once, if
/// `are_gathered` says so.
///
/// Of the packages that the form tells of alone, by `scope_of`, the same is told as of all (`enough`). Where no package is
/// refused, what is told in other forms than the page is the same as of no packages (`passed`). The log reads back as that
/// of the refused packages (`log`).
///
/// Takes time in the number of reports; for people in its square, while they are gathered.
///
/// # Errors
///
/// Memory was refused, and the text is as it was.
pub fn put_verdicts(
    alloc: Global,
    text: &mut Vec<u8>,
    format: Format<'_>,
    policy: &str,
    totals: &Totals,
    reports: &[Report<'_>],
) -> Result<(), AllocError>
    ensures ok { OnOk result (text.new.items ≡ text.old.items
        ++ verdicts_text format.entry policy.now totals.now reports.now) }
    ensures err { OnErr result (text.new.items ≡ text.old.items) }
    ensures enough { IsEnough format.entry policy.now totals.now }
    ensures passed { is_of_refusals format.entry ≡ true → is_any_refused reports.now ≡ false →
        verdicts_text format.entry policy.now totals.now reports.now
        ≡ verdicts_text format.entry policy.now totals.now [] }
    ensures log { OnOk result (IsLogOf format.entry
        (verdicts_text format.entry policy.now totals.now reports.now) reports.now) }
{
    let mut verdicts = Vec::new(alloc);
    put_format(alloc, &mut verdicts, format, policy, totals, reports)?;
    text.extend_from_slice(verdicts.as_slice())
}

fn put_format(
    alloc: Global,
    text: &mut Vec<u8>,
    format: Format<'_>,
    policy: &str,
    totals: &Totals,
    reports: &[Report<'_>],
) -> Result<(), AllocError>
    ensures ok { OnOk result (text.new.items ≡ text.old.items
        ++ verdicts_text format.entry policy.now totals.now reports.now) }
    ensures log { OnOk result (IsLogOf format.entry
        (verdicts_text format.entry policy.now totals.now reports.now) reports.now) }
{
    match format {
        Format::Human(style) => {
            put_people(alloc, text, style, totals, reports)?;
            put_totals(alloc, text, totals)
        }
        Format::Short => {
            put_new_lines(alloc, text, Line::Short, reports)?;
            put_totals(alloc, text, totals)
        }
        Format::Json => put_lines(alloc, text, Line::Json, reports),
        Format::Github => put_new_lines(alloc, text, Line::Github, reports),
        Format::Sarif { version } => put_log(alloc, text, version, reports),
        Format::Html => put_page(alloc, text, policy, totals, reports),
    }
}

// Appends the refusals that aren't known. They are copied only where they are gathered, so where they are few.
fn put_people(
    alloc: Global,
    text: &mut Vec<u8>,
    style: Style,
    totals: &Totals,
    reports: &[Report<'_>],
) -> Result<(), AllocError>
    ensures { OnOk result (
        text.new.items ≡ text.old.items ++ people_text style totals.now (new_of reports.now)) }
{
    if are_gathered(totals) {
        return put_refusals(alloc, text, style, &new_among(alloc, reports)?);
    }
    put_new_lines(alloc, text, Line::Human(style), reports)
}

// The reports but for refusals that are known.
fn new_among<'r>(alloc: Global, reports: &[Report<'r>]) -> Result<Vec<Report<'r>>, AllocError>
    ensures { IfOk result (λ new. new.items ≡ new_of reports.now) }
{
    let mut new = Vec::new(alloc);
    for report in reports {
        if !report.is_known() {
            new.push(*report)?;
        }
    }
    Ok(new)
}

// Appends a line for each report but for refusals that are known.
fn put_new_lines(
    alloc: Global,
    text: &mut Vec<u8>,
    line: Line,
    reports: &[Report<'_>],
) -> Result<(), AllocError>
    ensures { OnOk result (
        text.new.items ≡ text.old.items ++ flat_map (line_text line) (new_of reports.now)) }
{
    for report in reports {
        if !report.is_known() {
            put_line(alloc, text, line, report)?;
        }
    }
    Ok(())
}

fn put_lines(
    alloc: Global,
    text: &mut Vec<u8>,
    line: Line,
    reports: &[Report<'_>],
) -> Result<(), AllocError>
    ensures { OnOk result (
        text.new.items ≡ text.old.items ++ flat_map (line_text line) reports.now) }
{
    for report in reports {
        put_line(alloc, text, line, report)?;
    }
    Ok(())
}

fn put_line(
    alloc: Global,
    text: &mut Vec<u8>,
    line: Line,
    report: &Report<'_>,
) -> Result<(), AllocError>
    ensures { OnOk result (text.new.items ≡ text.old.items ++ line_text line report.now) }
{
    match line {
        Line::Human(style) => put_human(alloc, text, style, report),
        Line::Short => put_short(alloc, text, report),
        Line::Json => put_json(alloc, text, report),
        Line::Github => put_github(alloc, text, report),
    }
}

// Appends one log of SARIF.
fn put_log(
    alloc: Global,
    text: &mut Vec<u8>,
    version: &str,
    reports: &[Report<'_>],
) -> Result<(), AllocError>
    ensures ok { OnOk result (
        text.new.items ≡ text.old.items ++ log_line version.now reports.now) }
    ensures log { OnOk result (
        IsLog version.now (log_line version.now reports.now) reports.now) }
{
    put_sarif_beginning(alloc, text, version)?;
    put_results(alloc, text, reports)?;
    put_sarif_ending(text)
}

fn put_results(alloc: Global, text: &mut Vec<u8>, reports: &[Report<'_>]) -> Result<(), AllocError>
    ensures { OnOk result (text.new.items ≡
        text.old.items ++ results_text true (map result_of (refused_of reports.now))) }
{
    let mut is_first = true;
    for report in reports {
        put_sarif_result(alloc, text, is_first, report)?;
        is_first = is_first && !report.verdict.is_refused();
    }
    Ok(())
}

/// Appends what is told of each package of that name, in their order. Of other packages nothing is told.
///
/// # Errors
///
/// Memory was refused, and the text is as it was.
pub fn put_explanations(
    alloc: Global,
    text: &mut Vec<u8>,
    style: Style,
    name: &str,
    reports: &[Report<'_>],
) -> Result<(), AllocError>
    ensures ok { OnOk result (text.new.items ≡ text.old.items
        ++ explanations_text style name.now reports.now) }
    ensures err { OnErr result (text.new.items ≡ text.old.items) }
    ensures silent { is_any_named name.now reports.now ≡ false →
        text.new.items ≡ text.old.items }
{
    let explanations = explanations(alloc, style, name, reports)?;
    text.extend_from_slice(explanations.as_slice())
}

fn explanations(
    alloc: Global,
    style: Style,
    name: &str,
    reports: &[Report<'_>],
) -> Result<Vec<u8>, AllocError>
    ensures { IfOk result (λ text.
        text.items ≡ explanations_text style name.now reports.now) }
{
    let mut text = Vec::new(alloc);
    for report in reports {
        if report.name == name {
            put_explained(alloc, &mut text, style, report)?;
        }
    }
    Ok(text)
}
