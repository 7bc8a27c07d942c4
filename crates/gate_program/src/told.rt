// What is told of the packages of a run, and whether they pass.

ghost use Rattle.std.specs.Prelude.{◌≡◌, ◌++◌, IfOk, OnOk};
ghost use Rattle.gate_program.specs.Scopes.{scope_in};
ghost use Rattle.gate_program.specs.Texts as spec;
ghost use Rattle.gate_program.specs.Texts.{IsToldText, behind_verdicts, told_text};

use crate::gated::Gated;
use crate::named::named_in;
use crate::tellings::{breakdowns_of, texts_of_each};
use finding_forms::Style;
use gate_forms::{Report as Told, put_known};
use gate_told::{
    Format, Scope, are_gathered, put_all_unused, put_explanations, put_needs, put_verdicts,
    scope_of, told_packages, told_totals,
};
use spdx_catalogue::Catalogue;
use spdx_gate::Report;
use spdx_policy::Policy;
use std::alloc::{AllocError, Global};

/// How a run is told.
#[derive(Clone, Copy)]
pub struct Look<'e> {
    /// The form of the verdicts.
    pub format: Format<'e>,
    /// The style in which packages are explained.
    pub style: Style,
    /// The name of the packages that are explained, in the place of all verdicts.
    pub explain: Option<&'e str>,
    /// Whether it is told which entries of the policy are of no use.
    pub tells_unused: bool,
}

/// What is told.
#[derive(Drop)]
pub struct GateText {
    pub bytes: Vec<u8>,
    /// Whether no package is refused whose refusal isn't known.
    pub is_passed: bool,
}

/// What is told of the packages, by a policy of this path: the verdicts in their form; and where people read them, what is
/// known, or else what would make the packages pass, and what of the policy is of no use. Only packages that the form tells
/// of take memory.
///
/// # Errors
///
/// Memory was refused.
pub fn gate_text(
    alloc: Global,
    catalogue: &Catalogue,
    policy: &Policy<'_>,
    path: &str,
    look: Look<'_>,
    gated: &Gated<'_>,
) -> Result<GateText, AllocError>
    ensures { IfOk result (λ text.
        IsToldText catalogue.now policy.now path.now look.entry gated.now text) }
{
    let shown = texts_of_each(alloc, catalogue, policy, &gated.report.judgements)?;
    let breakdowns = breakdowns_of(alloc, &shown)?;
    let packages = named_in(alloc, &gated.files)?;
    let told = told_packages(
        alloc,
        scope_in(look),
        path,
        &packages,
        &gated.report.rows,
        &breakdowns,
        gated.known(),
    )?;
    let mut bytes = Vec::new(alloc);
    put_told(alloc, &mut bytes, policy, path, look, gated, &told)?;
    let is_passed = are_passed(&told);
    Ok(GateText { bytes, is_passed })
}

// The packages that this look tells of; those of a name may be of any verdict.
fn scope_in(look: Look<'_>) -> Scope
    ensures { result ≡ scope_in look.entry }
{
    match look.explain {
        Some(_) => Scope::All,
        None => scope_of(look.format),
    }
}

// Whether no package is refused whose refusal isn't known.
fn are_passed(told: &[Told<'_>]) -> bool
    ensures { result ≡ spec.are_passed told.now }
{
    told.iter().all(is_passed)
}

fn is_passed(told: &Told<'_>) -> bool
    ensures { result ≡ spec.is_passed told.now }
{
    !told.verdict.is_refused() || told.is_known()
}

fn put_told(
    alloc: Global,
    text: &mut Vec<u8>,
    policy: &Policy<'_>,
    path: &str,
    look: Look<'_>,
    gated: &Gated<'_>,
    told: &[Told<'_>],
) -> Result<(), AllocError>
    ensures { OnOk result (text.new.items ≡ text.old.items
        ++ told_text look.entry policy.now path.now gated.now told.now) }
{
    if let Some(name) = look.explain {
        return put_explanations(alloc, text, look.style, name, told);
    }
    let totals = told_totals(&gated.report);
    put_verdicts(alloc, text, look.format, path, &totals, told)?;
    put_behind(alloc, text, look.format, gated, told)?;
    if look.tells_unused && is_for_people(look.format) {
        put_all_unused(alloc, text, path, policy, &gated.report)?;
    }
    Ok(())
}

// What stands behind the verdicts: the refusals that are known, or what the packages need.
fn put_behind(
    alloc: Global,
    text: &mut Vec<u8>,
    format: Format<'_>,
    gated: &Gated<'_>,
    told: &[Told<'_>],
) -> Result<(), AllocError>
    ensures { OnOk result (text.new.items ≡ text.old.items
        ++ behind_verdicts format.entry gated.now told.now) }
{
    match gated.older_path() {
        Some(older) => put_all_known(alloc, text, format, older, told),
        None => put_all_needs(alloc, text, format, &gated.report),
    }
}

fn put_all_known(
    alloc: Global,
    text: &mut Vec<u8>,
    format: Format<'_>,
    older: &str,
    told: &[Told<'_>],
) -> Result<(), AllocError>
    ensures { OnOk result (text.new.items ≡ text.old.items
        ++ spec.known_part format.entry older.now told.now) }
{
    if is_for_people(format) {
        put_known(alloc, text, older, told)
    } else {
        Ok(())
    }
}

fn put_all_needs(
    alloc: Global,
    text: &mut Vec<u8>,
    format: Format<'_>,
    report: &Report<'_>,
) -> Result<(), AllocError>
    ensures { OnOk result (text.new.items ≡ text.old.items
        ++ spec.needs_part format.entry report.now) }
{
    if is_human(format) && are_gathered(&told_totals(report)) {
        put_needs(alloc, text, report)
    } else {
        Ok(())
    }
}

// Whether people read it in lines.
fn is_for_people(format: Format<'_>) -> bool
    ensures { result ≡ spec.is_for_people format.entry }
{
    matches!(format, Format::Human(_) | Format::Short)
}

fn is_human(format: Format<'_>) -> bool
    ensures { result ≡ spec.is_human format.entry }
{
    matches!(format, Format::Human(_))
}
