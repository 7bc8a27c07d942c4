// A policy, read from TOML.

ghost use Rattle.std.specs.Prelude.{◌≡◌, Some, None, Ok, IfOk, IfErr, IsUtf8};
ghost use Rattle.std.specs.List.{position, list_any};
ghost use Rattle.spdx_requirement.specs.Flags.{is_copyleft};
ghost use Rattle.spdx_requirement.specs.Rows.{row_of};
ghost use Rattle.toml.specs.Parse.{parse_document};
ghost use Rattle.toml.specs.View.{table_view};
ghost use Rattle.spdx_requirement.specs.Failures.{IfRefused};
ghost use Rattle.spdx_policy.specs.Meant as meant;
ghost use Rattle.spdx_policy.specs.Meant.{IsMeant, IsPolicyOf};
ghost use Rattle.spdx_policy.specs.Refused.{IsRefusedDraft, IsRefusedText, RefusesRead, RefusesShape};
ghost use Rattle.spdx_policy.specs.Drafts as drafts;
ghost use Rattle.spdx_policy.specs.Lines.{line_behind, column_behind};
ghost use Rattle.spdx_policy.specs.Drawn.{draft_rows};
ghost use Rattle.spdx_policy.specs.Rules.{Rules};

use crate::decision::Flag;
use crate::error::{Key, Place, Section};
use crate::fault::{PolicyFault, Unreadable};
use crate::policy::Policy;
use crate::reading::draft::{Draft, draft_of};
use crate::reading::lines::{column_behind, line_behind};
use crate::reading::{
    clarified_of, exempted_of, exempting_of, expressions_of, names_of, reasons_of,
};
use crate::scopes::Scopes;
use spdx_catalogue::{Catalogue, License, LicenseId};
use spdx_licensee::Replacements;
use spdx_requirement::failure::Failure;
use std::alloc::{AllocError, Global};
use toml::Table;

// The fault of a text that is no TOML behind these bytes.
fn unreadable(
    alloc: Global,
    before: &[u8],
    error: toml::de::Error,
) -> Result<Unreadable, AllocError>
    ensures error { IfOk result (λ u. u.error ≡ error) }
    ensures line { IfOk result (λ u. u.line ≡ line_behind before.now) }
    ensures column { IfOk result (λ u. u.column ≡ column_behind before.now) }
{
    Ok(Unreadable {
        line: line_behind(before),
        column: column_behind(before),
        words: String::from_str(alloc, error.message())?,
        error,
    })
}

// The table that the text is.
fn table_in(alloc: Global, text: &[u8]) -> Result<Table, Failure<PolicyFault>>
    ensures utf8 { IfOk result (λ _. IsUtf8 text.now) }
    ensures ok { IfOk result (λ t. parse_document text.now ≡ Some (table_view t)) }
    ensures err { IfErr result (IfRefused (RefusesRead text.now)) }
{
    match toml::table_from_slice(alloc, text) {
        Ok(table) => Ok(table),
        Err(error) => match error.span() {
            Some(span) => {
                let fault = unreadable(alloc, &text[..span.start], error)?;
                Err(Failure::Refused(PolicyFault::Unreadable(fault)))
            }
            None => Err(Failure::Memory(AllocError)),
        },
    }
}

// The draft that the table says.
fn drafted(alloc: Global, table: &Table) -> Result<Draft, Failure<PolicyFault>>
    ensures ok { IfOk result (λ d.
        drafts.draft_of (table_view table.now) ≡ Ok (draft_rows d)) }
    ensures err { IfErr result (IfRefused (RefusesShape (table_view table.now))) }
{
    match draft_of(alloc, table) {
        Ok(draft) => Ok(draft),
        Err(Failure::Refused(fault)) => Err(Failure::Refused(PolicyFault::Shape(fault))),
        Err(Failure::Memory(error)) => Err(Failure::Memory(error)),
    }
}

// The policy that the draft means.
fn policy_of<'c>(
    alloc: Global,
    catalogue: &'c Catalogue,
    replacements: Replacements<'c>,
    draft: Draft,
) -> Result<Policy<'c>, Failure<PolicyFault>>
    ensures ok { IfOk result (λ p. IsMeant catalogue.now replacements.entry (draft_rows draft) p) }
    ensures err { IfErr result (IfRefused (IsRefusedDraft catalogue.now (draft_rows draft))) }
{
    if let Some(place) = unknown_flag(catalogue, &draft) {
        return Err(Failure::Refused(PolicyFault::UnknownFlag(place)));
    }
    let allow = names_of(
        alloc,
        catalogue,
        &replacements,
        Section::Policy,
        Key::Allow,
        &draft.allow,
    )?;
    let deny = names_of(
        alloc,
        catalogue,
        &replacements,
        Section::Policy,
        Key::Deny,
        &draft.deny,
    )?;
    let exempted = exempted_of(alloc, &draft.exceptions)?;
    let exempting = exempting_of(alloc, catalogue, &replacements, &draft.exceptions)?;
    let clarified = clarified_of(alloc, &draft.clarifications)?;
    Ok(Policy {
        catalogue,
        replacements,
        lax: draft.lax,
        unstated: draft.unstated,
        allow,
        allow_if: draft.allow_if,
        deny,
        deny_if: draft.deny_if,
        exempted: Scopes::new(alloc, exempted)?,
        exempting,
        reasons: reasons_of(alloc, &draft.exceptions)?,
        clarified: Scopes::new(alloc, clarified)?,
        expressions: expressions_of(alloc, &draft.clarifications)?,
    })
}

// Where the draft has a flag of which the list says nothing.
fn unknown_flag(catalogue: &Catalogue, draft: &Draft) -> Option<Place>
    ensures { result ≡ meant.unknown_flag catalogue.now (draft_rows draft.now) }
{
    if knows_copyleft(catalogue) {
        return None;
    }
    match copyleft_among(&draft.allow_if) {
        Some(index) => Some(Place::one(Section::Policy, Key::AllowIf, index)),
        None => Some(Place::one(
            Section::Policy,
            Key::DenyIf,
            copyleft_among(&draft.deny_if)?,
        )),
    }
}

// Whether the list says of some licence that it is copyleft.
fn knows_copyleft(catalogue: &Catalogue) -> bool
    ensures { result ≡ meant.knows_copyleft catalogue.now }
{
    is_copyleft_among(catalogue.licenses())
}

fn is_copyleft_among(rows: &[License]) -> bool
    ensures { result ≡ list_any (λ r. is_copyleft (row_of r).flags) rows.now }
{
    rows.iter().any(|row| LicenseId::new(row).is_copyleft())
}

// The first flag that is `copyleft`.
fn copyleft_among(flags: &[Flag]) -> Option<usize>
    ensures { result ≡ position meant.is_copyleft_flag flags.now }
{
    flags.iter().position(|flag| is_copyleft_flag(*flag))
}

fn is_copyleft_flag(flag: Flag) -> bool
    ensures { result ≡ meant.is_copyleft_flag flag }
{
    matches!(flag, Flag::Copyleft)
}

impl<'c> Policy<'c> {
    /// Reads a policy from TOML, by a list of licences and what stands in the place of its deprecated
    /// names; `docs/POLICY.md` has its keys. Takes time linear in the text but for the look-ups of
    /// names, of their logarithm each.
    ///
    /// # Errors
    ///
    /// The first `PolicyFault` that applies, or that memory was refused.
    pub fn from_toml(
        alloc: Global,
        catalogue: &'c Catalogue,
        replacements: Replacements<'c>,
        text: &[u8],
    ) -> Result<Policy<'c>, Failure<PolicyFault>>
        ensures ok { IfOk result (λ p. IsPolicyOf catalogue.now replacements.entry text.now p) }
        ensures err { IfErr result (IfRefused (IsRefusedText catalogue.now text.now)) }
        ensures none { IfErr result (IfRefused (λ _.
            (p : Rules) → IsPolicyOf catalogue.now replacements.entry text.now p → ⊥)) }
    {
        let table = table_in(alloc, text)?;
        let draft = drafted(alloc, &table)?;
        policy_of(alloc, catalogue, replacements, draft)
    }
}
