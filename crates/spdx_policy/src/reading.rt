// The names and ranges of a draft.

ghost use Rattle.std.specs.Prelude.{◌≡◌, IfOk, IfErr, IfSome, IfNone, map, option_map, string_bytes};
ghost use Rattle.std.specs.Option.{option_copied};
ghost use Rattle.spdx_requirement.specs.Items.{Requirement, requirement_of, license_of};
ghost use Rattle.spdx_requirement.specs.Failures.{IfRefused};
ghost use Rattle.spdx_policy.specs.Meant as meant;
ghost use Rattle.spdx_policy.specs.Old.{IsOneUnmarked};
ghost use Rattle.spdx_lexer.specs.Code.{span_of};
ghost use Rattle.spdx_lexer.specs.Faults.{fault_of};
ghost use Rattle.spdx_licensee.specs.LicenseeText.{NamesNone, IsLicenseeFault};
ghost use Rattle.spdx_policy.specs.Meant.{Each, IsEntry, IsNamed, IsOldEntry, IsRange, IsExempted, IsExempting, IsClarified, reason, expression};
ghost use Rattle.spdx_policy.specs.Blame.{BlamesName, BlamesNames, BlamesRange, BlamesExempted, BlamesExempting, BlamesClarified};
ghost use Rattle.spdx_policy.specs.Named.{named_row};
ghost use Rattle.spdx_policy.specs.PolicyModel.{named_rows};
ghost use Rattle.spdx_policy.specs.Shown.{range_of, scope_row};
ghost use Rattle.spdx_policy.specs.Drawn.{exception_row, clarify_row};

pub(crate) mod draft;
pub(crate) mod from_toml;
pub(crate) mod lines;
pub(crate) mod shape;

use crate::error::{Key, Place, Section};
use crate::fault::{PolicyError, PolicyFault};
use crate::named::Named;
use crate::reading::draft::{ClarifyDraft, ExceptionDraft};
use crate::scopes::Scope;
use semver::{Error, VersionReq};
use spdx_catalogue::{Catalogue, LicenseItem, LicenseReq};
use spdx_lexer::{ParseError, ParseMode, Reason};
use spdx_licensee::{Licensee, Replacements, sense};
use spdx_parser::node::ExprNode;
use spdx_parser::parse_nodes;
use spdx_requirement::failure::Failure;
use std::alloc::{AllocError, Global};
use std::ops::Range;

/// The entry of a text, which stands at the place.
pub(crate) fn name_of<'c>(
    alloc: Global,
    catalogue: &'c Catalogue,
    replacements: &Replacements<'c>,
    place: Place,
    text: &str,
) -> Result<Named<'c>, Failure<PolicyFault>>
    ensures ok { IfOk result (λ n. IsNamed catalogue.now replacements.now text.now (named_row n)) }
    ensures err { IfErr result (IfRefused (BlamesName catalogue.now place text.now)) }
{
    let req = entry_of(alloc, catalogue, place, text)?;
    Ok(Named {
        text: String::from_str(alloc, text)?,
        sense: sense(alloc, catalogue, replacements, &req)?,
    })
}

// The requirement that the text of an entry names.
fn entry_of<'c>(
    alloc: Global,
    catalogue: &'c Catalogue,
    place: Place,
    text: &str,
) -> Result<LicenseReq<'c>, Failure<PolicyFault>>
    ensures ok { IfOk result (λ r. IsEntry catalogue.now text.now (requirement_of r)) }
    ensures err { IfErr result (IfRefused (BlamesName catalogue.now place text.now)) }
{
    match Licensee::parse(alloc, catalogue, text) {
        Ok(licensee) => Ok(licensee.into_req()),
        Err(Failure::Memory(error)) => Err(Failure::Memory(error)),
        Err(Failure::Refused(ParseError { span, reason, .. })) => {
            old_or_fault(alloc, catalogue, place, text, span, reason)
        }
    }
}

// The same of a text that names no licensee, for this reason.
fn old_or_fault<'c>(
    alloc: Global,
    catalogue: &'c Catalogue,
    place: Place,
    text: &str,
    span: Range<usize>,
    reason: Reason,
) -> Result<LicenseReq<'c>, Failure<PolicyFault>>
    requires none { NamesNone catalogue.now text.now }
    requires fault { IsLicenseeFault catalogue.now text.now (fault_of reason) (span_of span) }
    ensures ok { IfOk result (λ r. IsEntry catalogue.now text.now (requirement_of r)) }
    ensures err { IfErr result (IfRefused (BlamesName catalogue.now place text.now)) }
{
    if let Some(req) = old_entry(alloc, catalogue, text)? {
        return Ok(req);
    }
    let copy = String::from_str(alloc, text)?;
    Err(Failure::Refused(PolicyFault::NotALicensee(place, copy, span, reason)))
}

// What a text names in which deprecated names may stand: one requirement without a `+`.
fn old_entry<'c>(
    alloc: Global,
    catalogue: &'c Catalogue,
    text: &str,
) -> Result<Option<LicenseReq<'c>>, AllocError>
    ensures some { IfOk result (λ found. IfSome found (λ r.
        IsOldEntry catalogue.now text.now (requirement_of r))) }
    ensures none { IfOk result (λ found. IfNone found (
        (r : Requirement) → IsOldEntry catalogue.now text.now r → ⊥)) }
{
    let mode = ParseMode {
        allow_deprecated: true,
        ..ParseMode::STRICT
    };
    match parse_nodes(alloc, catalogue, text, mode) {
        Ok(nodes) => unmarked(alloc, nodes.as_slice()),
        Err(Failure::Refused(_)) => Ok(None),
        Err(Failure::Memory(error)) => Err(error),
    }
}

// The requirement that the nodes are, if they are one without a `+`.
fn unmarked<'c>(alloc: Global, nodes: &[ExprNode<'c>]) -> Result<Option<LicenseReq<'c>>, AllocError>
    ensures some { IfOk result (λ found. IfSome found (λ r.
        IsOneUnmarked nodes.now (requirement_of r))) }
    ensures none { IfOk result (λ found. IfNone found (
        (r : Requirement) → IsOneUnmarked nodes.now r → ⊥)) }
{
    if nodes.len() != 1 {
        return Ok(None);
    }
    let ExprNode::Req(node) = &nodes[0] else {
        return Ok(None);
    };
    if is_marked(&node.req.license) {
        return Ok(None);
    }
    Ok(Some(node.req.try_clone(alloc)?))
}

fn is_marked(license: &LicenseItem<'_>) -> bool
    ensures { result ≡ meant.is_marked (license_of license.now) }
{
    matches!(license, LicenseItem::Spdx { or_later: true, .. })
}

/// The entries of the texts that stand at a key.
pub(crate) fn names_of<'c>(
    alloc: Global,
    catalogue: &'c Catalogue,
    replacements: &Replacements<'c>,
    section: Section,
    key: Key,
    texts: &[String],
) -> Result<Vec<Named<'c>>, Failure<PolicyFault>>
    ensures ok { IfOk result (λ names.
        Each (IsNamed catalogue.now replacements.now) (map string_bytes texts.now)
        (named_rows names)) }
    ensures err { IfErr result (IfRefused (
        BlamesNames catalogue.now section key (map string_bytes texts.now))) }
{
    let mut names = Vec::new(alloc);
    for (index, text) in texts.iter().enumerate() {
        let place = Place::one(section, key, index);
        names.push(name_of(alloc, catalogue, replacements, place, text.as_str())?)?;
    }
    Ok(names)
}

// The range of a table, if it has one.
fn range_in(
    alloc: Global,
    section: Section,
    versions: Option<&str>,
) -> Result<Option<VersionReq>, Failure<PolicyFault>>
    ensures ok { IfOk result (λ r.
        IsRange (option_copied versions.entry) (option_map range_of r)) }
    ensures err { IfErr result (IfRefused (
        BlamesRange section (option_copied versions.entry))) }
{
    let Some(text) = versions else {
        return Ok(None);
    };
    match VersionReq::parse(alloc, text) {
        Ok(range) => Ok(Some(range)),
        Err(error) => {
            if error == Error::from(AllocError) {
                return Err(Failure::Memory(AllocError));
            }
            let copy = String::from_str(alloc, text)?;
            let words = format!(in alloc; "{error}")?;
            Err(Failure::Refused(PolicyFault::NotARange(section, copy, error, words)))
        }
    }
}

fn text_of(text: &Option<String>) -> Option<&str>
    ensures { option_copied result ≡ option_map string_bytes text.now }
{
    match text {
        Some(text) => Some(text.as_str()),
        None => None,
    }
}

// What a table of the section is for.
fn scope_of(
    alloc: Global,
    section: Section,
    name: &str,
    versions: Option<&str>,
) -> Result<Scope, Failure<PolicyFault>>
    ensures name { IfOk result (λ s. string_bytes s.name ≡ name.now) }
    ensures range { IfOk result (λ s.
        IsRange (option_copied versions.entry) (option_map range_of s.versions)) }
    ensures err { IfErr result (IfRefused (
        BlamesRange section (option_copied versions.entry))) }
{
    let versions = range_in(alloc, section, versions)?;
    Ok(Scope {
        name: String::from_str(alloc, name)?,
        versions,
    })
}

// What an exception is for.
fn exempted_in(
    alloc: Global,
    number: usize,
    exception: &ExceptionDraft,
) -> Result<Scope, Failure<PolicyFault>>
    ensures ok { IfOk result (λ s. IsExempted (exception_row exception.now) (scope_row s)) }
    ensures err { IfErr result (IfRefused (
        BlamesRange (Section.Exception number) (exception_row exception.now).versions)) }
{
    let versions = text_of(&exception.versions);
    scope_of(
        alloc,
        Section::Exception(number),
        exception.name.as_str(),
        versions,
    )
}

/// What the exceptions are for.
pub(crate) fn exempted_of(
    alloc: Global,
    exceptions: &[ExceptionDraft],
) -> Result<Vec<Scope>, Failure<PolicyFault>>
    ensures ok { IfOk result (λ scopes. Each IsExempted
        (map exception_row exceptions.now) (map scope_row scopes.items)) }
    ensures err { IfErr result (IfRefused (
        BlamesExempted (map exception_row exceptions.now))) }
{
    let mut scopes = Vec::new(alloc);
    for (index, exception) in exceptions.iter().enumerate() {
        scopes.push(exempted_in(alloc, index, exception)?)?;
    }
    Ok(scopes)
}

// What an exception allows.
fn exempting_in<'c>(
    alloc: Global,
    catalogue: &'c Catalogue,
    replacements: &Replacements<'c>,
    number: usize,
    exception: &ExceptionDraft,
) -> Result<Vec<Named<'c>>, Failure<PolicyFault>>
    ensures ok { IfOk result (λ names.
        IsExempting catalogue.now replacements.now (exception_row exception.now)
        (named_rows names)) }
    ensures err { IfErr result (IfRefused (BlamesNames catalogue.now (Section.Exception number)
        Key.Allow (exception_row exception.now).allow)) }
{
    names_of(
        alloc,
        catalogue,
        replacements,
        Section::Exception(number),
        Key::Allow,
        &exception.allow,
    )
}

/// What the exceptions allow.
pub(crate) fn exempting_of<'c>(
    alloc: Global,
    catalogue: &'c Catalogue,
    replacements: &Replacements<'c>,
    exceptions: &[ExceptionDraft],
) -> Result<Vec<Vec<Named<'c>>>, Failure<PolicyFault>>
    ensures ok { IfOk result (λ lists. Each (IsExempting catalogue.now replacements.now)
        (map exception_row exceptions.now) (map named_rows lists.items)) }
    ensures err { IfErr result (IfRefused (
        BlamesExempting catalogue.now (map exception_row exceptions.now))) }
{
    let mut lists = Vec::new(alloc);
    for (index, exception) in exceptions.iter().enumerate() {
        lists.push(exempting_in(alloc, catalogue, replacements, index, exception)?)?;
    }
    Ok(lists)
}

// What a clarification is for.
fn clarified_in(
    alloc: Global,
    number: usize,
    clarification: &ClarifyDraft,
) -> Result<Scope, Failure<PolicyFault>>
    ensures ok { IfOk result (λ s. IsClarified (clarify_row clarification.now) (scope_row s)) }
    ensures err { IfErr result (IfRefused (
        BlamesRange (Section.Clarify number) (clarify_row clarification.now).versions)) }
{
    let versions = text_of(&clarification.versions);
    scope_of(
        alloc,
        Section::Clarify(number),
        clarification.name.as_str(),
        versions,
    )
}

/// What the clarifications are for.
pub(crate) fn clarified_of(
    alloc: Global,
    clarifications: &[ClarifyDraft],
) -> Result<Vec<Scope>, Failure<PolicyFault>>
    ensures ok { IfOk result (λ scopes. Each IsClarified
        (map clarify_row clarifications.now) (map scope_row scopes.items)) }
    ensures err { IfErr result (IfRefused (
        BlamesClarified (map clarify_row clarifications.now))) }
{
    let mut scopes = Vec::new(alloc);
    for (index, clarification) in clarifications.iter().enumerate() {
        scopes.push(clarified_in(alloc, index, clarification)?)?;
    }
    Ok(scopes)
}

/// Why each exception is made.
pub(crate) fn reasons_of(
    alloc: Global,
    exceptions: &[ExceptionDraft],
) -> Result<Vec<Option<String>>, AllocError>
    ensures { IfOk result (λ reasons. map (option_map string_bytes) reasons.items
        ≡ map reason (map exception_row exceptions.now)) }
{
    let mut reasons = Vec::new(alloc);
    for exception in exceptions {
        let reason = match &exception.reason {
            Some(reason) => Some(String::from_str(alloc, reason.as_str())?),
            None => None,
        };
        reasons.push(reason)?;
    }
    Ok(reasons)
}

/// What each clarification says.
pub(crate) fn expressions_of(
    alloc: Global,
    clarifications: &[ClarifyDraft],
) -> Result<Vec<String>, AllocError>
    ensures { IfOk result (λ texts. map string_bytes texts.items
        ≡ map expression (map clarify_row clarifications.now)) }
{
    let mut texts = Vec::new(alloc);
    for clarification in clarifications {
        texts.push(String::from_str(alloc, clarification.expression.as_str())?)?;
    }
    Ok(texts)
}
