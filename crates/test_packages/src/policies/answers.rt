// What a policy answers.

use spdx_catalogue::Catalogue;
use spdx_licensee::Licensee;
use spdx_policy::{Decision, Entry, Policy, PolicyError};
use spdx_requirement::LicenseReq;
use spdx_requirement::failure::Failure;
use spdx_requirement::item::LicenseItem;
use std::alloc::{AllocError, Global};

/// What is printed of a policy that is none.
pub(crate) fn fault_text(alloc: Global, error: &PolicyError) -> Result<String, AllocError> {
    match error {
        Failure::Refused(fault) => format!(in alloc; "{fault}"),
        Failure::Memory(_) => String::from_str(alloc, "no memory"),
    }
}

// The requirement of a text: a licensee, a deprecated licence, or either with a mark.
fn requirement<'c>(
    alloc: Global,
    catalogue: &'c Catalogue,
    text: &str,
) -> Result<Option<LicenseReq<'c>>, AllocError> {
    let name = text.trim_end_matches('+');
    let read = match Licensee::parse(alloc, catalogue, name) {
        Ok(licensee) => Some(licensee.into_req()),
        Err(Failure::Memory(error)) => return Err(error),
        Err(Failure::Refused(_)) => catalogue.license_id(name).map(|id| LicenseReq::from(id)),
    };
    match read {
        Some(
            LicenseReq {
                license: LicenseItem::Spdx { id, .. },
                addition,
            },
        ) => Ok(Some(LicenseReq {
            license: LicenseItem::Spdx {
                id,
                or_later: name.len() < text.len(),
            },
            addition,
        })),
        other => Ok(other),
    }
}

fn entry_text(alloc: Global, policy: &Policy<'_>, entry: Entry) -> Result<String, AllocError> {
    let text = policy.entry_text(entry).unwrap_or("nothing");
    match entry {
        Entry::Allow(place) => format!(in alloc; "allow[{place}] {text}"),
        Entry::AllowIf(place) => format!(in alloc; "allow-if[{place}] {text}"),
        Entry::Deny(place) => format!(in alloc; "deny[{place}] {text}"),
        Entry::DenyIf(place) => format!(in alloc; "deny-if[{place}] {text}"),
        Entry::Exception(table, place) => {
            format!(in alloc; "exception[{table}].allow[{place}] {text}")
        }
    }
}

fn decided(alloc: Global, policy: &Policy<'_>, decision: Decision) -> Result<String, AllocError> {
    match decision {
        Decision::Allowed(entry) => {
            let shown = entry_text(alloc, policy, entry)?;
            format!(in alloc; "allowed by {shown}")
        }
        Decision::Denied(entry) => {
            let shown = entry_text(alloc, policy, entry)?;
            format!(in alloc; "denied by {shown}")
        }
        Decision::Open => String::from_str(alloc, "open"),
    }
}

fn settings(alloc: Global, policy: &Policy<'_>) -> Result<String, AllocError> {
    let read = if policy.is_lax() { "lax" } else { "strict" };
    let unstated = if policy.allows_unstated() {
        "allow"
    } else {
        "refuse"
    };
    let (exceptions, clarified) = (policy.exceptions_len(), policy.clarifications_len());
    format!(in alloc; "{read}, {unstated}, {exceptions} exceptions, {clarified} clarifications")
}

fn version_of(text: &str) -> Option<&str> {
    if text == "-" { None } else { Some(text) }
}

fn clarified(alloc: Global, policy: &Policy<'_>, asked: &str) -> Result<String, AllocError> {
    let (name, version) = asked.split_once(' ').unwrap_or((asked, "-"));
    match policy.clarification_for(alloc, name, version_of(version))? {
        Some(table) => String::from_str(alloc, policy.clarification(table).unwrap_or("nothing")),
        None => String::from_str(alloc, "none"),
    }
}

/// What the policy answers to a question.
pub(crate) fn answer<'c>(
    alloc: Global,
    catalogue: &'c Catalogue,
    policy: &Policy<'c>,
    asked: &str,
) -> Result<String, AllocError> {
    if asked == "policy" {
        return settings(alloc, policy);
    }
    if let Some(package) = asked.strip_prefix("? ") {
        return clarified(alloc, policy, package);
    }
    let (name, rest) = asked.split_once(' ').unwrap_or((asked, ""));
    let (version, text) = rest.split_once(' ').unwrap_or((rest, ""));
    match requirement(alloc, catalogue, text)? {
        Some(req) => decided_of(alloc, policy, (name, version_of(version)), &req),
        None => String::from_str(alloc, "no requirement"),
    }
}

fn decided_of<'c>(
    alloc: Global,
    policy: &Policy<'c>,
    (name, version): (&str, Option<&str>),
    req: &LicenseReq<'c>,
) -> Result<String, AllocError> {
    let exceptions = policy.exceptions_for(alloc, name, version)?;
    let decision = policy.decide(alloc, &exceptions, req)?;
    decided(alloc, policy, decision)
}
