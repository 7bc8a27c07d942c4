// The entries of a policy, as they are told.

ghost use Rattle.std.specs.Prelude.{◌≡◌, [], IfOk, string_bytes, unwrap_or};
ghost use Rattle.std.specs.Option.{option_copied};
ghost use Rattle.spdx_policy.specs.Rules as rules;
ghost use Rattle.gate_told.specs.Entries.{exception_text, list_text, told_entry};

use spdx_policy::{Entry, Policy};
use std::alloc::{AllocError, Global};

/// An entry as its file has it, in quotes behind its list: `deny "AGPL-3.0-only"`, `exception for left-pad "GPL-3.0-only"`.
/// The text of an entry that isn't there is empty.
///
/// # Errors
///
/// Memory was refused.
pub fn entry_text(alloc: Global, policy: &Policy<'_>, entry: Entry) -> Result<String, AllocError>
    ensures { IfOk result (λ text. string_bytes text ≡ told_entry policy.now entry) }
{
    let mut told = list_text(alloc, policy, entry)?;
    told.push_str(" \"")?;
    told.push_str(text_or_none(policy.entry_text(entry)))?;
    told.push_str("\"")?;
    Ok(told)
}

fn list_text(alloc: Global, policy: &Policy<'_>, entry: Entry) -> Result<String, AllocError>
    ensures { IfOk result (λ text. string_bytes text ≡ list_text policy.now entry) }
{
    match entry {
        Entry::Allow(_) => String::from_str(alloc, "allow"),
        Entry::AllowIf(_) => String::from_str(alloc, "allow-if"),
        Entry::Deny(_) => String::from_str(alloc, "deny"),
        Entry::DenyIf(_) => String::from_str(alloc, "deny-if"),
        Entry::Exception(table, _) => exception_text(alloc, policy, table),
    }
}

/// An exception, by its package.
pub(crate) fn exception_text(
    alloc: Global,
    policy: &Policy<'_>,
    table: usize,
) -> Result<String, AllocError>
    ensures { IfOk result (λ text. string_bytes text ≡ exception_text policy.now table) }
{
    let mut told = String::from_str(alloc, "exception for ")?;
    told.push_str(text_or_none(policy.exception_package(table)))?;
    Ok(told)
}

/// The text, or the empty one.
pub(crate) fn text_or_none(text: Option<&str>) -> &str
    ensures { result.now ≡ unwrap_or (option_copied text.entry) [] }
{
    match text {
        Some(text) => text,
        None => "",
    }
}
