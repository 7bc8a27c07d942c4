// What a policy has that was of no use.

ghost use Rattle.std.specs.Prelude.{◌≡◌, ◌++◌, IfOk, OnErr, OnOk, map, string_bytes};
ghost use Rattle.gate_forms.specs.Totals.{unused_text};
ghost use Rattle.spdx_evaluation.specs.Requirements.{nows};
ghost use Rattle.gate_told.specs.Borrowed.{borrowed};
ghost use Rattle.gate_told.specs.Unused as spec;
ghost use Rattle.gate_told.specs.Unused.{
  IsAllUsed,
  unused_clarification,
  unused_clarifications,
  unused_entry,
  unused_exception,
  unused_exceptions,
  unused_in,
  unused_of,
};

use crate::entries::{entry_text, exception_text, text_or_none};
use gate_forms::put_unused;
use spdx_gate::{Report, Uses};
use spdx_policy::{Entry, Policy};
use std::alloc::{AllocError, Global};

/// A list of a policy's entries.
#[derive(Clone, Copy)]
pub(crate) enum EntryList {
    Deny,
    DenyIf,
    Allow,
    AllowIf,
    /// That of the exception of this number.
    Exception(usize),
}

/// Appends a warning with the entries of the policy that decided nothing, the exceptions that hold for no package, and the
/// clarifications that hold for none: in that order, the entries those of `deny`, `deny-if`, `allow` and `allow-if`, each
/// list in its own order. In the place of an exception that holds stand its entries that decided nothing. Where all is
/// used nothing is said.
///
/// Takes `n log n` steps, for `n` decisions of the report's judgements, exceptions of its packages and entries of the
/// policy.
///
/// # Errors
///
/// Memory was refused, and the text is as it was.
#[tactic(auto, using(crate::proofs::Written::unused_written))]
pub fn put_all_unused(
    alloc: Global,
    text: &mut Vec<u8>,
    path: &str,
    policy: &Policy<'_>,
    report: &Report<'_>,
) -> Result<(), AllocError>
    ensures ok { OnOk result (text.new.items ≡ text.old.items
        ++ unused_text path.now (map borrowed (unused_of policy.now report.now))) }
    ensures err { OnErr result (text.new.items ≡ text.old.items) }
    ensures silent { IsAllUsed policy.now report.now → text.new.items ≡ text.old.items }
{
    let uses = Uses::of(alloc, report)?;
    let unused = all_unused(alloc, policy, &uses)?;
    let names = names_of(alloc, &unused)?;
    put_unused(alloc, text, path, &names)
}

// The texts, borrowed.
pub(crate) fn names_of<'t>(alloc: Global, texts: &'t [String]) -> Result<Vec<&'t str>, AllocError>
    ensures { IfOk result (λ names. nows names.items ≡ map string_bytes texts.now) }
{
    let mut names = Vec::new(alloc);
    for text in texts {
        names.push(text.as_str())?;
    }
    Ok(names)
}

fn all_unused(
    alloc: Global,
    policy: &Policy<'_>,
    uses: &Uses<'_, '_>,
) -> Result<Vec<String>, AllocError>
    ensures { IfOk result (λ unused.
        map string_bytes unused.items ≡ unused_of policy.now uses.now) }
{
    let mut unused = Vec::new(alloc);
    add_unused(alloc, &mut unused, policy, uses, EntryList::Deny)?;
    add_unused(alloc, &mut unused, policy, uses, EntryList::DenyIf)?;
    add_unused(alloc, &mut unused, policy, uses, EntryList::Allow)?;
    add_unused(alloc, &mut unused, policy, uses, EntryList::AllowIf)?;
    add_exceptions(alloc, &mut unused, policy, uses)?;
    add_clarifications(alloc, &mut unused, policy, uses)?;
    Ok(unused)
}

// Adds the entries of a list that decided nothing.
#[tactic(auto, using(crate::proofs::Ranges::flat_range))]
fn add_unused(
    alloc: Global,
    unused: &mut Vec<String>,
    policy: &Policy<'_>,
    uses: &Uses<'_, '_>,
    list: EntryList,
) -> Result<(), AllocError>
    ensures { OnOk result (map string_bytes unused.new.items
        ≡ map string_bytes unused.old.items ++ unused_in policy.now uses.now list) }
{
    for place in 0..list.len(policy) {
        add_if_unused(alloc, unused, policy, uses, list.entry(place))?;
    }
    Ok(())
}

fn add_if_unused(
    alloc: Global,
    unused: &mut Vec<String>,
    policy: &Policy<'_>,
    uses: &Uses<'_, '_>,
    entry: Entry,
) -> Result<(), AllocError>
    ensures { OnOk result (map string_bytes unused.new.items
        ≡ map string_bytes unused.old.items ++ unused_entry policy.now uses.now entry) }
{
    if uses.is_entry_used(entry) {
        return Ok(());
    }
    unused.push(entry_text(alloc, policy, entry)?)?;
    Ok(())
}

#[tactic(auto, using(crate::proofs::Ranges::flat_range))]
fn add_exceptions(
    alloc: Global,
    unused: &mut Vec<String>,
    policy: &Policy<'_>,
    uses: &Uses<'_, '_>,
) -> Result<(), AllocError>
    ensures { OnOk result (map string_bytes unused.new.items
        ≡ map string_bytes unused.old.items ++ unused_exceptions policy.now uses.now) }
{
    for table in 0..policy.exceptions_len() {
        add_exception(alloc, unused, policy, uses, table)?;
    }
    Ok(())
}

fn add_exception(
    alloc: Global,
    unused: &mut Vec<String>,
    policy: &Policy<'_>,
    uses: &Uses<'_, '_>,
    table: usize,
) -> Result<(), AllocError>
    ensures { OnOk result (map string_bytes unused.new.items
        ≡ map string_bytes unused.old.items ++ unused_exception policy.now uses.now table) }
{
    if uses.is_exception_used(table) {
        return add_unused(alloc, unused, policy, uses, EntryList::Exception(table));
    }
    unused.push(exception_text(alloc, policy, table)?)?;
    Ok(())
}

#[tactic(auto, using(crate::proofs::Ranges::flat_range))]
fn add_clarifications(
    alloc: Global,
    unused: &mut Vec<String>,
    policy: &Policy<'_>,
    uses: &Uses<'_, '_>,
) -> Result<(), AllocError>
    ensures { OnOk result (map string_bytes unused.new.items
        ≡ map string_bytes unused.old.items ++ unused_clarifications policy.now uses.now) }
{
    for table in 0..policy.clarifications_len() {
        add_clarification(alloc, unused, policy, uses, table)?;
    }
    Ok(())
}

fn add_clarification(
    alloc: Global,
    unused: &mut Vec<String>,
    policy: &Policy<'_>,
    uses: &Uses<'_, '_>,
    table: usize,
) -> Result<(), AllocError>
    ensures { OnOk result (map string_bytes unused.new.items
        ≡ map string_bytes unused.old.items ++ unused_clarification policy.now uses.now table) }
{
    if uses.is_clarification_used(table) {
        return Ok(());
    }
    unused.push(clarification_text(alloc, policy, table)?)?;
    Ok(())
}

fn clarification_text(
    alloc: Global,
    policy: &Policy<'_>,
    table: usize,
) -> Result<String, AllocError>
    ensures { IfOk result (λ text. string_bytes text ≡ spec.clarification_text policy.now table) }
{
    let mut told = String::from_str(alloc, "clarify for ")?;
    told.push_str(text_or_none(policy.clarification_package(table)))?;
    Ok(told)
}

impl EntryList {
    fn len(self, policy: &Policy<'_>) -> usize
        ensures { result ≡ spec.list_len policy.now self }
    {
        match self {
            EntryList::Deny => policy.deny_len(),
            EntryList::DenyIf => policy.deny_if_len(),
            EntryList::Allow => policy.allow_len(),
            EntryList::AllowIf => policy.allow_if_len(),
            EntryList::Exception(table) => policy.exception_len(table),
        }
    }

    fn entry(self, place: usize) -> Entry
        ensures { result ≡ spec.entry_in self place }
    {
        match self {
            EntryList::Deny => Entry::Deny(place),
            EntryList::DenyIf => Entry::DenyIf(place),
            EntryList::Allow => Entry::Allow(place),
            EntryList::AllowIf => Entry::AllowIf(place),
            EntryList::Exception(table) => Entry::Exception(table, place),
        }
    }
}
