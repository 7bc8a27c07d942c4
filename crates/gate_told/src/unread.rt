// Why an expression can't be read, and what would help.

ghost use Rattle.std.specs.Prelude.{◌≡◌, ◌++◌, IfOk, OnOk, flat_map, option_map, string_bytes};
ghost use Rattle.spdx_hints.specs.Borrowed.{nows};
ghost use Rattle.gate_told.specs.Unread as spec;
ghost use Rattle.gate_told.specs.Unread.{
  IsMended,
  IsPart,
  IsReason,
  help_words,
  meant_words,
  mended_words,
  names_words,
  next_name,
  part_words,
  unlisted_words,
};

use spdx_canonical::fix;
use spdx_catalogue::Catalogue;
use spdx_gate::Fault;
use spdx_hints::{hints, phrase};
use spdx_lexer::error::Reason;
use std::alloc::{AllocError, Global};

// A longer text isn't told beside the reason.
const LONGEST: usize = 120;

/// The reason of a fault, with the part of the text that it is about, and what to write or to say in the policy: the
/// mended text where there is one; else the names that may be meant; else, where a name isn't known, of which list that is
/// said.
pub(crate) fn told_reason(
    alloc: Global,
    catalogue: &Catalogue,
    is_lax: bool,
    text: &str,
    fault: &Fault,
) -> Result<String, AllocError>
    ensures { IfOk result (λ told.
        IsReason catalogue.now is_lax text.now fault.now (string_bytes told)) }
{
    let reason = fault.reason;
    let mut told = format!(in alloc; "{reason}")?;
    put_part(
        &mut told,
        text,
        part_of(text, fault.span.start, fault.span.end),
    )?;
    let mended = mended(alloc, catalogue, is_lax, text)?;
    put_help(alloc, &mut told, catalogue, text, fault, &mended)?;
    Ok(told)
}

// The part of the text between the two places; nothing where they cut a character.
fn part_of(text: &str, start: usize, end: usize) -> &str
    ensures { IsPart text.now start end result.now }
{
    if start <= end && text.is_char_boundary(start) && text.is_char_boundary(end) {
        return &text[start..end];
    }
    ""
}

fn put_part(told: &mut String, text: &str, part: &str) -> Result<(), AllocError>
    ensures { OnOk result (
        string_bytes told.new ≡ string_bytes told.old ++ part_words text.now part.now) }
{
    if !part.is_empty() && part.len() <= LONGEST && part.len() < text.len() {
        told.push_str(": ")?;
        told.push_str(part)?;
    }
    Ok(())
}

// The text mended; none where texts are read lax, and need not be.
fn mended(
    alloc: Global,
    catalogue: &Catalogue,
    is_lax: bool,
    text: &str,
) -> Result<Option<String>, AllocError>
    ensures { IfOk result (λ mended.
        IsMended catalogue.now is_lax text.now (option_map string_bytes mended)) }
{
    if is_lax {
        return Ok(None);
    }
    fix(alloc, catalogue, text)
}

fn put_help(
    alloc: Global,
    told: &mut String,
    catalogue: &Catalogue,
    text: &str,
    fault: &Fault,
    mended: &Option<String>,
) -> Result<(), AllocError>
    ensures { OnOk result (string_bytes told.new ≡ string_bytes told.old
        ++ help_words catalogue.now text.now fault.now (option_map string_bytes mended.now)) }
{
    match mended {
        Some(mended) => put_mended(told, mended.as_str()),
        None if wants_name(fault.reason) => {
            let meant = hints(alloc, catalogue, phrase(text.as_bytes(), fault.span.start))?;
            put_names(told, catalogue, &meant.names)
        }
        None => Ok(()),
    }
}

fn put_mended(told: &mut String, mended: &str) -> Result<(), AllocError>
    ensures { OnOk result (
        string_bytes told.new ≡ string_bytes told.old ++ mended_words mended.now) }
{
    told.push_str("; write ")?;
    put_short(told, mended)?;
    told.push_str(", or say read = \"lax\" in the policy")?;
    Ok(())
}

fn put_short(told: &mut String, mended: &str) -> Result<(), AllocError>
    ensures { OnOk result (
        string_bytes told.new ≡ string_bytes told.old ++ spec.short_words mended.now) }
{
    if mended.len() <= LONGEST {
        told.push_str(mended)
    } else {
        told.push_str("what 'spdx fix' does")
    }
}

// The names that may be meant; where none may, which list hasn't the name.
fn put_names(told: &mut String, catalogue: &Catalogue, names: &[&str]) -> Result<(), AllocError>
    ensures { OnOk result (string_bytes told.new ≡
        string_bytes told.old ++ names_words catalogue.now (nows names.now)) }
{
    match names.split_first() {
        Some((first, others)) => put_meant(told, first, others),
        None => put_unlisted(told, catalogue),
    }
}

fn put_unlisted(told: &mut String, catalogue: &Catalogue) -> Result<(), AllocError>
    ensures { OnOk result (
        string_bytes told.new ≡ string_bytes told.old ++ unlisted_words catalogue.now) }
{
    told.push_str("; not in the list ")?;
    told.push_str(catalogue.license_version())?;
    told.push_str(", see --list")?;
    Ok(())
}

fn put_meant(told: &mut String, first: &str, others: &[&str]) -> Result<(), AllocError>
    ensures { OnOk result (string_bytes told.new ≡
        string_bytes told.old ++ meant_words first.now (nows others.now)) }
{
    told.push_str("; did you mean ")?;
    told.push_str(first)?;
    put_others(told, others)
}

fn put_others(told: &mut String, names: &[&str]) -> Result<(), AllocError>
    ensures { OnOk result (string_bytes told.new ≡
        string_bytes told.old ++ flat_map next_name (nows names.now)) }
{
    for name in names {
        told.push_str(", ")?;
        told.push_str(name)?;
    }
    Ok(())
}

// Whether a name stands at the fault that the list hasn't.
fn wants_name(reason: Reason) -> bool
    ensures { result ≡ spec.wants_name reason }
{
    matches!(
        reason,
        Reason::UnknownTerm | Reason::UnknownLicense | Reason::UnknownException
    )
}
