// The rules by which a licence may be meant.

ghost use Rattle.std.specs.Prelude.{◌≡◌, ◌-◌, ◌≤◌, IfOk, map, max, min};
ghost use Rattle.std.specs.Str.{str_to_ascii_lowercase};
ghost use Rattle.spdx_requirement.specs.Rows.{row_of, imprecise_of};
ghost use Rattle.spdx_hints.specs.Rules as spec;
ghost use Rattle.spdx_hints.specs.Borrowed.{nows};

use crate::words::{has_numbers, has_word, has_words, keeps_telling, word};
use spdx_requirement::LicenseId;
use spdx_requirement::row::{ImpreciseName, License};
use std::alloc::{AllocError, Global};
use strsim::generic_levenshtein;

/// How a licence may be meant by a phrase, in the order in which the rules are asked. Words and numbers are compared in any
/// order, the case of ASCII letters and words as `the`, `license` and `version` aside.
#[derive(Clone, Copy, Debug, PartialEq, Eq)]
pub enum Rule {
    /// Its name, its full name or an imprecise name for it has the same words and numbers.
    SameWords,
    /// Its name or full name has the same words, and the phrase's numbers among others.
    SameTitle,
    /// The word before its name's first hyphen is in the phrase, whose numbers are in the name, and
    /// whose telling words, as `Affero`, are in its name or full name. Of these only the licences that
    /// others recognise, since many of the words are common ones.
    SameFamily,
    /// Its name or full name has the same words, of which there is one at least, whatever the numbers: the licence is
    /// listed, and this version isn't.
    OtherVersion,
    /// One edit leads from the phrase to its name, and the numbers are the same. An edit puts in, takes out or changes a
    /// byte.
    OneEdit,
    /// Two edits do.
    TwoEdits,
}

impl Rule {
    /// How the rule is called where its hints are told: `same-words`, `same-title`, `same-family`, `other-version`,
    /// `one-edit` or `two-edits`.
    pub fn word(self) -> &'static str
        ensures { result.now ≡ spec.rule_word self }
    {
        match self {
            Rule::SameWords => "same-words",
            Rule::SameTitle => "same-title",
            Rule::SameFamily => "same-family",
            Rule::OtherVersion => "other-version",
            Rule::OneEdit => "one-edit",
            Rule::TwoEdits => "two-edits",
        }
    }
}

fn same_numbers(a: &[u8], b: &[u8]) -> bool
    ensures { result ≡ spec.same_numbers a.now b.now }
{
    has_numbers(a, b) && has_numbers(b, a)
}

fn same_words(a: &[u8], b: &[u8]) -> bool
    ensures { result ≡ spec.same_words a.now b.now }
{
    has_words(a, b) && has_words(b, a)
}

fn alike(a: &[u8], b: &[u8]) -> bool
    ensures { result ≡ spec.alike a.now b.now }
{
    same_words(a, b) && same_numbers(a, b)
}

/// The imprecise names of the phrase's words and numbers.
pub(crate) fn spellings<'c>(
    alloc: Global,
    names: &'c [ImpreciseName],
    phrase: &[u8],
) -> Result<Vec<&'c ImpreciseName>, AllocError>
    ensures { IfOk result (λ found. map imprecise_of (nows found.items)
        ≡ spec.spellings (map imprecise_of names.entry.now) phrase.now) }
{
    let mut found = Vec::new(alloc);
    for name in names {
        if alike(phrase, name.prefix.as_bytes()) {
            found.push(name)?;
        }
    }
    Ok(found)
}

fn is_spelled(found: &[&ImpreciseName], row: &License) -> bool
    ensures { result
        ≡ spec.is_spelled (map imprecise_of (nows found.now)) (row_of row.now) }
{
    let name = row.name.as_bytes();
    found
        .iter()
        .any(|spelling| spelling.name.as_bytes() == name)
}

fn has_same_words(found: &[&ImpreciseName], phrase: &[u8], row: &License) -> bool
    ensures { result
        ≡ spec.has_same_words (map imprecise_of (nows found.now)) phrase.now (row_of row.now) }
{
    alike(phrase, row.name.as_bytes())
        || alike(phrase, row.full_name.as_bytes())
        || is_spelled(found, row)
}

fn is_titled(phrase: &[u8], text: &[u8]) -> bool
    ensures { result ≡ spec.is_titled phrase.now text.now }
{
    same_words(phrase, text) && has_numbers(text, phrase)
}

fn has_same_title(phrase: &[u8], row: &License) -> bool
    ensures { result ≡ spec.has_same_title phrase.now (row_of row.now) }
{
    is_titled(phrase, row.name.as_bytes()) || is_titled(phrase, row.full_name.as_bytes())
}

fn is_recognised(row: &License) -> bool
    ensures { result ≡ spec.is_recognised (row_of row.now) }
{
    let id = LicenseId::new(row);
    id.is_osi_approved() || id.is_fsf_free_libre()
}

fn has_same_family(phrase: &[u8], row: &License) -> bool
    ensures { result ≡ spec.has_same_family phrase.now (row_of row.now) }
{
    let family = word(LicenseId::new(row).base().as_bytes());
    is_recognised(row)
        && family.len() >= 3
        && has_word(phrase, family)
        && has_numbers(row.name.as_bytes(), phrase)
        && keeps_telling(row.name.as_bytes(), row.full_name.as_bytes(), phrase)
}

fn has_other_numbers(phrase: &[u8], row: &License) -> bool
    ensures { result ≡ spec.has_other_numbers phrase.now (row_of row.now) }
{
    !has_words(b"", phrase)
        && (same_words(phrase, row.name.as_bytes()) || same_words(phrase, row.full_name.as_bytes()))
}

fn lowercase(alloc: Global, text: &[u8]) -> Result<Vec<u8>, AllocError>
    ensures { IfOk result (λ lower. lower.items ≡ str_to_ascii_lowercase text.now) }
{
    text.iter()
        .map(|byte| byte.to_ascii_lowercase())
        .collect(alloc)
}

fn edits(alloc: Global, a: &[u8], b: &[u8]) -> Result<usize, AllocError>
    ensures { IfOk result (λ count. count ≡ spec.edits a.now b.now) }
{
    let (a, b) = (lowercase(alloc, a)?, lowercase(alloc, b)?);
    generic_levenshtein(alloc, a.as_slice(), b.as_slice())
}

// How far apart two lengths are.
fn gap(a: usize, b: usize) -> usize
    ensures { result ≡ max a b - min a b }
{
    a.max(b) - a.min(b)
}

fn is_near(alloc: Global, most: usize, phrase: &[u8], name: &[u8]) -> Result<bool, AllocError>
    requires { most ≤ 2 }
    ensures { IfOk result (λ is. is ≡ spec.is_near most phrase.now name.now) }
{
    if most * 5 <= name.len()
        && gap(phrase.len(), name.len()) <= most
        && same_numbers(phrase, name)
    {
        Ok(edits(alloc, phrase, name)? <= most)
    } else {
        Ok(false)
    }
}

fn holds(
    alloc: Global,
    rule: Rule,
    found: &[&ImpreciseName],
    phrase: &[u8],
    row: &License,
) -> Result<bool, AllocError>
    ensures { IfOk result (λ is. is
        ≡ spec.holds rule (map imprecise_of (nows found.now)) phrase.now (row_of row.now)) }
{
    match rule {
        Rule::SameWords => Ok(has_same_words(found, phrase, row)),
        Rule::SameTitle => Ok(has_same_title(phrase, row)),
        Rule::SameFamily => Ok(has_same_family(phrase, row)),
        Rule::OtherVersion => Ok(has_other_numbers(phrase, row)),
        Rule::OneEdit => is_near(alloc, 1, phrase, row.name.as_bytes()),
        Rule::TwoEdits => is_near(alloc, 2, phrase, row.name.as_bytes()),
    }
}

/// Whether the licence may be hinted at by the rule.
pub(crate) fn may_be_meant(
    alloc: Global,
    rule: Rule,
    found: &[&ImpreciseName],
    phrase: &[u8],
    row: &License,
) -> Result<bool, AllocError>
    ensures { IfOk result (λ may. may
        ≡ spec.may_be_meant rule (map imprecise_of (nows found.now)) phrase.now (row_of row.now)) }
{
    if LicenseId::new(row).is_deprecated() {
        return Ok(false);
    }
    holds(alloc, rule, found, phrase, row)
}
