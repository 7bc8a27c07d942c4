// The licences that a phrase may mean, by the first rule that gives any.

ghost use Rattle.std.specs.Prelude.{◌≡◌, ◌≤◌, [], All, IfOk, map, filter, find, vec_len};
ghost use Rattle.std.specs.Option.{option_map_or};
ghost use Rattle.spdx_requirement.specs.Rows.{row_of, imprecise_of, license_name};
ghost use Rattle.spdx_hints.specs.Borrowed.{nows};
ghost use Rattle.spdx_hints.specs.Hints as spec;
ghost use Rattle.spdx_hints.specs.Hints.{AreOfRule, IsGoodName, hints_of, rule_of};
ghost use Rattle.spdx_hints.specs.Rules as rules;

use crate::plain::plain_of;
use crate::rule::{Rule, may_be_meant, spellings};
use crate::words::{has_numbers, has_words};
use spdx_catalogue::Catalogue;
use spdx_requirement::LicenseId;
use spdx_requirement::row::{ImpreciseName, License};
use std::alloc::{AllocError, Global};

// No more names than a reader looks through.
const MOST: usize = 6;

// No longer phrase has a meaning, so that one costs no more than a walk over the rows.
const LONGEST: usize = 128;

/// What a phrase may mean.
#[derive(Drop)]
pub struct Meant<'c> {
    /// Names of listed licences, in the catalogue's order.
    pub names: Vec<&'c str>,
    /// The rule that gave them; `None` exactly where there are none.
    pub rule: Option<Rule>,
}

/// The names of the listed licences that the phrase may mean, none of them deprecated and at most
/// six: those that the first rule gives which gives any, and which that is. The rules are asked in
/// the order of `Rule`, whose variants say them. Where one finds more than six it gives those that
/// the Open Source Initiative has approved, or none if these are more than six too.
///
/// A phrase with a link is what stands before it, unless nothing does, and initials are read without
/// their dots, `M.I.T.` as `MIT`. A phrase without a word, or of more than 128 bytes, means none.
/// Linear in the catalogue's rows, times the imprecise names that have the phrase's words.
///
/// # Errors
///
/// Memory was refused.
pub fn hints<'c>(
    alloc: Global,
    catalogue: &'c Catalogue,
    phrase: &[u8],
) -> Result<Meant<'c>, AllocError>
    ensures names { IfOk result (λ meant. nows meant.names.items
        ≡ hints_of catalogue.entry.now phrase.now) }
    ensures rule { IfOk result (λ meant. meant.rule ≡ rule_of catalogue.entry.now phrase.now) }
    ensures first { IfOk result (λ meant. AreOfRule catalogue.entry.now phrase.now
        (nows meant.names.items) meant.rule) }
    ensures few { IfOk result (λ meant. vec_len meant.names ≤ 6) }
    ensures good { IfOk result (λ meant.
        All (IsGoodName catalogue.entry.now) (nows meant.names.items)) }
{
    let plain = plain_of(alloc, phrase)?;
    let given = given_for(alloc, catalogue, &plain)?;
    let names = names_of(alloc, given.rows.as_slice())?;
    Ok(Meant {
        names,
        rule: given.rule,
    })
}

// The licences that the first rule gives which gives any, and that rule.
#[derive(Drop)]
struct Given<'c> {
    rows: Vec<&'c License>,
    rule: Option<Rule>,
}

fn nothing<'c>(alloc: Global) -> Given<'c>
    ensures rows { result.rows.items ≡ [] }
    ensures rule { result.rule ≡ None }
{
    Given {
        rows: Vec::new(alloc),
        rule: None,
    }
}

fn given_for<'c>(
    alloc: Global,
    catalogue: &'c Catalogue,
    phrase: &[u8],
) -> Result<Given<'c>, AllocError>
    ensures rows { IfOk result (λ given. map row_of (nows given.rows.items)
        ≡ option_map_or (spec.meant_by catalogue.entry.now phrase.now) given.rule []) }
    ensures rule { IfOk result (λ given. given.rule
        ≡ find (spec.means_by catalogue.entry.now phrase.now) spec.rules_asked) }
{
    if !can_mean(phrase) {
        return Ok(nothing(alloc));
    }
    let found = spellings(alloc, catalogue.imprecise_names(), phrase)?;
    first_given(alloc, catalogue.licenses(), found.as_slice(), phrase)
}

fn can_mean(phrase: &[u8]) -> bool
    ensures { result ≡ spec.can_mean phrase.now }
{
    phrase.len() <= LONGEST && !(has_words(b"", phrase) && has_numbers(b"", phrase))
}

fn names_of<'c>(alloc: Global, rows: &[&'c License]) -> Result<Vec<&'c str>, AllocError>
    ensures { IfOk result (λ names. nows names.items
        ≡ map license_name (map row_of (nows rows.entry.now))) }
{
    let mut names = Vec::new(alloc);
    for row in rows {
        names.push(row.name.as_str())?;
    }
    Ok(names)
}

fn first_given<'c>(
    alloc: Global,
    licenses: &'c [License],
    found: &[&ImpreciseName],
    phrase: &[u8],
) -> Result<Given<'c>, AllocError>
    ensures rows { IfOk result (λ given. map row_of (nows given.rows.items)
        ≡ option_map_or (spec.given_by (map imprecise_of (nows found.now)) phrase.now
        (map row_of licenses.entry.now)) given.rule []) }
    ensures rule { IfOk result (λ given. given.rule
        ≡ find (spec.gives (map imprecise_of (nows found.now)) phrase.now
        (map row_of licenses.entry.now)) spec.rules_asked) }
{
    let rules = [
        Rule::SameWords,
        Rule::SameTitle,
        Rule::SameFamily,
        Rule::OtherVersion,
        Rule::OneEdit,
        Rule::TwoEdits,
    ];
    for rule in rules {
        let rows = given_by(alloc, licenses, found, phrase, rule)?;
        if !rows.is_empty() {
            return Ok(Given {
                rows,
                rule: Some(rule),
            });
        }
    }
    Ok(nothing(alloc))
}

fn given_by<'c>(
    alloc: Global,
    licenses: &'c [License],
    found: &[&ImpreciseName],
    phrase: &[u8],
    rule: Rule,
) -> Result<Vec<&'c License>, AllocError>
    ensures { IfOk result (λ rows. map row_of (nows rows.items)
        ≡ spec.given_by (map imprecise_of (nows found.now)) phrase.now
        (map row_of licenses.entry.now) rule) }
{
    let rows = rows_by(alloc, licenses, found, phrase, rule)?;
    if rows.len() <= MOST {
        return Ok(rows);
    }
    let approved = approved(alloc, rows.as_slice())?;
    if approved.len() <= MOST {
        Ok(approved)
    } else {
        Ok(Vec::new(alloc))
    }
}

fn rows_by<'c>(
    alloc: Global,
    licenses: &'c [License],
    found: &[&ImpreciseName],
    phrase: &[u8],
    rule: Rule,
) -> Result<Vec<&'c License>, AllocError>
    ensures { IfOk result (λ rows. map row_of (nows rows.items)
        ≡ filter (rules.may_be_meant rule (map imprecise_of (nows found.now)) phrase.now)
        (map row_of licenses.entry.now)) }
{
    let mut rows = Vec::new(alloc);
    for row in licenses {
        if may_be_meant(alloc, rule, found, phrase, row)? {
            rows.push(row)?;
        }
    }
    Ok(rows)
}

fn approved<'c>(alloc: Global, rows: &[&'c License]) -> Result<Vec<&'c License>, AllocError>
    ensures { IfOk result (λ kept. map row_of (nows kept.items)
        ≡ filter spec.is_approved (map row_of (nows rows.entry.now))) }
{
    let mut kept = Vec::new(alloc);
    for row in rows {
        if LicenseId::new(row).is_osi_approved() {
            kept.push(*row)?;
        }
    }
    Ok(kept)
}
