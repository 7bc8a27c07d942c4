//! What would make all refused packages pass.

ghost use Rattle.std.specs.Prelude.{
  ◌≡◌,
  ◌^◌,
  ℕ,
  List,
  IfOk,
  OnOk,
  fold,
  length,
  map,
  string_bytes,
  count_by,
};
ghost use Rattle.std.specs.Option.{option_copied};
ghost use Rattle.spdx_gate.specs.Counts.{CountsDifferent, CountsEach, Has, HasRoom, count_in};
ghost use Rattle.spdx_gate.specs.Needs as spec;
ghost use Rattle.spdx_gate.specs.Needs.{NeedsWork, need_entry, need_packages, texts_of};

use crate::advice::Advice;
use crate::package::Verdict;
use crate::report::{Report, Row};
use std::alloc::{AllocError, Global};
use std::collections::{BTreeMap, BTreeSet};

/// An entry that refused packages need in `allow` to pass.
#[derive(Debug, Drop)]
pub struct Need {
    pub entry: String,
    /// How many refused packages need it.
    pub packages: usize,
}

impl Report<'_> {
    /// The entries that would make refused packages pass: those of each one's advice, each once, in
    /// the order of the packages that need them first, and how many need each. With all of them in
    /// `allow` each refused package passes that something helps. Takes `n log n` comparisons of
    /// texts, for `n` entries of all advice together.
    pub fn needs(&self, alloc: Global) -> Result<Vec<Need>, AllocError>
        ensures entries { IfOk result (λ needs.
            map need_entry needs.items ≡ spec.entries_needed self.now) }
        ensures packages { IfOk result (λ needs. map need_packages needs.items
            ≡ map (spec.packages_needing self.now) (spec.entries_needed self.now)) }
        ensures works { IfOk result (λ needs. NeedsWork self.now needs.items) }
    {
        let entries = self.entries_needed(alloc)?;
        let packages = self.packages_needing(alloc)?;
        let needs = counted(alloc, entries.as_slice(), &packages)?;
        Ok(needs)
    }

    // The entries that packages need, each once, as they are needed first.
    fn entries_needed(&self, alloc: Global) -> Result<Vec<&str>, AllocError>
        ensures { IfOk result (λ entries.
            texts_of entries.items ≡ spec.entries_needed self.now) }
    {
        let mut met = BTreeSet::new(alloc);
        let mut entries = Vec::new(alloc);
        let rows = self.rows.as_slice();
        for row in rows {
            add_new(self.needed_by(row), &mut met, &mut entries)?;
        }
        Ok(entries)
    }

    // How many packages need each entry.
    fn packages_needing(&self, alloc: Global) -> Result<BTreeMap<&str, usize>, AllocError>
        ensures { IfOk result (λ packages. (q : List ℕ) →
            count_in packages q ≡ spec.packages_needing self.now q) }
    {
        let mut packages = BTreeMap::new(alloc);
        let rows = self.rows.as_slice();
        for row in rows {
            count_different(alloc, &mut packages, self.needed_by(row))?;
        }
        Ok(packages)
    }

    // The entries that a package needs.
    fn needed_by(&self, row: &Row) -> &[String]
        ensures { map string_bytes result.now
            ≡ spec.needed_by self.now.judgements.items row.now }
    {
        match self.advice_on(row) {
            Some(Advice::Allow(texts)) => texts.as_slice(),
            _ => &[],
        }
    }

    // The advice on a refused package; none where no expression of it was judged.
    fn advice_on(&self, row: &Row) -> Option<&Advice>
        ensures { option_copied result ≡ spec.advice_on self.now.judgements.items row.now }
    {
        match (row.verdict, row.judgement) {
            (Verdict::Refused, Some(place)) => match self.judgements.get(place) {
                Some(judgement) => judgement.advice(),
                None => None,
            },
            _ => None,
        }
    }

    /// How many refused packages nothing that may be allowed makes pass: also those whose text is no
    /// expression, and those that state no licence.
    pub fn unmet(&self) -> usize
        ensures { result ≡ count_by (spec.is_unmet self.now.judgements.items)
            self.now.rows.items }
    {
        self.rows
            .iter()
            .filter(|row| !row.verdict.is_allowed() && is_unmet(self.advice_on(row)))
            .count()
    }

    /// For how many refused packages it was not sought what helps, among too many entries.
    pub fn unsought(&self) -> usize
        ensures { result ≡ count_by (spec.is_unsought self.now.judgements.items)
            self.now.rows.items }
    {
        self.rows
            .iter()
            .filter(|row| is_unsought(self.advice_on(row)))
            .count()
    }
}

// The entries, each with how many packages need it.
fn counted(
    alloc: Global,
    entries: &[&str],
    packages: &BTreeMap<&str, usize>,
) -> Result<Vec<Need>, AllocError>
    ensures entries { IfOk result (λ needs.
        map need_entry needs.items ≡ texts_of entries.now) }
    ensures packages { IfOk result (λ needs.
        map need_packages needs.items ≡ map (count_in packages.now) (texts_of entries.now)) }
{
    let mut needs = Vec::new(alloc);
    for entry in entries {
        needs.push(Need {
            entry: String::from_str(alloc, entry)?,
            packages: count_of(packages, entry),
        })?;
    }
    Ok(needs)
}

fn count_of(counts: &BTreeMap<&str, usize>, text: &str) -> usize
    ensures { result ≡ count_in counts.now text.now }
{
    counts.get(text).copied().unwrap_or(0)
}

// Counts each different one of the texts once more.
fn count_different<'r>(
    alloc: Global,
    counts: &mut BTreeMap<&'r str, usize>,
    texts: &'r [String],
) -> Result<(), AllocError>
    requires { HasRoom counts.old (2 ^ 63) }
    ensures { OnOk result (CountsDifferent counts.old (map string_bytes texts.now) counts.new) }
{
    let mut met = BTreeSet::new(alloc);
    let mut once = Vec::new(alloc);
    add_new(texts, &mut met, &mut once)?;
    count_each(counts, once.as_slice())?;
    Ok(())
}

// Counts each of the texts once more.
fn count_each<'r>(
    counts: &mut BTreeMap<&'r str, usize>,
    texts: &[&'r str],
) -> Result<(), AllocError>
    requires { HasRoom counts.old (length texts.now) }
    ensures { OnOk result (CountsEach counts.old (texts_of texts.now) counts.new) }
{
    for text in texts {
        *counts.entry(*text)?.or_insert(0) += 1;
    }
    Ok(())
}

// Adds each of the texts that is new. `met` has those that are there.
fn add_new<'r>(
    texts: &'r [String],
    met: &mut BTreeSet<&'r str>,
    once: &mut Vec<&'r str>,
) -> Result<(), AllocError>
    requires { Has met.old (texts_of once.old.items) }
    ensures once { OnOk result (texts_of once.new.items
        ≡ fold spec.with_text (texts_of once.old.items) (map string_bytes texts.now)) }
    ensures met { OnOk result (Has met.new (texts_of once.new.items)) }
{
    for text in texts {
        add_one(text.as_str(), met, once)?;
    }
    Ok(())
}

fn add_one<'r>(
    text: &'r str,
    met: &mut BTreeSet<&'r str>,
    once: &mut Vec<&'r str>,
) -> Result<(), AllocError>
    requires { Has met.old (texts_of once.old.items) }
    ensures once { OnOk result (
        texts_of once.new.items ≡ spec.with_text (texts_of once.old.items) text.now) }
    ensures met { OnOk result (Has met.new (texts_of once.new.items)) }
{
    if met.contains(&text) {
        return Ok(());
    }
    met.insert(text)?;
    once.push(text)?;
    Ok(())
}

fn is_unmet(advice: Option<&Advice>) -> bool
    ensures { result ≡ spec.is_unmet_by (option_copied advice.entry) }
{
    match advice {
        None | Some(Advice::Unmet) => true,
        Some(Advice::Allow(_) | Advice::TooMany(_)) => false,
    }
}

fn is_unsought(advice: Option<&Advice>) -> bool
    ensures { result ≡ spec.is_unsought_by (option_copied advice.entry) }
{
    matches!(advice, Some(Advice::TooMany(_)))
}
