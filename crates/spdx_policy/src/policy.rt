// A policy, and what it says of a requirement.

ghost use Rattle.std.specs.Prelude.{◌≡◌, IfOk, map, slice_get, length};
ghost use Rattle.std.specs.Option.{option_copied};
ghost use Rattle.spdx_policy.specs.Named.{named_row};
ghost use Rattle.spdx_policy.specs.Rules as rules;
ghost use Rattle.spdx_policy.specs.Scopes.{holds, places, package_at};

use crate::decision::{Entry, Flag};
use crate::named::Named;
use crate::scopes::Scopes;
use spdx_catalogue::Catalogue;
use spdx_licensee::Replacements;
use std::alloc::{AllocError, Global};
use std::marker::Model;

/// A policy of licences, with the list that it was read by. Its lists are in the order of its file,
/// and exceptions and clarifications are counted from 0.
#[derive(Drop)]
pub struct Policy<'c> {
    pub(crate) catalogue: &'c Catalogue,
    pub(crate) replacements: Replacements<'c>,
    pub(crate) lax: bool,
    pub(crate) unstated: bool,
    pub(crate) allow: Vec<Named<'c>>,
    pub(crate) allow_if: Vec<Flag>,
    pub(crate) deny: Vec<Named<'c>>,
    pub(crate) deny_if: Vec<Flag>,
    pub(crate) exempted: Scopes,
    pub(crate) exempting: Vec<Vec<Named<'c>>>,
    pub(crate) reasons: Vec<Option<String>>,
    pub(crate) clarified: Scopes,
    pub(crate) expressions: Vec<String>,
}

impl<'c> Model for Policy<'c> {
    ghost use Rattle.spdx_policy.specs.Rules.{Rules};

    ghost Value = { Rules };

    ghost use Rattle.spdx_policy.specs.PolicyModel.{rules_shown};

    ghost view = { rules_shown };
}

impl<'c> Policy<'c> {
    /// Whether expressions are to be read as people write them, and not strictly.
    pub fn is_lax(&self) -> bool
        ensures { result ≡ self.now.lax }
    {
        self.lax
    }

    /// Whether a package without a licence is allowed.
    pub fn allows_unstated(&self) -> bool
        ensures { result ≡ self.now.unstated }
    {
        self.unstated
    }

    /// The exceptions that hold for the package, ascending: those of its name without `versions`,
    /// and those whose range has its version. One with `versions` never holds for a package without
    /// a version, or with one that is no semantic version. Takes time by the logarithm of the number
    /// of exceptions.
    pub fn exceptions_for(
        &self,
        alloc: Global,
        name: &str,
        version: Option<&str>,
    ) -> Result<Vec<usize>, AllocError>
        ensures { IfOk result (λ tables. tables.items
            ≡ places (holds name.now (option_copied version.entry)) self.now.exempted) }
    {
        self.exempted.holding(alloc, name, version)
    }

    /// The first clarification that holds for the package, by the rule of `exceptions_for`.
    pub fn clarification_for(
        &self,
        alloc: Global,
        name: &str,
        version: Option<&str>,
    ) -> Result<Option<usize>, AllocError>
        ensures { IfOk result (λ table. table ≡ slice_get
            (places (holds name.now (option_copied version.entry)) self.now.clarified) 0) }
    {
        let tables = self.clarified.holding(alloc, name, version)?;
        Ok(tables.first().copied())
    }

    /// The expression of a clarification, as the file has it; whether it is one is not known.
    pub fn clarification(&self, table: usize) -> Option<&str>
        ensures { option_copied result ≡ slice_get self.now.expressions table }
    {
        let expression = self.expressions.get(table)?;
        Some(expression.as_str())
    }

    /// How many entries `allow` has.
    pub fn allow_len(&self) -> usize
        ensures { result ≡ length self.now.allow }
    {
        self.allow.len()
    }

    /// How many entries `allow-if` has.
    pub fn allow_if_len(&self) -> usize
        ensures { result ≡ length self.now.allow_if }
    {
        self.allow_if.len()
    }

    /// How many entries `deny` has.
    pub fn deny_len(&self) -> usize
        ensures { result ≡ length self.now.deny }
    {
        self.deny.len()
    }

    /// How many entries `deny-if` has.
    pub fn deny_if_len(&self) -> usize
        ensures { result ≡ length self.now.deny_if }
    {
        self.deny_if.len()
    }

    /// How many exceptions there are.
    pub fn exceptions_len(&self) -> usize
        ensures { result ≡ length self.now.exempted }
    {
        self.exempted.len()
    }

    /// How many entries the list of an exception has; 0 where there is no such exception.
    pub fn exception_len(&self, table: usize) -> usize
        ensures { result ≡ length (rules.allowed_by self.now table) }
    {
        match self.exempting.get(table) {
            Some(names) => names.len(),
            None => 0,
        }
    }

    /// How many clarifications there are.
    pub fn clarifications_len(&self) -> usize
        ensures { result ≡ length self.now.clarified }
    {
        self.clarified.len()
    }

    /// The package of an exception.
    pub fn exception_package(&self, table: usize) -> Option<&str>
        ensures { option_copied result ≡ package_at self.now.exempted table }
    {
        self.exempted.package(table)
    }

    /// The package of a clarification.
    pub fn clarification_package(&self, table: usize) -> Option<&str>
        ensures { option_copied result ≡ package_at self.now.clarified table }
    {
        self.clarified.package(table)
    }

    /// The text of an entry, as the file has it.
    pub fn entry_text(&self, entry: Entry) -> Option<&str>
        ensures { option_copied result ≡ rules.entry_text self.now entry }
    {
        match entry {
            Entry::Allow(place) => text_at(&self.allow, place),
            Entry::AllowIf(place) => word_at(&self.allow_if, place),
            Entry::Deny(place) => text_at(&self.deny, place),
            Entry::DenyIf(place) => word_at(&self.deny_if, place),
            Entry::Exception(table, place) => text_at(self.exempting.get(table)?, place),
        }
    }
}

fn text_at<'p>(names: &'p [Named<'_>], place: usize) -> Option<&'p str>
    ensures { option_copied result ≡ rules.text_at (map named_row names.now) place }
{
    let name = names.get(place)?;
    Some(name.text.as_str())
}

fn word_at(flags: &[Flag], place: usize) -> Option<&'static str>
    ensures { option_copied result ≡ rules.word_at flags.now place }
{
    let flag = flags.get(place)?;
    Some(flag.word())
}
