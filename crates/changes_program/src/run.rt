// A run of the command, over a shelf.

ghost use Rattle.std.specs.Prelude.{◌≡◌, ◌<◌, ℕ, List, IfErr, IfOk, Some};
ghost use Rattle.std.specs.List.{count_by, list_any};
ghost use Rattle.std.specs.Option.{option_copied};
ghost use Rattle.list_program.specs.Named.{inside_of};
ghost use Rattle.changes_program.specs.Run as spec;
ghost use Rattle.changes_program.specs.Run.{
  IsNoRun,
  IsPolicyIf,
  IsRun,
  IsRunOver,
  IsTold,
  IsToldOfBoth,
  NewOnesPass,
  status_of,
};

use crate::packages::packages_of;
use crate::said::said_of;
use crate::tellings::told_of;
use gate_program::{GateTrouble, PolicyTrouble, policy_at};
use list_program::{Inside, named_list};
use package_changes::{Format, How, Telling, changes_between, put_changes};
use package_files::{AllListed, FileFault, Listed, Wanted, all_listed_at};
use package_sources::Package;
use shelves::Shelf;
use spdx_catalogue::Catalogue;
use spdx_policy::Policy;
use std::alloc::{AllocError, Global};

/// What is asked of a run.
#[derive(Clone, Copy)]
pub struct Request<'a> {
    /// The path of the list, where one is named.
    pub list: Option<&'a str>,
    /// The path of the policy, where one is named.
    pub policy: Option<&'a str>,
    /// Which packages are wanted.
    pub wanted: Wanted<'a>,
    /// The path of the older file.
    pub old: &'a str,
    /// The path of the newer file.
    pub new: &'a str,
    pub format: Format,
}

/// What comes of a run.
#[derive(Drop)]
pub struct Run {
    /// The files that list packages.
    pub files: Vec<Listed>,
    /// The fault of each file that is left out.
    pub left_out: Vec<FileFault>,
    /// What is told, where neither file is left out.
    pub told: Option<ToldChanges>,
}

/// What is told of the changes.
#[derive(Drop)]
pub struct ToldChanges {
    pub text: Vec<u8>,
    pub totals: Totals,
    /// Whether the policy refuses a package that came, or whose licence changed.
    pub is_refused: bool,
}

/// How many packages there are, and how many changes of each kind.
#[derive(Clone, Copy, PartialEq, Eq, Debug)]
pub struct Totals {
    pub before: usize,
    pub now: usize,
    pub came: usize,
    pub went: usize,
    /// Those whose licence changed.
    pub changed: usize,
    /// Those of them whose licence asks for something that it didn't before.
    pub more: usize,
    pub refused: usize,
}

impl Run {
    /// The status: 2 where a file is left out; else 1 where the policy refuses a package that came or whose licence changed; else
    /// 0.
    pub fn status(&self) -> u8
        ensures { result ≡ status_of self.now }
    {
        match &self.told {
            Some(told) => u8::from(told.is_refused),
            None => 2,
        }
    }
}

/// Reads the list, the policy and both files, and tells what changed between them; what stands in the place of the list's
/// deprecated names is said by `replacements`.
///
/// # Errors
///
/// The list or the policy isn't had, before a file is read; or memory was refused.
pub fn changes<S: Shelf>(
    alloc: Global,
    shelf: &S,
    inside: Inside<'_>,
    replacements: &[u8],
    request: Request<'_>,
) -> Result<Run, GateTrouble>
    ensures ok { IfOk result (IsRun (S.told shelf.now)
        (inside_of inside.entry.list.now inside.entry.extras.now) replacements.now request.entry) }
    ensures err { IfErr result (IsNoRun (S.told shelf.now)
        (inside_of inside.entry.list.now inside.entry.extras.now) replacements.now request.entry) }
    ensures passes { IfOk result (λ run. status_of run < 1 → (path : List ℕ) →
        option_copied request.entry.policy ≡ Some path →
        NewOnesPass (S.told shelf.now) (inside_of inside.entry.list.now inside.entry.extras.now)
        replacements.now request.entry path) }
{
    let catalogue = named_list(alloc, shelf, inside, request.list)?;
    let policy = policy_if(alloc, shelf, replacements, &catalogue, request.policy)?;
    let run = run_over(alloc, shelf, &catalogue, &policy, request)?;
    Ok(run)
}

// The policy at the path, where one is named.
fn policy_if<'c, S: Shelf>(
    alloc: Global,
    shelf: &S,
    replacements: &[u8],
    catalogue: &'c Catalogue,
    path: Option<&str>,
) -> Result<Option<Policy<'c>>, PolicyTrouble>
    ensures ok { IfOk result (IsPolicyIf (S.told shelf.now) replacements.now catalogue.now
        (option_copied path.entry)) }
    ensures err { IfErr result (spec.IsNoPolicyIf (S.told shelf.now) replacements.now catalogue.now
        (option_copied path.entry)) }
{
    let Some(path) = path else {
        return Ok(None);
    };
    let policy = policy_at(alloc, shelf, replacements, catalogue, path)?;
    Ok(Some(policy))
}

// The same over this list and policy.
fn run_over<S: Shelf>(
    alloc: Global,
    shelf: &S,
    catalogue: &Catalogue,
    policy: &Option<Policy<'_>>,
    request: Request<'_>,
) -> Result<Run, AllocError>
    ensures { IfOk result (IsRunOver (S.told shelf.now) catalogue.now policy.now request.entry) }
{
    let paths = [request.old, request.new];
    let all = all_listed_at(alloc, shelf, request.wanted, &paths)?;
    let told = told_of_both(alloc, catalogue, policy, request.format, &all.files)?;
    let AllListed { files, left_out } = all;
    Ok(Run {
        files,
        left_out,
        told,
    })
}

// What is told of two files, where there are two.
fn told_of_both(
    alloc: Global,
    catalogue: &Catalogue,
    policy: &Option<Policy<'_>>,
    format: Format,
    files: &[Listed],
) -> Result<Option<ToldChanges>, AllocError>
    ensures { IfOk result (IsToldOfBoth catalogue.now policy.now format files.now) }
{
    let [older, newer] = files else {
        return Ok(None);
    };
    let told = told_between(
        alloc,
        catalogue,
        policy,
        format,
        &older.packages,
        &newer.packages,
    )?;
    Ok(Some(told))
}

fn told_between(
    alloc: Global,
    catalogue: &Catalogue,
    policy: &Option<Policy<'_>>,
    format: Format,
    older: &[Package],
    newer: &[Package],
) -> Result<ToldChanges, AllocError>
    ensures { IfOk result (IsTold catalogue.now policy.now format older.now newer.now) }
{
    let before = packages_of(alloc, older)?;
    let now = packages_of(alloc, newer)?;
    let changes = changes_between(alloc, &before, &now)?;
    let said = said_of(alloc, catalogue, &changes)?;
    let tellings = told_of(alloc, catalogue, policy, &said)?;
    let mut text = Vec::new(alloc);
    put_changes(alloc, &mut text, format, &tellings)?;
    Ok(ToldChanges {
        text,
        totals: totals_of(older.len(), newer.len(), &tellings),
        is_refused: is_any_refused(&tellings),
    })
}

fn totals_of(before: usize, now: usize, tellings: &[Telling<'_>]) -> Totals
    ensures { result ≡ spec.totals_of before now tellings.now }
{
    let came = count_come(tellings);
    let went = count_gone(tellings);
    Totals {
        before,
        now,
        came,
        went,
        changed: tellings.len().saturating_sub(came).saturating_sub(went),
        more: count_more(tellings),
        refused: count_refused(tellings),
    }
}

fn is_any_refused(tellings: &[Telling<'_>]) -> bool
    ensures { result ≡ list_any spec.is_refused tellings.now }
{
    tellings.iter().any(is_refused)
}

fn count_come(tellings: &[Telling<'_>]) -> usize
    ensures { result ≡ count_by spec.has_come tellings.now }
{
    tellings.iter().filter(|one| has_come(one)).count()
}

fn count_gone(tellings: &[Telling<'_>]) -> usize
    ensures { result ≡ count_by spec.has_gone tellings.now }
{
    tellings.iter().filter(|one| has_gone(one)).count()
}

fn count_more(tellings: &[Telling<'_>]) -> usize
    ensures { result ≡ count_by spec.asks_for_more tellings.now }
{
    tellings.iter().filter(|one| asks_for_more(one)).count()
}

fn count_refused(tellings: &[Telling<'_>]) -> usize
    ensures { result ≡ count_by spec.is_refused tellings.now }
{
    tellings.iter().filter(|one| is_refused(one)).count()
}

fn has_come(telling: &Telling<'_>) -> bool
    ensures { result ≡ spec.has_come telling.now }
{
    matches!(telling.how, How::Came)
}

fn has_gone(telling: &Telling<'_>) -> bool
    ensures { result ≡ spec.has_gone telling.now }
{
    matches!(telling.how, How::Went)
}

fn asks_for_more(telling: &Telling<'_>) -> bool
    ensures { result ≡ spec.asks_for_more telling.now }
{
    matches!(telling.how, How::More | How::Other)
}

fn is_refused(telling: &Telling<'_>) -> bool
    ensures { result ≡ spec.is_refused telling.now }
{
    telling.is_refused
}
