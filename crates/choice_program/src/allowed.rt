// What packages are used under by a policy.

ghost use Rattle.std.specs.Prelude.{IfErr, IfOk, OnOk, map};
ghost use Rattle.std.specs.Option.{option_copied};
ghost use Rattle.spdx_requirement.specs.Failures.{IfRefused};
ghost use Rattle.gate_program.specs.Asked.{lent};
ghost use Rattle.choice_program.specs.Agreed.{Agrees, AllPass, AreAccepted};
ghost use Rattle.choice_program.specs.Allowed.{IsChosenByPolicy, IsNoChoiceByPolicy, LackOwnOn};
ghost use Rattle.choice_program.specs.Judged.{
  AreOwnOn,
  HasNoOwnBy,
  HasOwnBy,
  HaveOwnOn,
  IsNotPicked,
  IsOneOwn,
  IsOwnBy,
  IsPickOf,
  IsUnreadableBy,
  IsWhyNotBy,
};
ghost use Rattle.choice_program.specs.Picked.{pick_of};

use crate::choosing::{ChoiceTrouble, Chosen};
use crate::judged::{judgement_at, report_on};
use crate::picked::{Picked, chosen_of};
use crate::unchosen::{Unchosen, Why, unchosen_for};
use package_sources::Package;
use spdx_catalogue::Catalogue;
use spdx_gate::{Fault, Judged, Judgement, Outcome, Report};
use spdx_policy::Policy;
use spdx_requirement::failure::Failure;
use spdx_why::Remedy;
use std::alloc::{AllocError, Global};

// Packages' own choices, and the packages that have none.
#[derive(Drop)]
struct AllOwn<'r, 'c> {
    own: Vec<Picked<'r, 'c>>,
    lacking: Vec<Unchosen>,
}

/// What each package is used under by the policy: the choice of its judgement, which is the least one among what the policy
/// allows it; or its own part of one choice for all. So a package has a choice only if the gate lets it pass.
///
/// # Errors
///
/// Each package that has no choice of its own is told: it states no licence, its text is no expression, what the policy
/// allows doesn't suffice, or it has more than 1,024 requirements. Where each has one, and the policy allows more than 1,024
/// different requirements of them all, that is told of one choice for all. Or memory was refused.
#[tactic(auto, using(crate::proofs::Laws::accepted, crate::proofs::Laws::all_pass, crate::proofs::Laws::agrees))]
pub fn choose_allowed<'c>(
    alloc: Global,
    catalogue: &'c Catalogue,
    policy: &Policy<'c>,
    one_for_all: bool,
    packages: &[&Package],
) -> Result<Chosen, ChoiceTrouble>
    ensures ok { IfOk result (IsChosenByPolicy catalogue.now policy.now one_for_all
        (map lent packages.now)) }
    ensures err { IfErr result (IsNoChoiceByPolicy catalogue.now policy.now one_for_all
        (map lent packages.now)) }
    ensures accepted { IfOk result (AreAccepted catalogue.now policy.now (map lent packages.now)) }
    ensures pass { IfOk result (λ _. AllPass catalogue.now policy.now (map lent packages.now)) }
    ensures agrees { IfErr result (Agrees catalogue.now policy.now (map lent packages.now)) }
{
    let chosen = chosen_by(alloc, catalogue, policy, one_for_all, packages)?;
    Ok(chosen)
}

// The same, by its definition alone.
fn chosen_by<'c>(
    alloc: Global,
    catalogue: &'c Catalogue,
    policy: &Policy<'c>,
    one_for_all: bool,
    packages: &[&Package],
) -> Result<Chosen, ChoiceTrouble>
    ensures ok { IfOk result (IsChosenByPolicy catalogue.now policy.now one_for_all
        (map lent packages.now)) }
    ensures err { IfErr result (IsNoChoiceByPolicy catalogue.now policy.now one_for_all
        (map lent packages.now)) }
{
    let report = report_on(alloc, catalogue, policy, packages)?;
    let own = own_by(alloc, packages, &report)?;
    let chosen = chosen_of(alloc, &own, one_for_all)?;
    Ok(chosen)
}

// The choice of each package's judgement.
fn own_by<'r, 'c>(
    alloc: Global,
    packages: &[&Package],
    report: &'r Report<'c>,
) -> Result<Vec<Picked<'r, 'c>>, ChoiceTrouble>
    ensures ok { IfOk result (λ own.
        HaveOwnOn report.now (map lent packages.now) (map pick_of own.items)) }
    ensures err { IfErr result (LackOwnOn report.now (map lent packages.now)) }
{
    let all = all_own(alloc, packages, report)?;
    let AllOwn { own, lacking } = all;
    if lacking.is_empty() {
        Ok(own)
    } else {
        Err(ChoiceTrouble::NoChoices(lacking))
    }
}

fn all_own<'r, 'c>(
    alloc: Global,
    packages: &[&Package],
    report: &'r Report<'c>,
) -> Result<AllOwn<'r, 'c>, AllocError>
    ensures { IfOk result (AreOwnOn report.now (map lent packages.now)) }
{
    let mut all = AllOwn {
        own: Vec::new(alloc),
        lacking: Vec::new(alloc),
    };
    for (number, package) in packages.iter().enumerate() {
        add_own(alloc, *package, judgement_at(report, number), &mut all)?;
    }
    Ok(all)
}

// One package more.
fn add_own<'r, 'c>(
    alloc: Global,
    listed: &Package,
    judgement: Option<&'r Judgement<'c>>,
    all: &mut AllOwn<'r, 'c>,
) -> Result<(), AllocError>
    ensures { OnOk result (IsOneOwn listed.now (option_copied judgement.entry) all.old all.new) }
{
    match own_of(alloc, listed, judgement) {
        Ok(own) => {
            all.own.push(own)?;
            Ok(())
        }
        Err(Failure::Refused(one)) => {
            all.lacking.push(one)?;
            Ok(())
        }
        Err(Failure::Memory(error)) => Err(error),
    }
}

// The choice of the package's judgement.
fn own_of<'r, 'c>(
    alloc: Global,
    listed: &Package,
    judgement: Option<&'r Judgement<'c>>,
) -> Result<Picked<'r, 'c>, Failure<Unchosen>>
    ensures ok { IfOk result (λ own.
        HasOwnBy listed.now (option_copied judgement.entry) (pick_of own)) }
    ensures err { IfErr result (IfRefused
        (HasNoOwnBy listed.now (option_copied judgement.entry))) }
{
    match own_in(alloc, judgement) {
        Ok(own) => Ok(own),
        Err(Failure::Refused(why)) => Err(Failure::Refused(unchosen_for(alloc, listed, why)?)),
        Err(Failure::Memory(error)) => Err(Failure::Memory(error)),
    }
}

fn own_in<'r, 'c>(
    alloc: Global,
    judgement: Option<&'r Judgement<'c>>,
) -> Result<Picked<'r, 'c>, Failure<Why>>
    ensures ok { IfOk result (λ own. IsOwnBy (option_copied judgement.entry) (pick_of own)) }
    ensures err { IfErr result (IfRefused (IsWhyNotBy (option_copied judgement.entry))) }
{
    let Some(judgement) = judgement else {
        return Err(Failure::Refused(Why::Unstated));
    };
    match &judgement.outcome {
        Outcome::Judged(judged) => picked_of(judged),
        Outcome::Unreadable(fault) => Err(unreadable(alloc, judgement.text.as_str(), fault)),
    }
}

// The choice among what is allowed.
fn picked_of<'r, 'c>(judged: &'r Judged<'c>) -> Result<Picked<'r, 'c>, Failure<Why>>
    ensures ok { IfOk result (λ own. IsPickOf judged.now (pick_of own)) }
    ensures err { IfErr result (IfRefused (IsNotPicked judged.now)) }
{
    match &judged.choice {
        Remedy::Accept(numbers) => Ok(Picked {
            judged,
            numbers: numbers.as_slice(),
        }),
        Remedy::Unmet => Err(Failure::Refused(Why::NotAllowed)),
        Remedy::TooMany(_) => Err(Failure::Refused(Why::TooMany)),
    }
}

fn unreadable(alloc: Global, text: &str, fault: &Fault) -> Failure<Why>
    ensures { IfRefused (IsUnreadableBy text.now fault.now) result }
{
    match String::from_str(alloc, text) {
        Ok(text) => Failure::Refused(Why::Unreadable(text, fault.reason)),
        Err(error) => Failure::Memory(error),
    }
}
