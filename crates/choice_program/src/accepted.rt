// What packages are used under among licences that are accepted.

ghost use Rattle.std.specs.Prelude.{◌≡◌, ◌≢◌, ℕ, [], List, IfErr, IfOk, OnOk, map};
ghost use Rattle.std.specs.List.{AllZip};
ghost use Rattle.std.specs.Option.{option_copied};
ghost use Rattle.spdx_requirement.specs.Failures.{IfRefused};
ghost use Rattle.spdx_requirement.specs.Items.{Requirement, requirement_of};
ghost use Rattle.spdx.specs.Value.{trees_of};
ghost use Rattle.package_choices.specs.Accepted.{held};
ghost use Rattle.gate_program.specs.Asked.{lent};
ghost use Rattle.gate_program.specs.Files.{stated_in};
ghost use Rattle.choice_program.specs.Among as spec;
ghost use Rattle.choice_program.specs.Among.{
  AreChosen,
  AreNotChosen,
  HasNoOwn,
  HasOwn,
  IsChosenOf,
  IsExpressionOf,
  IsJointOf,
  IsMeant,
  IsNoneOf,
  IsUnread,
  IsUnreadable,
  LackOwn,
  LackStated,
  meant_of,
  trees_in,
};
ghost use Rattle.choice_program.specs.Named.{named, shown_all};
ghost use Rattle.spdx_parser.specs.Tree.{leaves};
ghost use Rattle.spdx_gate.specs.Reports.{Means};

use crate::choosing::{ChoiceTrouble, Chosen};
use crate::named::{all_named, named_in};
use crate::unchosen::{Unchosen, Why, unchosen_for};
use package_choices::accepted::{Unmet, joint_choices};
use package_sources::{License, Package};
use spdx::Expression;
use spdx_catalogue::{Catalogue, LicenseReq};
use spdx_lexer::token::ParseMode;
use spdx_licensee::{Licensee, RequirementTexts};
use spdx_minimize::MinimizeError;
use spdx_requirement::failure::Failure;
use std::alloc::{AllocError, Global};

/// A package with the expression that it states.
#[derive(Drop)]
pub(crate) struct Stated<'p, 'c> {
    pub(crate) listed: &'p Package,
    pub(crate) expression: Expression<'c>,
}

// Packages with their expressions, and those that state none.
#[derive(Drop)]
struct AllStated<'p, 'c> {
    stated: Vec<Stated<'p, 'c>>,
    lacking: Vec<Unchosen>,
}

// Choices, and the packages that have none.
#[derive(Drop)]
struct OwnChoices<'c> {
    choices: Vec<Vec<LicenseReq<'c>>>,
    lacking: Vec<Unchosen>,
}

/// The packages with their expressions.
pub(crate) fn stated_by<'p, 'c>(
    alloc: Global,
    catalogue: &'c Catalogue,
    mode: ParseMode,
    packages: &[&'p Package],
) -> Result<Vec<Stated<'p, 'c>>, ChoiceTrouble>
    ensures ok { IfOk result (λ stated.
        AllZip (IsMeant catalogue.now mode) (map lent packages.now) (map meant_of stated.items)) }
    ensures err { IfErr result (LackStated catalogue.now mode (map lent packages.now)) }
{
    let all = all_stated(alloc, catalogue, mode, packages)?;
    let AllStated { stated, lacking } = all;
    if lacking.is_empty() {
        Ok(stated)
    } else {
        Err(ChoiceTrouble::NoChoices(lacking))
    }
}

fn all_stated<'p, 'c>(
    alloc: Global,
    catalogue: &'c Catalogue,
    mode: ParseMode,
    packages: &[&'p Package],
) -> Result<AllStated<'p, 'c>, AllocError>
    ensures { IfOk result (spec.AreStated catalogue.now mode (map lent packages.now)) }
{
    let mut all = AllStated {
        stated: Vec::new(alloc),
        lacking: Vec::new(alloc),
    };
    for package in packages {
        add_stated(alloc, catalogue, mode, *package, &mut all)?;
    }
    Ok(all)
}

// One package more.
fn add_stated<'p, 'c>(
    alloc: Global,
    catalogue: &'c Catalogue,
    mode: ParseMode,
    listed: &'p Package,
    all: &mut AllStated<'p, 'c>,
) -> Result<(), AllocError>
    ensures { OnOk result (spec.IsOneStated catalogue.now mode listed.now all.old all.new) }
{
    match expression_of(alloc, catalogue, mode, listed) {
        Ok(expression) => {
            all.stated.push(Stated { listed, expression })?;
            Ok(())
        }
        Err(Failure::Refused(one)) => {
            all.lacking.push(one)?;
            Ok(())
        }
        Err(Failure::Memory(error)) => Err(error),
    }
}

// The expression that the package states.
fn expression_of<'c>(
    alloc: Global,
    catalogue: &'c Catalogue,
    mode: ParseMode,
    listed: &Package,
) -> Result<Expression<'c>, Failure<Unchosen>>
    ensures ok { IfOk result (λ expression.
        IsExpressionOf catalogue.now mode listed.now expression.tree) }
    ensures err { IfErr result (IfRefused (IsUnread catalogue.now mode listed.now)) }
{
    match text_of(&listed.license) {
        Some(text) => read(alloc, catalogue, mode, listed, text),
        None => Err(Failure::Refused(unchosen_for(alloc, listed, Why::Unstated)?)),
    }
}

fn text_of(license: &License) -> Option<&str>
    ensures { option_copied result ≡ stated_in license.now }
{
    match license {
        License::Stated(text) => Some(text.as_str()),
        License::Unstated => None,
    }
}

fn read<'c>(
    alloc: Global,
    catalogue: &'c Catalogue,
    mode: ParseMode,
    listed: &Package,
    text: &str,
) -> Result<Expression<'c>, Failure<Unchosen>>
    ensures ok { IfOk result (λ e. Means catalogue.now mode text.now e.tree) }
    ensures err { IfErr result (IfRefused
        (IsUnreadable catalogue.now mode listed.now text.now)) }
{
    match Expression::parse_mode(alloc, catalogue, text, mode) {
        Ok(expression) => Ok(expression),
        Err(Failure::Refused(error)) => {
            let why = Why::Unreadable(String::from_str(alloc, text)?, error.reason);
            Err(Failure::Refused(unchosen_for(alloc, listed, why)?))
        }
        Err(Failure::Memory(error)) => Err(Failure::Memory(error)),
    }
}

/// What packages with these expressions are used under.
pub(crate) fn chosen_among<'c>(
    alloc: Global,
    stated: &[Stated<'_, 'c>],
    accepted: &[Licensee<'c>],
    one_for_all: bool,
) -> Result<Chosen, ChoiceTrouble>
    ensures ok { IfOk result (IsChosenOf one_for_all accepted.now (map meant_of stated.now)) }
    ensures err { IfErr result (AreNotChosen one_for_all accepted.now
        (map meant_of stated.now)) }
{
    let choices = choices_among(alloc, stated, accepted, one_for_all)?;
    Ok(Chosen {
        choices: all_named(alloc, &choices)?,
        offered: all_offered(alloc, stated)?,
    })
}

// All requirements of each expression.
fn all_offered(
    alloc: Global,
    stated: &[Stated<'_, '_>],
) -> Result<Vec<Vec<RequirementTexts>>, AllocError>
    ensures { IfOk result (λ all. shown_all all.items
        ≡ map (λ t. map named (leaves t)) (trees_in (map meant_of stated.now))) }
{
    let mut all = Vec::new(alloc);
    for one in stated {
        all.push(named_in(alloc, &one.expression)?)?;
    }
    Ok(all)
}

fn choices_among<'c>(
    alloc: Global,
    stated: &[Stated<'_, 'c>],
    accepted: &[Licensee<'c>],
    one_for_all: bool,
) -> Result<Vec<Vec<LicenseReq<'c>>>, ChoiceTrouble>
    ensures ok { IfOk result (λ choices.
        AreChosen one_for_all accepted.now (map meant_of stated.now) (held choices.items)) }
    ensures err { IfErr result (AreNotChosen one_for_all accepted.now (map meant_of stated.now)) }
{
    let own = own_among(alloc, stated, accepted)?;
    if one_for_all {
        joint_among(alloc, stated, accepted)
    } else {
        Ok(own)
    }
}

// The choice of each package by itself.
fn own_among<'c>(
    alloc: Global,
    stated: &[Stated<'_, 'c>],
    accepted: &[Licensee<'c>],
) -> Result<Vec<Vec<LicenseReq<'c>>>, ChoiceTrouble>
    ensures ok { IfOk result (λ choices.
        AllZip (HasOwn accepted.now) (map meant_of stated.now) (held choices.items)) }
    ensures err { IfErr result (LackOwn accepted.now (map meant_of stated.now)) }
{
    let own = all_own(alloc, stated, accepted)?;
    let OwnChoices { choices, lacking } = own;
    if lacking.is_empty() {
        Ok(choices)
    } else {
        Err(ChoiceTrouble::NoChoices(lacking))
    }
}

fn all_own<'c>(
    alloc: Global,
    stated: &[Stated<'_, 'c>],
    accepted: &[Licensee<'c>],
) -> Result<OwnChoices<'c>, AllocError>
    ensures { IfOk result (spec.AreOwn accepted.now (map meant_of stated.now)) }
{
    let mut own = OwnChoices {
        choices: Vec::new(alloc),
        lacking: Vec::new(alloc),
    };
    for one in stated {
        add_own(alloc, one, accepted, &mut own)?;
    }
    Ok(own)
}

// One package more.
fn add_own<'c>(
    alloc: Global,
    one: &Stated<'_, 'c>,
    accepted: &[Licensee<'c>],
    own: &mut OwnChoices<'c>,
) -> Result<(), AllocError>
    ensures { OnOk result (spec.IsOneOwn accepted.now (meant_of one.now) own.old own.new) }
{
    match own_choice(alloc, one, accepted) {
        Ok(choice) => {
            own.choices.push(choice)?;
            Ok(())
        }
        Err(Failure::Refused(lacking)) => {
            own.lacking.push(lacking)?;
            Ok(())
        }
        Err(Failure::Memory(error)) => Err(error),
    }
}

fn own_choice<'c>(
    alloc: Global,
    one: &Stated<'_, 'c>,
    accepted: &[Licensee<'c>],
) -> Result<Vec<LicenseReq<'c>>, Failure<Unchosen>>
    ensures ok { IfOk result (λ choice.
        HasOwn accepted.now (meant_of one.now) (map requirement_of choice.items)) }
    ensures err { IfErr result (IfRefused (HasNoOwn accepted.now (meant_of one.now))) }
{
    match one.expression.minimized_requirements(alloc, accepted) {
        Ok(choice) => Ok(choice),
        Err(Failure::Refused(error)) => {
            Err(Failure::Refused(unchosen_for(alloc, one.listed, Why::Unmet(error))?))
        }
        Err(Failure::Memory(error)) => Err(Failure::Memory(error)),
    }
}

// The part of each package in one choice for all, where each has one of its own.
fn joint_among<'c>(
    alloc: Global,
    stated: &[Stated<'_, 'c>],
    accepted: &[Licensee<'c>],
) -> Result<Vec<Vec<LicenseReq<'c>>>, ChoiceTrouble>
    ensures ok { IfOk result (λ choices.
        IsJointOf accepted.now (map meant_of stated.now) (held choices.items)) }
    ensures err { (own : List (List Requirement)) →
        AllZip (HasOwn accepted.now) (map meant_of stated.now) own →
        IfErr result (IsNoneOf accepted.now (map meant_of stated.now)) }
{
    let expressions = expressions_of(alloc, stated)?;
    match joint_choices(alloc, &expressions, accepted) {
        Ok(choices) => Ok(choices),
        Err(Failure::Refused(unmet)) => {
            Err(ChoiceTrouble::NoneTogether(Why::Unmet(error_of(unmet))))
        }
        Err(Failure::Memory(_)) => Err(ChoiceTrouble::Memory),
    }
}

fn error_of(unmet: Unmet) -> MinimizeError
    ensures { result ≡ spec.error_of unmet }
{
    match unmet {
        Unmet::Expression { error, .. } | Unmet::Together(error) => error,
    }
}

fn expressions_of<'s, 'c>(
    alloc: Global,
    stated: &'s [Stated<'_, 'c>],
) -> Result<Vec<&'s Expression<'c>>, AllocError>
    ensures { IfOk result (λ es. trees_of es.items ≡ trees_in (map meant_of stated.now)) }
{
    let mut expressions = Vec::new(alloc);
    for one in stated {
        expressions.push(&one.expression)?;
    }
    Ok(expressions)
}
