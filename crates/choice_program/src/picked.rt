// Requirements that are chosen of expressions which a policy has judged.

ghost use Rattle.std.specs.Prelude.{
  ◌≡◌,
  ◌==◌,
  ◌++◌,
  IfErr,
  IfOk,
  OnOk,
  Some,
  false,
  map,
  slice_get,
  true,
};
ghost use Rattle.std.specs.List.{list_any};
ghost use Rattle.spdx_requirement.specs.Items.{requirement_of};
ghost use Rattle.spdx_parser.specs.Tree.{leaves, node_of};
ghost use Rattle.spdx_evaluation.specs.Postfix.{IsPostfix, tree_in};
ghost use Rattle.package_choices.specs.Choice.{offer_of};
ghost use Rattle.package_choices.specs.Passes.{EachPasses};
ghost use Rattle.choice_program.specs.Named.{named, shown, shown_all};
ghost use Rattle.choice_program.specs.Picked.{
  AreNamed,
  ArePicked,
  AreTogether,
  IsNoJoint,
  IsNonePicked,
  kept_if,
  numbered,
  numbers_by,
  offers_in,
  part_at,
  parts_from,
  pick_of,
  requirements_of,
  tree_of,
};

use crate::choosing::{ChoiceTrouble, Chosen};
use crate::unchosen::Why;
use package_choices::allowed::{Joint, Offer, choice_for_all};
use spdx_catalogue::LicenseReq;
use spdx_gate::Judged;
use spdx_licensee::{RequirementTexts, texts_of};
use spdx_parser::node::ExprNode;
use spdx_why::Remedy;
use std::alloc::{AllocError, Global};

/// What a policy says of an expression, and the numbers of the requirements that are chosen.
#[derive(Drop)]
pub(crate) struct Picked<'r, 'c> {
    pub(crate) judged: &'r Judged<'c>,
    pub(crate) numbers: &'r [usize],
}

/// What expressions with these choices of their own are used under: the same, or their parts of one choice for all.
pub(crate) fn chosen_of(
    alloc: Global,
    own: &[Picked<'_, '_>],
    one_for_all: bool,
) -> Result<Chosen, ChoiceTrouble>
    requires { EachPasses (offers_in (map pick_of own.now)) }
    ensures ok { IfOk result (ArePicked one_for_all (map pick_of own.now)) }
    ensures err { IfErr result (IsNonePicked one_for_all (map pick_of own.now)) }
{
    if one_for_all {
        together(alloc, own)
    } else {
        Ok(apart(alloc, own)?)
    }
}

// Each choice by itself.
fn apart(alloc: Global, own: &[Picked<'_, '_>]) -> Result<Chosen, AllocError>
    ensures { IfOk result (ArePicked false (map pick_of own.now)) }
{
    Ok(Chosen {
        choices: all_own(alloc, own)?,
        offered: all_offered(alloc, own)?,
    })
}

// The parts of one choice for all.
fn together(alloc: Global, own: &[Picked<'_, '_>]) -> Result<Chosen, ChoiceTrouble>
    requires { EachPasses (offers_in (map pick_of own.now)) }
    ensures ok { IfOk result (ArePicked true (map pick_of own.now)) }
    ensures err { IfErr result (IsNonePicked true (map pick_of own.now)) }
{
    let remedies = remedies_for(alloc, own)?;
    let chosen = in_parts(alloc, own, &remedies)?;
    Ok(chosen)
}

fn remedies_for(alloc: Global, own: &[Picked<'_, '_>]) -> Result<Vec<Remedy>, ChoiceTrouble>
    requires { EachPasses (offers_in (map pick_of own.now)) }
    ensures ok { IfOk result (λ rs. AreTogether (offers_in (map pick_of own.now)) rs.items) }
    ensures err { IfErr result (IsNoJoint (offers_in (map pick_of own.now))) }
{
    let offers = offers_of(alloc, own)?;
    remedies_of(alloc, &offers)
}

fn offers_of<'r, 'c>(
    alloc: Global,
    own: &[Picked<'r, 'c>],
) -> Result<Vec<Offer<'r, 'c>>, AllocError>
    ensures { IfOk result (λ offers.
        map offer_of offers.items ≡ offers_in (map pick_of own.now)) }
{
    let mut offers = Vec::new(alloc);
    for one in own {
        offers.push(Offer::of(alloc, one.judged)?)?;
    }
    Ok(offers)
}

#[tactic(auto, using(crate::proofs::Joining::all_chosen, crate::proofs::Joining::never_unmet, crate::proofs::Joining::so_many))]
fn remedies_of(alloc: Global, offers: &[Offer<'_, '_>]) -> Result<Vec<Remedy>, ChoiceTrouble>
    requires { EachPasses (map offer_of offers.now) }
    ensures ok { IfOk result (λ rs. AreTogether (map offer_of offers.now) rs.items) }
    ensures err { IfErr result (IsNoJoint (map offer_of offers.now)) }
{
    match choice_for_all(alloc, offers)? {
        Joint::Together(remedies) => Ok(remedies),
        Joint::Unmet => Err(ChoiceTrouble::NoneTogether(Why::NotAllowed)),
        Joint::TooMany(_) => Err(ChoiceTrouble::NoneTogether(Why::TooMany)),
    }
}

fn in_parts(
    alloc: Global,
    own: &[Picked<'_, '_>],
    remedies: &[Remedy],
) -> Result<Chosen, AllocError>
    ensures { IfOk result (AreNamed (map pick_of own.now)
        (parts_from remedies.now 0 (map pick_of own.now))) }
{
    Ok(Chosen {
        choices: all_parts(alloc, own, remedies)?,
        offered: all_offered(alloc, own)?,
    })
}

// The requirements of each part.
fn all_parts(
    alloc: Global,
    own: &[Picked<'_, '_>],
    remedies: &[Remedy],
) -> Result<Vec<Vec<RequirementTexts>>, AllocError>
    ensures { IfOk result (λ all. shown_all all.items
        ≡ map (map named) (map requirements_of (parts_from remedies.now 0 (map pick_of own.now)))) }
{
    let mut all = Vec::new(alloc);
    for (number, one) in own.iter().enumerate() {
        let texts = part_named(alloc, one, remedies, number)?;
        all.push(texts)?;
    }
    Ok(all)
}

// The requirements of the part of that number.
fn part_named(
    alloc: Global,
    one: &Picked<'_, '_>,
    remedies: &[Remedy],
    number: usize,
) -> Result<Vec<RequirementTexts>, AllocError>
    ensures { IfOk result (λ texts. map shown texts.items
        ≡ map named (requirements_of (part_at remedies.now number (pick_of one.now)))) }
{
    named_at(
        alloc,
        one.judged.nodes.as_slice(),
        numbers_at(remedies, number),
    )
}

fn numbers_at(remedies: &[Remedy], number: usize) -> &[usize]
    ensures { result.now ≡ numbers_by (slice_get remedies.now number) }
{
    match remedies.get(number) {
        Some(remedy) => numbers_of(remedy),
        None => &[],
    }
}

fn numbers_of(remedy: &Remedy) -> &[usize]
    ensures { result.now ≡ numbers_by (Some remedy.now) }
{
    match remedy {
        Remedy::Accept(numbers) => numbers.as_slice(),
        Remedy::Unmet | Remedy::TooMany(_) => &[],
    }
}

// The requirements of each choice.
fn all_own(alloc: Global, own: &[Picked<'_, '_>]) -> Result<Vec<Vec<RequirementTexts>>, AllocError>
    ensures { IfOk result (λ all. shown_all all.items
        ≡ map (map named) (map requirements_of (map pick_of own.now))) }
{
    let mut all = Vec::new(alloc);
    for one in own {
        all.push(named_at(alloc, one.judged.nodes.as_slice(), one.numbers)?)?;
    }
    Ok(all)
}

fn all_offered(
    alloc: Global,
    own: &[Picked<'_, '_>],
) -> Result<Vec<Vec<RequirementTexts>>, AllocError>
    ensures { IfOk result (λ all. shown_all all.items
        ≡ map (λ x. map named (leaves (tree_of x))) (map pick_of own.now)) }
{
    let mut all = Vec::new(alloc);
    for one in own {
        all.push(named_all(alloc, one.judged.nodes.as_slice())?)?;
    }
    Ok(all)
}

// The requirements of these numbers.
#[tactic(auto, using(crate::proofs::Numbers::numbered_more))]
fn named_at(
    alloc: Global,
    nodes: &[ExprNode<'_>],
    numbers: &[usize],
) -> Result<Vec<RequirementTexts>, AllocError>
    requires { IsPostfix (map node_of nodes.now) }
    ensures { IfOk result (λ all. map shown all.items
        ≡ map named (numbered numbers.now 0 (leaves (tree_in nodes.now)))) }
{
    let mut all = Vec::new(alloc);
    let mut number: usize = 0;
    for node in nodes {
        if let ExprNode::Req(requirement) = node {
            let is_chosen = has(numbers, number);
            add_if(alloc, &mut all, &requirement.req, is_chosen)?;
            number += 1;
        }
    }
    Ok(all)
}

fn add_if(
    alloc: Global,
    all: &mut Vec<RequirementTexts>,
    requirement: &LicenseReq<'_>,
    is_chosen: bool,
) -> Result<(), AllocError>
    ensures { OnOk result (map shown all.new.items ≡ map shown all.old.items
        ++ map named (kept_if is_chosen (requirement_of requirement.now))) }
{
    if is_chosen {
        all.push(texts_of(alloc, requirement)?)?;
    }
    Ok(())
}

fn has(numbers: &[usize], number: usize) -> bool
    ensures { result ≡ list_any (λ n. n == number) numbers.now }
{
    numbers.iter().any(|one| *one == number)
}

// All requirements.
fn named_all(alloc: Global, nodes: &[ExprNode<'_>]) -> Result<Vec<RequirementTexts>, AllocError>
    requires { IsPostfix (map node_of nodes.now) }
    ensures { IfOk result (λ all. map shown all.items ≡ map named (leaves (tree_in nodes.now))) }
{
    let mut all = Vec::new(alloc);
    for node in nodes {
        if let ExprNode::Req(requirement) = node {
            all.push(texts_of(alloc, &requirement.req)?)?;
        }
    }
    Ok(all)
}
