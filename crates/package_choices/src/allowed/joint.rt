//! One choice for all of some packages.

ghost use Rattle.std.specs.Prelude.{◌≡◌, IfOk, length, map};
ghost use Rattle.spdx_why.specs.Least.{advised};
ghost use Rattle.package_choices.specs.Choice.{offer_of, own_in, met_in, joint_of, told, IsLeastJoint};
ghost use Rattle.package_choices.specs.Passes.{EachPasses, IsTogether};
ghost use Rattle.package_choices.specs.Questions.{asked_of};

use crate::allowed::asking::{is_met, questions_of};
use crate::allowed::judge::JointJudge;
use crate::allowed::members::members_of;
use crate::allowed::offer::Offer;
use crate::allowed::question::Question;
use selections::least_selection;
use spdx_why::{Remedy, least};
use std::alloc::{AllocError, Global};

/// What all of some packages are used under.
#[derive(Debug, Drop)]
pub enum Joint {
    /// There is one choice for all, and of each expression, in their order, this is its own least choice among those of its
    /// requirements that are allowed and are in the one choice.
    Together(Vec<Remedy>),
    /// Not even all that is allowed makes every expression true.
    Unmet,
    /// It wasn't sought: so many different requirements are allowed, more than 1,024.
    TooMany(usize),
}

/// One choice for all of the offers, and what each of them is used under.
///
/// The choice is among the distinct requirements that some offer allows, at first occurrence. A requirement is met if it is
/// allowed in its own offer and chosen; so what is allowed one package alone serves no other. Of the choices that make
/// every expression true it is the one that, against each other one, leaves out the last requirement on which the two
/// differ. Each offer stands under its own least choice, that of `least`, among its requirements that are allowed and
/// chosen. Where each expression is true over what it is allowed, there is such a choice, and each offer has its own in it.
///
/// Each allowed requirement is compared with each different one before it, and at most one question more than there are
/// different ones is asked, each a walk over the nodes of all offers; so more than 1,024 are not judged.
pub fn choice_for_all(alloc: Global, offers: &[Offer<'_, '_>]) -> Result<Joint, AllocError>
    ensures exact { IfOk result (λ joint. told joint ≡ joint_of (map offer_of offers.now)) }
    ensures least { IfOk result (λ joint. IsLeastJoint (map offer_of offers.now) joint) }
    ensures together { IfOk result (λ joint.
        EachPasses (map offer_of offers.now) → IsTogether (told joint)) }
{
    let members = members_of(alloc, offers)?;
    let count = members.len();
    if count > 1024 {
        return Ok(Joint::TooMany(count));
    }
    let questions = questions_of(alloc, members.as_slice(), offers)?;
    let mut judge = JointJudge::new(alloc, questions.as_slice(), count)?;
    let mut selection = Vec::from_elem(alloc, false, count)?;
    let chosen = selection.as_mut_slice();
    if !least_selection(&mut judge, chosen) {
        return Ok(Joint::Unmet);
    }
    Ok(Joint::Together(own_choices(alloc, questions.as_slice(), chosen)?))
}

// The least choice of each expression among what is allowed and chosen.
fn own_choices(
    alloc: Global,
    questions: &[Question<'_, '_>],
    selection: &[bool],
) -> Result<Vec<Remedy>, AllocError>
    ensures { IfOk result (λ choices. map advised choices.items ≡
        map (own_in selection.now) (map asked_of questions.now)) }
{
    let mut choices = Vec::with_capacity(alloc, questions.len())?;
    for question in questions {
        choices.push(own_choice(alloc, question, selection)?)?;
    }
    Ok(choices)
}

// The least choice of the expression among what is allowed and chosen.
fn own_choice(
    alloc: Global,
    question: &Question<'_, '_>,
    selection: &[bool],
) -> Result<Remedy, AllocError>
    ensures { IfOk result (λ choice.
        advised choice ≡ own_in selection.now (asked_of question.now)) }
{
    let nothing = Vec::from_elem(alloc, false, question.allowed.len())?;
    let candidates = met_of(alloc, question, selection)?;
    least(
        alloc,
        question.nodes,
        nothing.as_slice(),
        candidates.as_slice(),
    )
}

// Of each requirement whether it is allowed and chosen.
fn met_of(
    alloc: Global,
    question: &Question<'_, '_>,
    selection: &[bool],
) -> Result<Vec<bool>, AllocError>
    ensures { IfOk result (λ answers.
        answers.items ≡ met_in (asked_of question.now) selection.now) }
{
    let mut answers = Vec::new(alloc);
    for number in 0..question.allowed.len() {
        answers.push(is_met(question, selection, number))?;
    }
    Ok(answers)
}
