//! What is asked of choices among some members.

ghost use Rattle.std.specs.Prelude.{◌≡◌, ◌<◌, IfOk, length, map};
ghost use Rattle.spdx_requirement.specs.Items.{requirement_of};
ghost use Rattle.spdx_parser.specs.Tree.{leaves, node_of};
ghost use Rattle.spdx_evaluation.specs.Postfix.{IsPostfix, tree_in};
ghost use Rattle.spdx_why.specs.Missing.{answer_in};
ghost use Rattle.package_choices.specs.Choice as spec;
ghost use Rattle.package_choices.specs.Choice.{offer_of, asked, met_in};
ghost use Rattle.package_choices.specs.Questions.{asked_of};
ghost use Rattle.package_choices.specs.Members.{shown};

use crate::allowed::offer::Offer;
use crate::allowed::question::Question;
use spdx_catalogue::LicenseReq;
use spdx_parser::node::ExprNode;
use spdx_requirement::equality::are_same_requirement;
use std::alloc::{AllocError, Global};

// The questions of these offers to these members.
pub(crate) fn questions_of<'a, 'c>(
    alloc: Global,
    members: &[LicenseReq<'_>],
    offers: &'a [Offer<'a, 'c>],
) -> Result<Vec<Question<'a, 'c>>, AllocError>
    ensures { IfOk result (λ questions. map asked_of questions.items ≡
        map (asked (shown members.now)) (map offer_of offers.now)) }
{
    let mut questions = Vec::with_capacity(alloc, offers.len())?;
    for offer in offers {
        questions.push(question_of(alloc, members, offer)?)?;
    }
    Ok(questions)
}

// The question of this offer to these members.
fn question_of<'a, 'c>(
    alloc: Global,
    members: &[LicenseReq<'_>],
    offer: &'a Offer<'a, 'c>,
) -> Result<Question<'a, 'c>, AllocError>
    ensures { IfOk result (λ question.
        asked_of question ≡ asked (shown members.now) (offer_of offer.now)) }
{
    let nodes = offer.nodes;
    let numbers = numbers_of(alloc, members, nodes)?;
    Ok(Question {
        nodes,
        allowed: offer.allowed.as_slice(),
        numbers,
    })
}

// For each requirement the number of the first member that is the same.
fn numbers_of(
    alloc: Global,
    members: &[LicenseReq<'_>],
    nodes: &[ExprNode<'_>],
) -> Result<Vec<usize>, AllocError>
    requires { IsPostfix (map node_of nodes.now) }
    ensures { IfOk result (λ numbers.
        numbers.items ≡ map (spec.number_of (shown members.now)) (leaves (tree_in nodes.now))) }
{
    let mut numbers = Vec::new(alloc);
    for node in nodes {
        if let ExprNode::Req(requirement) = node {
            numbers.push(number_of(members, &requirement.req))?;
        }
    }
    Ok(numbers)
}

// The number of the first member that is the same; how many there are, where none is.
fn number_of(members: &[LicenseReq<'_>], requirement: &LicenseReq<'_>) -> usize
    ensures { result ≡ spec.number_of (shown members.now) (requirement_of requirement.now) }
{
    for number in 0..members.len() {
        if are_same_requirement(&members[number], requirement) {
            return number;
        }
    }
    members.len()
}

// Whether the requirement is allowed, and its member chosen.
pub(crate) fn is_met(question: &Question<'_, '_>, selection: &[bool], number: usize) -> bool
    requires { number < length question.now.allowed.now }
    ensures { result ≡ answer_in (met_in (asked_of question.now) selection.now) number }
{
    let Some(member) = question.numbers.get(number) else {
        return false;
    };
    question.allowed[number] && matches!(selection.get(*member), Some(true))
}
