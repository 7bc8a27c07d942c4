//! Judging choices among candidates.

ghost use Rattle.std.specs.Prelude.{◌≡◌, ◌≤◌, ◌<◌, IfOk, length, map};
ghost use Rattle.std.specs.List.{list_any};
ghost use Rattle.spdx_parser.specs.Tree.{leaves, node_of};
ghost use Rattle.spdx_evaluation.specs.Postfix.{IsPostfix, tree_in};
ghost use Rattle.spdx_why.specs.Missing.{answer_in};
ghost use Rattle.spdx_why.specs.Serving.{lists_in, with_served, serves_in};

use selections::{Sufficiency, Truths};
use spdx_parser::node::{ExprNode, Operator};
use std::alloc::{AllocError, Global};

/// Judges choices among some candidates for an expression: one suffices if the expression is true
/// where a requirement is accepted that was before, or that a chosen candidate serves.
#[derive(Drop)]
pub(crate) struct ChoiceJudge<'a, 'c> {
    nodes: &'a [ExprNode<'c>],
    accepted: &'a [bool],
    serving: &'a [Vec<usize>],
    count: usize,
    truths: Truths,
    asked: u64,
    ghost postfix: { IsPostfix (map node_of nodes.now) },
    ghost each: { length accepted.now ≡ length (leaves (tree_in nodes.now)) },
    ghost served: { length serving.now ≡ length accepted.now },
    ghost room: { length nodes.now ≤ truths.room },
}

impl<'a, 'c> ChoiceJudge<'a, 'c> {
    ghost use Rattle.spdx_why.specs.JudgeModel.{judged_tree, judged_accepted, judged_serving, judged_count};

    // The judge of this expression, of which these are accepted, and of so many candidates.
    pub(crate) fn new(
        alloc: Global,
        nodes: &'a [ExprNode<'c>],
        accepted: &'a [bool],
        serving: &'a [Vec<usize>],
        count: usize,
    ) -> Result<Self, AllocError>
        requires tree { IsPostfix (map node_of nodes.now) }
        requires each { length accepted.now ≡ length (leaves (tree_in nodes.now)) }
        requires served { length serving.now ≡ length accepted.now }
        ensures tree { IfOk result (λ judge. judged_tree judge ≡ tree_in nodes.now) }
        ensures accepted { IfOk result (λ judge. judged_accepted judge ≡ accepted.now) }
        ensures serving { IfOk result (λ judge. judged_serving judge ≡ lists_in serving.now) }
        ensures count { IfOk result (λ judge. judged_count judge ≡ count) }
    {
        let truths = Truths::with_room(alloc, nodes.len())?;
        Ok(ChoiceJudge {
            nodes,
            accepted,
            serving,
            count,
            truths,
            asked: 0,
        })
    }
}

impl Sufficiency for ChoiceJudge<'_, '_> {
    ghost use Rattle.spdx_why.specs.Serving.{serves_in};
    ghost use Rattle.spdx_why.specs.GrowthLaws.{serves_grows};
    ghost use Rattle.spdx_why.specs.JudgeModel.{judged_tree, judged_accepted, judged_serving, judged_count, questions_asked};

    ghost count = { λ judge. judged_count judge };

    ghost suffices = { λ judge selection. serves_in (judged_tree judge)
        (judged_accepted judge) (judged_serving judge) selection };

    ghost asked = { λ judge. questions_asked judge };

    fn members(&self) -> usize {
        self.count
    }

    fn judge(&mut self, selection: &[bool]) -> bool {
        self.asked = self.asked.saturating_add(1);
        is_true(
            &mut self.truths,
            self.nodes,
            self.accepted,
            self.serving,
            selection,
        )
    }

    ghost grows = { λ judge some more e h f. serves_grows (judged_tree judge)
        (judged_accepted judge) (judged_serving judge) some more h f };
}

// Whether the choice makes the expression true.
fn is_true(
    truths: &mut Truths,
    nodes: &[ExprNode<'_>],
    accepted: &[bool],
    serving: &[Vec<usize>],
    selection: &[bool],
) -> bool
    requires tree { IsPostfix (map node_of nodes.now) }
    requires each { length accepted.now ≡ length (leaves (tree_in nodes.now)) }
    requires served { length serving.now ≡ length accepted.now }
    requires room { length nodes.now ≤ truths.old.room }
    ensures answer { result ≡ serves_in (tree_in nodes.now)
        accepted.now (lists_in serving.now) selection.now }
    ensures room { truths.new.room ≡ truths.old.room }
{
    let mut number = 0;
    truths.clear();
    for node in nodes {
        match node {
            ExprNode::Req(_) => {
                truths.push(is_met(accepted, serving, selection, number));
                number += 1;
            }
            ExprNode::Op(Operator::And) => truths.both(),
            ExprNode::Op(Operator::Or) => truths.either(),
        }
    }
    truths.take()
}

// Whether the requirement is accepted, or a chosen candidate serves it.
fn is_met(accepted: &[bool], serving: &[Vec<usize>], selection: &[bool], number: usize) -> bool
    requires within { number < length accepted.now }
    requires served { length serving.now ≡ length accepted.now }
    ensures { result ≡ answer_in
        (with_served accepted.now (lists_in serving.now) selection.now) number }
{
    accepted[number] || is_any_chosen(serving[number].as_slice(), selection)
}

// Whether one of these numbers is chosen.
fn is_any_chosen(numbers: &[usize], selection: &[bool]) -> bool
    ensures { result ≡ list_any (answer_in selection.now) numbers.now }
{
    numbers
        .iter()
        .any(|number| matches!(selection.get(*number), Some(true)))
}
