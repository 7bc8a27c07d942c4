//! Judging choices for all of some packages.

ghost use Rattle.std.specs.Prelude.{◌≡◌, ◌≤◌, IfOk, length, map};
ghost use Rattle.std.specs.List.{list_all};
ghost use Rattle.package_choices.specs.Choice.{suffices_for, is_true_in};
ghost use Rattle.package_choices.specs.Questions.{asked_of, longest};

use crate::allowed::asking::is_met;
use crate::allowed::question::Question;
use selections::{Sufficiency, Truths};
use spdx_parser::node::{ExprNode, Operator};
use std::alloc::{AllocError, Global};

/// Judges choices among some members: one suffices if it makes every one of some expressions true, where a requirement is
/// met if it is allowed in its expression and its member is chosen.
///
/// A question costs one walk over the nodes of the expressions, up to the first that is false.
#[derive(Drop)]
pub(crate) struct JointJudge<'q, 'a, 'c> {
    questions: &'q [Question<'a, 'c>],
    count: usize,
    truths: Truths,
    asked: u64,
    ghost room: { longest questions.now ≤ truths.room },
}

impl<'q, 'a, 'c> JointJudge<'q, 'a, 'c> {
    ghost use Rattle.package_choices.specs.JudgeModel.{judged_questions, judged_count};

    // The judge of these questions over so many members.
    pub(crate) fn new(
        alloc: Global,
        questions: &'q [Question<'a, 'c>],
        count: usize,
    ) -> Result<Self, AllocError>
        ensures questions { IfOk result (λ judge.
            judged_questions judge ≡ map asked_of questions.now) }
        ensures count { IfOk result (λ judge. judged_count judge ≡ count) }
    {
        let truths = Truths::with_room(alloc, longest_of(questions))?;
        Ok(JointJudge {
            questions,
            count,
            truths,
            asked: 0,
        })
    }
}

impl Sufficiency for JointJudge<'_, '_, '_> {
    ghost use Rattle.package_choices.specs.Choice.{suffices_for};
    ghost use Rattle.package_choices.specs.GrowthLaws.{suffices_grows};
    ghost use Rattle.package_choices.specs.JudgeModel.{judged_questions, judged_count, questions_asked};

    ghost count = { λ judge. judged_count judge };

    ghost suffices = { λ judge selection. suffices_for (judged_questions judge) selection };

    ghost asked = { λ judge. questions_asked judge };

    fn members(&self) -> usize {
        self.count
    }

    fn judge(&mut self, selection: &[bool]) -> bool {
        self.asked = self.asked.saturating_add(1);
        are_all_true(&mut self.truths, self.questions, selection)
    }

    ghost grows = { λ judge some more e h f.
        suffices_grows (judged_questions judge) some more h f };
}

// The nodes of the longest.
fn longest_of(questions: &[Question<'_, '_>]) -> usize
    ensures { result ≡ longest questions.now }
{
    let mut most = 0;
    for question in questions {
        most = most.max(question.nodes.len());
    }
    most
}

// Whether the choice makes every expression true.
fn are_all_true(truths: &mut Truths, questions: &[Question<'_, '_>], selection: &[bool]) -> bool
    requires { longest questions.now ≤ truths.old.room }
    ensures answer { result ≡ suffices_for (map asked_of questions.now) selection.now }
    ensures room { truths.new.room ≡ truths.old.room }
{
    for question in questions {
        if !is_true(truths, question, selection) {
            return false;
        }
    }
    true
}

// Whether the choice makes the expression true.
fn is_true(truths: &mut Truths, question: &Question<'_, '_>, selection: &[bool]) -> bool
    requires { length question.now.nodes.now ≤ truths.old.room }
    ensures answer { result ≡ is_true_in selection.now (asked_of question.now) }
    ensures room { truths.new.room ≡ truths.old.room }
{
    let mut number = 0;
    truths.clear();
    for node in question.nodes {
        match node {
            ExprNode::Req(_) => {
                truths.push(is_met(question, selection, number));
                number += 1;
            }
            ExprNode::Op(Operator::And) => truths.both(),
            ExprNode::Op(Operator::Or) => truths.either(),
        }
    }
    truths.take()
}
