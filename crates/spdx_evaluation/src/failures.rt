//! The requirements that a closure refuses.

ghost use Rattle.std.specs.Prelude.{◌≡◌, ◌+◌, ◌≤◌, ◌<◌, Bool, map, true, IfOk, IfErr, vec_len, vec_capacity};
ghost use Rattle.std.specs.Fn.{CalledAt};
ghost use Rattle.spdx_requirement.specs.Failures.{RefusedOr, IfRefused};
ghost use Rattle.spdx_requirement.specs.Items.{Requirement};
ghost use Rattle.spdx_parser.specs.Tree.{node_of};
ghost use Rattle.spdx_evaluation.specs.Postfix.{IsPostfix, tree_in};
ghost use Rattle.spdx_evaluation.specs.Requirements.{placed_of, placed_in, nows, kept_if_false};
ghost use Rattle.spdx_evaluation.specs.Calls.{Evaluates, EvaluatesToFalse};
ghost use Rattle.spdx_evaluation.specs.ByRequirement.{AnswersBy, FailsBy};
ghost use Rattle.spdx_evaluation.specs.Truth.{holds};

use selections::Truths;
use spdx_catalogue::{Failure, LicenseReq};
use spdx_parser::node::{ExprNode, ExpressionReq, Operator};
use std::alloc::Global;

/// Nothing where the tree whose postfix list the nodes are is true over the closure's answers, else
/// every requirement that the closure refused, from left to right.
///
/// The closure is called as by [`crate::evaluate`], and all memory is taken before. `ok_by` and
/// `err_by` are for a closure that answers by the requirement alone.
pub fn evaluate_with_failures<'e, 'c, F: FnMut(&LicenseReq<'c>) -> bool>(
    alloc: Global,
    nodes: &'e [ExprNode<'c>],
    f: &mut F,
) -> Result<(), Failure<Vec<&'e ExpressionReq<'c>>>>
    requires callable { F.IsAlwaysCallable f.old }
    requires tree { IsPostfix (map node_of nodes.now) }
    ensures ok { IfOk result (λ _.
        Evaluates (CalledAt F.FnMut) f.old (tree_in nodes.now) true f.new) }
    ensures ok_by { IfOk result (λ _. (h : Requirement → Bool) →
        AnswersBy (CalledAt F.FnMut) f.old h → holds h (tree_in nodes.now) ≡ true) }
    ensures still_callable { F.IsAlwaysCallable f.new }
    ensures err { IfErr result (RefusedOr (f.new ≡ f.old) (λ failed.
        EvaluatesToFalse (CalledAt F.FnMut) f.old (tree_in nodes.now) (placed_in nodes.now)
        (map placed_of (nows failed.items)) f.new)) }
    ensures err_by { IfErr result (IfRefused (λ failed. (h : Requirement → Bool) →
        AnswersBy (CalledAt F.FnMut) f.old h → FailsBy h (tree_in nodes.now)
        (placed_in nodes.now) (map placed_of (nows failed.items)))) }
{
    let mut truths = Truths::with_room(alloc, nodes.len())?;
    let mut failed = Vec::with_capacity(alloc, nodes.len())?;
    for node in nodes {
        match node {
            ExprNode::Req(requirement) => {
                let answer = f(&requirement.req);
                truths.push(answer);
                keep_if_false(&mut failed, requirement, answer);
            }
            ExprNode::Op(Operator::And) => truths.both(),
            ExprNode::Op(Operator::Or) => truths.either(),
        }
    }
    if truths.take() {
        Ok(())
    } else {
        Err(Failure::Refused(failed))
    }
}

// Keeps a requirement whose answer was false.
fn keep_if_false<'e, 'c>(
    failed: &mut Vec<&'e ExpressionReq<'c>>,
    requirement: &'e ExpressionReq<'c>,
    answer: bool,
)
    requires { vec_len failed.old < vec_capacity failed.old }
    ensures items { nows failed.new.items
        ≡ kept_if_false (nows failed.old.items) requirement.now answer }
    ensures len { vec_len failed.new ≤ vec_len failed.old + 1 }
    ensures capacity { vec_capacity failed.new ≡ vec_capacity failed.old }
{
    if !answer {
        failed.push_reserved(requirement);
    }
}
