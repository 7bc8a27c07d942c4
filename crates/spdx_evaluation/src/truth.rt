//! The truth of nodes over a closure's answers to their requirements.

ghost use Rattle.std.specs.Prelude.{◌≡◌, ◌≤◌, Bool, length, map, IfOk, OnErr, IsOk};
ghost use Rattle.std.specs.Fn.{CalledAt};
ghost use Rattle.spdx_requirement.specs.Items.{Requirement};
ghost use Rattle.spdx_parser.specs.Tree.{leaves, node_of};
ghost use Rattle.spdx_evaluation.specs.Postfix.{IsPostfix, tree_in};
ghost use Rattle.spdx_evaluation.specs.Calls.{Evaluates};
ghost use Rattle.spdx_evaluation.specs.ByRequirement.{AnswersBy};
ghost use Rattle.spdx_evaluation.specs.Truth.{holds};

use crate::word::{joined, truth_in_word};
use selections::Truths;
use spdx_catalogue::LicenseReq;
use spdx_parser::node::{ExprNode, Operator};
use std::alloc::{AllocError, Global};

/// The truth, over the closure's answers, of the tree whose postfix list the nodes are.
///
/// The closure is called exactly once for each requirement, from left to right, whatever it
/// answers. All memory is taken before the first call, so that where it is wanting the closure was
/// not called. At most eight requirements take none. Of a closure that answers by the requirement
/// alone, `by` says the truth without its calls.
pub fn evaluate<'c, F: FnMut(&LicenseReq<'c>) -> bool>(
    alloc: Global,
    nodes: &[ExprNode<'c>],
    f: &mut F,
) -> Result<bool, AllocError>
    requires callable { F.IsAlwaysCallable f.old }
    requires tree { IsPostfix (map node_of nodes.now) }
    ensures ok { IfOk result (λ truth.
        Evaluates (CalledAt F.FnMut) f.old (tree_in nodes.now) truth f.new) }
    ensures by { IfOk result (λ truth. (h : Requirement → Bool) →
        AnswersBy (CalledAt F.FnMut) f.old h → truth ≡ holds h (tree_in nodes.now)) }
    ensures still_callable { F.IsAlwaysCallable f.new }
    ensures err { OnErr result (f.new ≡ f.old) }
    ensures no_memory { length (leaves (tree_in nodes.now)) ≤ 8 → IsOk result }
{
    // Most expressions are one requirement, whose answer is the truth.
    if let [node] = nodes
        && let ExprNode::Req(requirement) = node
    {
        return Ok(f(&requirement.req));
    }
    // Of most others two requirements are joined.
    if let [first, second, last] = nodes
        && let ExprNode::Req(left) = first
        && let ExprNode::Req(right) = second
        && let ExprNode::Op(operator) = last
    {
        let one = f(&left.req);
        let other = f(&right.req);
        return Ok(joined(*operator, one, other));
    }
    if nodes.len() <= 64 {
        return Ok(truth_in_word(nodes, f));
    }
    let mut truths = Truths::with_room(alloc, nodes.len())?;
    Ok(truth_over(&mut truths, nodes, f))
}

// The truth of the tree whose postfix list the nodes are, over a stack that has room for it.
fn truth_over<'c, F: FnMut(&LicenseReq<'c>) -> bool>(
    truths: &mut Truths,
    nodes: &[ExprNode<'c>],
    f: &mut F,
) -> bool
    requires callable { F.IsAlwaysCallable f.old }
    requires tree { IsPostfix (map node_of nodes.now) }
    requires room { length nodes.now ≤ truths.old.room }
    ensures truth { Evaluates (CalledAt F.FnMut) f.old (tree_in nodes.now) result f.new }
    ensures still_callable { F.IsAlwaysCallable f.new }
    ensures room { truths.new.room ≡ truths.old.room }
{
    truths.clear();
    for node in nodes {
        match node {
            ExprNode::Req(requirement) => truths.push(f(&requirement.req)),
            ExprNode::Op(Operator::And) => truths.both(),
            ExprNode::Op(Operator::Or) => truths.either(),
        }
    }
    truths.take()
}
