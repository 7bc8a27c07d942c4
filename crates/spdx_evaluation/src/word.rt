//! The truth of few nodes, over a word of truths.

ghost use Rattle.std.specs.Prelude.{◌≡◌, ◌≤◌, length, map};
ghost use Rattle.std.specs.Fn.{CalledAt};
ghost use Rattle.selections.specs.Truths.{join_newest};
ghost use Rattle.spdx_parser.specs.Tree.{node_of};
ghost use Rattle.spdx_evaluation.specs.Postfix.{IsPostfix, tree_in};
ghost use Rattle.spdx_evaluation.specs.Calls.{Evaluates};
ghost use Rattle.spdx_evaluation.specs.Truth as spec;

use selections::WordTruths;
use spdx_catalogue::LicenseReq;
use spdx_parser::node::{ExprNode, Operator};

// The truth of the tree whose postfix list the nodes are, where they are few: it takes no memory. A call of its own,
// since inlined it slows the caller's path of one requirement.
#[inline(never)]
pub(crate) fn truth_in_word<'c, F: FnMut(&LicenseReq<'c>) -> bool>(
    nodes: &[ExprNode<'c>],
    f: &mut F,
) -> bool
    requires callable { F.IsAlwaysCallable f.old }
    requires tree { IsPostfix (map node_of nodes.now) }
    requires few { length nodes.now ≤ 64 }
    ensures truth { Evaluates (CalledAt F.FnMut) f.old (tree_in nodes.now) result f.new }
    ensures still_callable { F.IsAlwaysCallable f.new }
{
    let mut truths = WordTruths::new();
    for node in nodes {
        match node {
            ExprNode::Req(requirement) => truths.push(f(&requirement.req)),
            ExprNode::Op(operator) => join(&mut truths, *operator),
        }
    }
    truths.take()
}

/// What the operator makes of the truths of its operands.
pub(crate) fn joined(operator: Operator, left: bool, right: bool) -> bool
    ensures { result ≡ spec.joined operator left right }
{
    match operator {
        Operator::And => left & right,
        Operator::Or => left | right,
    }
}

// Puts in place of the two newest truths what the operator makes of them. Both operators take the same steps, since
// which of them comes next is hard to foretell.
#[inline(always)]
fn join(truths: &mut WordTruths, operator: Operator)
    requires two { 2 ≤ length truths.old.items }
    requires room { length truths.old.items ≤ truths.old.room }
    ensures items { truths.new.items ≡ join_newest (spec.joined operator) truths.old.items }
    ensures room { truths.new.room ≡ truths.old.room }
{
    let right = truths.take();
    let left = truths.take();
    truths.push(joined(operator, left, right));
}
