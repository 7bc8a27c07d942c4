// What equality of nodes and the order of operators are.

ghost use Rattle.std.specs.Prelude.{◌≡◌, ◌↔◌, IsTrue};
ghost use Rattle.spdx_parser.specs.Tree.{node_of, node_key};
ghost use Rattle.spdx_parser.specs.Nodes.{operator_cmp};

use crate::node::{ExprNode, Operator};
use std::cmp::Ordering;

/// `==` of nodes: they are equal if their operators or their requirements are, wherever those
/// stand in a text.
pub fn are_same_node(a: &ExprNode<'_>, b: &ExprNode<'_>) -> bool
    ensures { IsTrue result ↔ (node_key (node_of a.now) ≡ node_key (node_of b.now)) }
{
    a == b
}

/// `cmp` of operators: `AND` is the lesser.
pub fn compare_operators(a: Operator, b: Operator) -> Ordering
    ensures { result ≡ operator_cmp a b }
{
    Operator::cmp(&a, &b)
}
