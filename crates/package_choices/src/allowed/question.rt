//! What is asked of a choice: one expression, over some members.

ghost use Rattle.std.specs.Prelude.{◌≡◌, length, map};
ghost use Rattle.spdx_parser.specs.Tree.{leaves, node_of};
ghost use Rattle.spdx_evaluation.specs.Postfix.{IsPostfix, tree_in};

use spdx_parser::node::ExprNode;

/// An expression with its allowed requirements, and of each requirement the number of the member that is the same.
#[derive(Drop)]
pub(crate) struct Question<'a, 'c> {
    pub(crate) nodes: &'a [ExprNode<'c>],
    pub(crate) allowed: &'a [bool],
    pub(crate) numbers: Vec<usize>,
    ghost postfix: { IsPostfix (map node_of nodes.now) },
    ghost each: { length allowed.now ≡ length (leaves (tree_in nodes.now)) },
    ghost numbered: { length numbers.items ≡ length allowed.now },
}
