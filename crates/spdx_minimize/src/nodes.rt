//! The nodes of an expression, as the minimiser is given them.

ghost use Rattle.std.specs.Prelude.{◌≡◌, map};
ghost use Rattle.spdx_parser.specs.Tree.{node_of};
ghost use Rattle.spdx_evaluation.specs.Postfix.{IsPostfix, tree_in};

use spdx_parser::node::ExprNode;

/// The nodes of an expression, which are the postfix list of its tree.
#[derive(Drop)]
pub struct TreeNodes<'a, 'c> {
    pub(crate) nodes: &'a [ExprNode<'c>],
    ghost postfix: { IsPostfix (map node_of nodes.now) },
}

impl<'a, 'c> TreeNodes<'a, 'c> {
    ghost use Rattle.spdx_minimize.specs.Trees.{tree_of_nodes};

    /// These nodes.
    pub fn new(nodes: &'a [ExprNode<'c>]) -> Self
        requires { IsPostfix (map node_of nodes.now) }
        ensures { tree_of_nodes result ≡ tree_in nodes.now }
    {
        TreeNodes { nodes }
    }
}
