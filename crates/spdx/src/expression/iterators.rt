//! The nodes and the requirements of an expression, one after another.

ghost use Rattle.std.specs.Prelude.{◌≡◌, map};
ghost use Rattle.spdx_parser.specs.Nodes.{placed_node};
ghost use Rattle.spdx_evaluation.specs.Requirements.{placed_of, placed_in};

use spdx_parser::node::{ExprNode, ExpressionReq};

/// The nodes of an expression in postfix order.
#[derive(Clone, Drop)]
pub struct Nodes<'e, 'c> {
    rest: &'e [ExprNode<'c>],
}

impl<'e, 'c> Nodes<'e, 'c> {
    pub(super) fn new(rest: &'e [ExprNode<'c>]) -> Self
        ensures { result.rest.now ≡ rest.now }
    {
        Nodes { rest }
    }
}

impl<'e, 'c> Iterator for Nodes<'e, 'c> {
    ghost use Rattle.std.specs.Iterator.{YieldsFirstBy, item_count};
    ghost use Rattle.spdx.specs.Iterators.{nodes_left};

    type Item = &'e ExprNode<'c>;

    ghost next_gives = { YieldsFirstBy (λ node. placed_node node.now) nodes_left };

    ghost remaining = { item_count nodes_left };

    fn next(&mut self) -> Option<Self::Item> {
        let nodes: &'e [ExprNode<'c>] = self.rest;
        if nodes.is_empty() {
            return None;
        }
        self.rest = &nodes[1..];
        Some(&nodes[0])
    }
}

/// The requirements of an expression from left to right.
#[derive(Clone, Drop)]
pub struct Requirements<'e, 'c> {
    rest: &'e [ExprNode<'c>],
}

impl<'e, 'c> Requirements<'e, 'c> {
    pub(super) fn new(rest: &'e [ExprNode<'c>]) -> Self
        ensures { result.rest.now ≡ rest.now }
    {
        Requirements { rest }
    }
}

impl<'e, 'c> Iterator for Requirements<'e, 'c> {
    ghost use Rattle.std.specs.Iterator.{YieldsFirstBy, item_count};
    ghost use Rattle.spdx.specs.Iterators.{requirements_left};

    type Item = &'e ExpressionReq<'c>;

    ghost next_gives = { YieldsFirstBy (λ r. placed_of r.now) requirements_left };

    ghost remaining = { item_count requirements_left };

    fn next(&mut self) -> Option<Self::Item> {
        let nodes: &'e [ExprNode<'c>] = self.rest;
        for i in 0..nodes.len() {
            if let ExprNode::Req(requirement) = &nodes[i] {
                self.rest = &nodes[i + 1..];
                return Some(requirement);
            }
        }
        self.rest = &[];
        None
    }
}
