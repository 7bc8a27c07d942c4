//! Licence expressions that were read.

ghost use Rattle.std.specs.Prelude.{◌≡◌, ◌<◌, ◌^◌, [], IfOk, List, length, map, string_bytes};
ghost use Rattle.spdx_parser.specs.Tree.{Tree, postfix, leaves, node_of};
ghost use Rattle.spdx_parser.specs.Spans.{requirement_spans};
ghost use Rattle.spdx.specs.Value.{Written, placed};
ghost use Rattle.spdx_evaluation.specs.Postfix.{IsPostfix, tree_in};
ghost use Rattle.spdx_evaluation.specs.Requirements.{placed_of, placed_in};
ghost use Rattle.spdx.specs.Iterators.{nodes_left, placed_nodes, requirements_left};

use smallvec::SmallVec;
use spdx_parser::node::NodeList;
use std::alloc::{AllocError, Global};
use std::marker::Model;

mod canonical;
mod equality;
pub mod evaluate;
mod fix;
pub mod iterators;
pub mod judge;
mod meaning;
pub mod minimize;
mod normal;
mod parser;
mod texts;

pub use iterators::{Nodes, Requirements};
pub use judge::ExpressionJudge;
pub use minimize::minimized_for_all;
pub use spdx_minimize::{MinimizeError, laws};
// The default of a node fills the unused places of a `SmallVec`; it means nothing, and no call gives it.
pub use spdx_parser::node::{ExprNode, ExpressionReq, Operator};

/// A licence expression: a tree of requirements joined by AND and OR, and the text that it was
/// read from.
///
/// Two expressions are equal exactly if their trees are equal; their texts, the places of their
/// requirements and redundant parentheses don't count. Rows are told apart by their index, so
/// equality speaks of expressions over one catalogue.
#[derive(Drop)]
pub struct Expression<'c> {
    original: String,
    nodes: NodeList<'c>,
}

impl<'c> Model for Expression<'c> {
    ghost use Rattle.spdx.specs.Value.{Written};
    ghost use Rattle.std.specs.Coded.{codes};
    ghost use Rattle.spdx.specs.CodeLaws.{tree_code};

    ghost Value = { Written };

    ghost coded = { Prim.hlevel (codes, tree_code (Prim.hlevel codes)) };

    ghost use Rattle.spdx.specs.ExpressionModel.{written, IsWritten};

    ghost view = { written };

    ghost invariant = { IsWritten };
}

impl<'c> Expression<'c> {
    /// The expression with this text, whose nodes are the postfix list of its tree.
    pub(crate) fn from_nodes(original: String, nodes: NodeList<'c>) -> Self
        requires { IsPostfix (map node_of nodes.items) }
        ensures text { result.text ≡ string_bytes original }
        ensures tree { (t : Tree) → map node_of nodes.entry.items ≡ postfix t → result.tree ≡ t }
        ensures spans { result.spans ≡ requirement_spans nodes.entry.items }
    {
        Expression { original, nodes }
    }

    /// The text that was read.
    pub fn text(&self) -> &str
        ensures { result.now ≡ self.now.text }
    {
        self.original.as_str()
    }

    /// The nodes of the tree in postfix order: the left operand, the right operand, the operator.
    /// Each requirement comes with its place.
    pub fn iter(&self) -> Nodes<'_, 'c>
        ensures { nodes_left result ≡ placed_nodes self.now }
    {
        Nodes::new(self.nodes.as_slice())
    }

    /// The requirements of the tree from left to right.
    pub fn requirements(&self) -> Requirements<'_, 'c>
        ensures requirements { requirements_left result ≡ placed self.now }
        ensures places { length self.now.spans ≡ length (leaves self.now.tree) }
        ensures bound { length (requirements_left result) < 2 ^ 64 }
    {
        Requirements::new(self.nodes.as_slice())
    }

    // The nodes, of which a caller then knows that they are the postfix list of the tree.
    pub(crate) fn nodes(&self) -> &[ExprNode<'c>]
        ensures tree { tree_in result.now ≡ self.now.tree }
        ensures postfix { IsPostfix (map node_of result.now) }
        ensures placed { placed_in result.now ≡ placed self.now }
    {
        self.nodes.as_slice()
    }

    /// Gives back memory that the tree doesn't take. Nothing else changes.
    ///
    /// While an expression is read there is room for more nodes than it has.
    pub fn shrink_to_fit(&mut self)
        ensures { self.new ≡ self.old }
    {
        self.nodes.shrink_to_fit();
    }

    /// Lets the text go, and the memory that it takes: it is empty then. Nothing else changes; the places of the
    /// requirements are those in the text that was read.
    pub fn forget_text(&mut self, alloc: Global)
        ensures text { self.new.text ≡ [] }
        ensures tree { self.new.tree ≡ self.old.tree }
        ensures spans { self.new.spans ≡ self.old.spans }
    {
        self.original = String::new(alloc);
    }

    /// A copy that is the same in every part, spans and text included, or the want of memory.
    pub fn try_clone(&self, alloc: Global) -> Result<Expression<'c>, AllocError>
        ensures { IfOk result (λ copy. copy ≡ self.now) }
    {
        let nodes = clone_nodes(alloc, self.nodes.as_slice())?;
        let original = self.original.clone()?;
        Ok(Expression { original, nodes })
    }
}

// The nodes once more, spans included.
fn clone_nodes<'c>(alloc: Global, nodes: &[ExprNode<'c>]) -> Result<NodeList<'c>, AllocError>
    ensures nodes { IfOk result (λ copy. map node_of copy.items ≡ map node_of nodes.now) }
    ensures spans { IfOk result (λ copy.
        requirement_spans copy.items ≡ requirement_spans nodes.now) }
{
    let mut copy = SmallVec::new(alloc);
    for node in nodes {
        let copied = node.try_clone(alloc)?;
        copy.push(copied)?;
    }
    Ok(copy)
}
