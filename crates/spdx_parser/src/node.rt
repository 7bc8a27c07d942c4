// The nodes of an expression.

ghost use Rattle.std.specs.Prelude.{◌≡◌, IfOk, IsOk};
ghost use Rattle.spdx_requirement.specs.Items.{requirement_of};
ghost use Rattle.spdx_requirement.specs.References.{HasNoReference};
ghost use Rattle.spdx_parser.specs.Tree.{node_of};
ghost use Rattle.spdx_parser.specs.Nodes.{NodeHasNoReference};
ghost use Rattle.spdx_parser.specs.Spans.{node_span};

use smallvec::SmallVec;
use spdx_catalogue::LicenseReq;
use std::alloc::{AllocError, Global};
use std::ops::Range;

/// What joins two expressions; `AND` binds the tighter, and is the lesser.
#[derive(Clone, Copy, PartialEq, Eq, PartialOrd, Ord, Debug)]
pub enum Operator {
    And,
    Or,
}

/// A requirement, and where its licence stands in the text. Two are equal if their requirements are.
#[derive(Debug, Drop)]
#[derive_where(PartialEq)]
pub struct ExpressionReq<'c> {
    pub req: LicenseReq<'c>,
    /// The bytes of the licence's token alone, without a `+` or an addition.
    #[derive_where(skip(EqHashOrd))]
    pub span: Range<usize>,
}

/// A node of an expression in postfix order: an operator stands behind its two operands.
#[derive(Debug, PartialEq, Drop)]
pub enum ExprNode<'c> {
    Op(Operator),
    Req(ExpressionReq<'c>),
}

/// The nodes of an expression; a single one takes no memory beside the list.
pub type NodeList<'c> = SmallVec<ExprNode<'c>, 1>;

impl Default for ExprNode<'_> {
    fn default() -> Self {
        ExprNode::Op(Operator::And)
    }
}

impl<'c> ExpressionReq<'c> {
    /// A copy with the same requirement and the same span, or the want of memory, which references
    /// alone take.
    pub fn try_clone(&self, alloc: Global) -> Result<ExpressionReq<'c>, AllocError>
        ensures requirement { IfOk result (λ copy.
            requirement_of copy.req ≡ requirement_of self.now.req) }
        ensures span { IfOk result (λ copy. copy.span ≡ self.now.span) }
        ensures no_memory { HasNoReference (requirement_of self.now.req) → IsOk result }
    {
        Ok(ExpressionReq {
            req: self.req.try_clone(alloc)?,
            span: self.span.start..self.span.end,
        })
    }
}

impl<'c> ExprNode<'c> {
    /// A copy with the same operator, or the same requirement and the same span, or the want of memory,
    /// which references alone take.
    pub fn try_clone(&self, alloc: Global) -> Result<ExprNode<'c>, AllocError>
        ensures node { IfOk result (λ copy. node_of copy ≡ node_of self.now) }
        ensures span { IfOk result (λ copy. node_span copy ≡ node_span self.now) }
        ensures no_memory { NodeHasNoReference (node_of self.now) → IsOk result }
    {
        match self {
            ExprNode::Op(operator) => Ok(ExprNode::Op(*operator)),
            ExprNode::Req(req) => Ok(ExprNode::Req(req.try_clone(alloc)?)),
        }
    }
}
