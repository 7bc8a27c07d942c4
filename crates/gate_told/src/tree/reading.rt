// Nodes that are read from the last to the first: an operator, its right operand, its left operand.

ghost use Rattle.std.specs.Prelude.{◌≡◌, OnOk};
ghost use Rattle.gate_forms.specs.Report as forms;
ghost use Rattle.spdx_parser.specs.Tree.{node_of};
ghost use Rattle.spdx_evaluation.specs.Truth as truth;
ghost use Rattle.gate_told.specs.Shown as shown;
ghost use Rattle.gate_told.specs.Reading.{start, reading_of, read_node, leaf_read, part_put, operand_read};

use gate_forms::{Leaf, Mark, Node, Part};
use spdx_parser::node::{ExprNode, Operator};
use std::alloc::{AllocError, Global};

/// An operator of which not all was read.
#[derive(Clone, Copy)]
pub(crate) enum Waiting {
    Both(Operator),
    /// The right operand was read: whether it is accepted.
    Left(Operator, bool),
}

/// What was read of the nodes so far.
#[derive(Drop)]
pub(crate) struct Reading<'l, 'r> {
    /// The leaves of the nodes that weren't read.
    pub(crate) left: &'l [Leaf<'r>],
    /// The operators that wait for operands, the innermost last.
    pub(crate) waiting: Vec<Waiting>,
    /// The parts of which all was read, what is shown first last.
    pub(crate) parts: Vec<Node<'r>>,
}

impl<'l, 'r> Reading<'l, 'r> {
    pub(crate) fn new(alloc: Global, leaves: &'l [Leaf<'r>]) -> Reading<'l, 'r>
        ensures { reading_of result ≡ start leaves.now }
    {
        Reading {
            left: leaves,
            waiting: Vec::new(alloc),
            parts: Vec::new(alloc),
        }
    }

    /// Reads one more node.
    pub(crate) fn read(&mut self, node: &ExprNode<'_>) -> Result<(), AllocError>
        ensures { OnOk result (
            reading_of self.new ≡ read_node (node_of node.now) (reading_of self.old)) }
    {
        match node {
            ExprNode::Op(operator) => {
                self.waiting.push(Waiting::Both(*operator))?;
                Ok(())
            }
            ExprNode::Req(_) => self.read_leaf(),
        }
    }

    // The last leaf that wasn't read; nothing where there is none.
    fn read_leaf(&mut self) -> Result<(), AllocError>
        ensures { OnOk result (reading_of self.new ≡ leaf_read (reading_of self.old)) }
    {
        let left = self.left;
        let [before @ .., leaf] = left else {
            return Ok(());
        };
        let accepted = is_accepted(leaf.mark);
        let part = Part::License(*leaf);
        self.left = before;
        self.put(part)?;
        self.end_operand(accepted)
    }

    // One more part, which stands in those that wait.
    fn put(&mut self, part: Part<'r>) -> Result<(), AllocError>
        ensures { OnOk result (reading_of self.new ≡ part_put part.entry (reading_of self.old)) }
    {
        let depth = self.waiting.len();
        self.parts.push(Node { depth, part })?;
        Ok(())
    }

    // All of an operand was read, and so all of the operators whose last operand that ends.
    fn end_operand(&mut self, accepted: bool) -> Result<(), AllocError>
        ensures { OnOk result (
            reading_of self.new ≡ operand_read accepted (reading_of self.old)) }
    {
        let mut accepted = accepted;
        while let Some(waiting) = self.waiting.pop() {
            match waiting {
                Waiting::Both(operator) => {
                    self.waiting.push(Waiting::Left(operator, accepted))?;
                    return Ok(());
                }
                Waiting::Left(operator, right) => {
                    accepted = joined(operator, accepted, right);
                    self.put(operator_part(operator, accepted))?;
                }
            }
        }
        Ok(())
    }
}

fn is_accepted(mark: Mark) -> bool
    ensures { result ≡ forms.is_accepted mark }
{
    match mark {
        Mark::Accepted => true,
        Mark::Denied | Mark::Open => false,
    }
}

// Whether AND or OR is accepted.
fn joined(operator: Operator, left: bool, right: bool) -> bool
    ensures { result ≡ truth.joined operator left right }
{
    match operator {
        Operator::And => left && right,
        Operator::Or => left || right,
    }
}

fn operator_part<'r>(operator: Operator, accepted: bool) -> Part<'r>
    ensures { result ≡ shown.operator_part operator accepted }
{
    match operator {
        Operator::And => Part::And { accepted },
        Operator::Or => Part::Or { accepted },
    }
}
