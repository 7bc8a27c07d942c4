// The parts of an expression, as they are shown.

ghost use Rattle.std.specs.Prelude.{◌≡◌, IfOk, length, map, reverse};
ghost use Rattle.spdx_parser.specs.Tree.{Tree, node_of};
ghost use Rattle.gate_told.specs.Shown.{AreOf, is_first_accepted, is_tree_accepted, shown_parts};
ghost use Rattle.gate_told.specs.Reading.{read_back, start};

pub(crate) mod reading;

use crate::tree::reading::Reading;
use gate_forms::{Leaf, Node};
use spdx_parser::node::ExprNode;
use std::alloc::{AllocError, Global};

/// The parts of an expression whose tree the nodes are, and whose requirements have these leaves, from left to right: a part
/// that joins others stands before them, the left one before the right one, with how many parts each stands in. A
/// requirement is accepted where its leaf is, AND where both operands are, OR where one is; so the first part is accepted
/// exactly where the whole expression is. Each node has one part.
///
/// Takes time and memory in the number of nodes, however deep the tree is. Nodes of no tree, or with fewer leaves than they
/// have requirements, or with more, have some parts.
///
/// # Errors
///
/// Memory was refused.
#[tactic(auto, using(crate::proofs::Trees::shown))]
pub fn parts<'r>(
    alloc: Global,
    nodes: &[ExprNode<'_>],
    leaves: &[Leaf<'r>],
) -> Result<Vec<Node<'r>>, AllocError>
    ensures exact { IfOk result (λ parts. (t : Tree) → AreOf t nodes.now leaves.now →
        parts.items ≡ shown_parts t leaves.now 0) }
    ensures each { IfOk result (λ parts. (t : Tree) → AreOf t nodes.now leaves.now →
        length parts.items ≡ length nodes.now) }
    ensures first { IfOk result (λ parts. (t : Tree) → AreOf t nodes.now leaves.now →
        is_first_accepted parts.items ≡ is_tree_accepted t leaves.now) }
{
    let mut parts = parts_from_last(alloc, nodes, leaves)?;
    parts.reverse();
    Ok(parts)
}

// The parts, what is shown first last.
fn parts_from_last<'r>(
    alloc: Global,
    nodes: &[ExprNode<'_>],
    leaves: &[Leaf<'r>],
) -> Result<Vec<Node<'r>>, AllocError>
    ensures { IfOk result (λ parts. reverse parts.items
        ≡ (read_back (map node_of nodes.now) (start leaves.now)).parts) }
{
    let mut reading = Reading::new(alloc, leaves);
    for i in (0..nodes.len()).rev() {
        reading.read(&nodes[i])?;
    }
    Ok(reading.parts)
}
