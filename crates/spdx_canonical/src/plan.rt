// The pieces of a normal text, from the nodes in postfix order: read from the last to the first,
// these are a root, its right operand, its left operand.

ghost use Rattle.std.specs.Prelude.{◌≡◌, ◌≤◌, ◌+◌, ◌++◌, map, IfOk, OnOk, vec_len};
ghost use Rattle.spdx_parser.specs.Tree.{Tree, postfix, node_of};
ghost use Rattle.spdx_canonical.specs.Normal.{normal_text};
ghost use Rattle.spdx_canonical.specs.Plan.{needs_parens, pieces_for, tasks_for, pieces_text};

use crate::piece::{Piece, Place, Task};
use spdx_parser::node::{ExprNode, Operator};
use std::alloc::{AllocError, Global};

// Whether an operand with this root has parentheses there.
fn needs_parens(place: Place, root: &ExprNode<'_>) -> bool
    ensures { result ≡ needs_parens place (node_of root.now) }
{
    match place {
        Place::Whole | Place::Right(Operator::Or) => false,
        Place::Left(Operator::And) => !matches!(root, ExprNode::Req(_)),
        Place::Left(Operator::Or) | Place::Right(Operator::And) => {
            matches!(root, ExprNode::Op(Operator::Or))
        }
    }
}

// Plans the operand whose root is this node, the one at `at`.
fn plan(
    tasks: &mut Vec<Task>,
    pieces: &mut Vec<Piece>,
    place: Place,
    at: usize,
    root: &ExprNode<'_>,
) -> Result<(), AllocError>
    ensures due { OnOk result (tasks.new.items ≡
        tasks.old.items ++ tasks_for place at (node_of root.now)) }
    ensures written { OnOk result (pieces.new.items ≡
        pieces.old.items ++ pieces_for place at (node_of root.now)) }
    ensures few { OnOk result (vec_len tasks.new ≤ vec_len tasks.old + 4) }
{
    let ExprNode::Op(operator) = root else {
        pieces.push(Piece::Node(at))?;
        return Ok(());
    };
    if needs_parens(place, root) {
        pieces.push(Piece::Close)?;
        tasks.push(Task::Write(Piece::Open))?;
    }
    tasks.push(Task::Operand(Place::Left(*operator)))?;
    tasks.push(Task::Write(Piece::Node(at)))?;
    tasks.push(Task::Operand(Place::Right(*operator)))?;
    Ok(())
}

// The pieces of the normal text, the last one first.
pub(crate) fn pieces_of(alloc: Global, nodes: &[ExprNode<'_>]) -> Result<Vec<Piece>, AllocError>
    ensures { IfOk result (λ pieces. (t : Tree) → map node_of nodes.now ≡ postfix t →
        pieces_text nodes.now pieces.items ≡ normal_text t) }
{
    let mut pieces = Vec::new(alloc);
    let mut tasks = Vec::new(alloc);
    tasks.push(Task::Operand(Place::Whole))?;
    let mut left = nodes.len();
    while let Some(task) = tasks.pop() {
        match task {
            Task::Write(piece) => pieces.push(piece)?,
            Task::Operand(place) => {
                if left > 0 {
                    left -= 1;
                    plan(&mut tasks, &mut pieces, place, left, &nodes[left])?;
                }
            }
        }
    }
    Ok(pieces)
}
