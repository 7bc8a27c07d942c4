//! The normal text of the nodes of an expression.

ghost use Rattle.std.specs.Prelude.{◌≡◌, ◌++◌, map, IfOk, OnOk, string_bytes};
ghost use Rattle.spdx_parser.specs.Tree.{Tree, postfix, node_of};
ghost use Rattle.spdx_canonical.specs.Normal.{normal_text};
ghost use Rattle.spdx_canonical.specs.Plan.{node_text, piece_text};

use crate::piece::Piece;
use crate::plan::pieces_of;
use spdx_parser::node::{ExprNode, Operator};
use std::alloc::{AllocError, Global};
use std::fmt::Write;

/// The normal text of the tree whose postfix list the nodes are: its requirements as they print,
/// ` AND ` and ` OR ` between them, and as few parentheses as the tree allows
/// (`docs/EXPRESSIONS.md`).
///
/// Linear in the nodes and in the bytes of the text, without recursion. Each reference is copied
/// once, into the text. Beside the text, what it is made of takes memory while it is written: for
/// each operator up to three pieces and four tasks.
///
/// # Errors
///
/// Memory was refused.
pub fn normal_text(alloc: Global, nodes: &[ExprNode<'_>]) -> Result<String, AllocError>
    ensures { IfOk result (λ text. (t : Tree) → map node_of nodes.now ≡ postfix t →
        string_bytes text ≡ normal_text t) }
{
    let mut pieces = pieces_of(alloc, nodes)?;
    let mut text = String::new(alloc);
    while let Some(piece) = pieces.pop() {
        put_piece(&mut text, nodes, piece)?;
    }
    Ok(text)
}

// Appends a piece.
fn put_piece(text: &mut String, nodes: &[ExprNode<'_>], piece: Piece) -> Result<(), AllocError>
    ensures { OnOk result (string_bytes text.new ≡
        string_bytes text.old ++ piece_text nodes.now piece) }
{
    match piece {
        Piece::Node(place) => match nodes.get(place) {
            Some(node) => put_node(text, node),
            None => Ok(()),
        },
        Piece::Open => text.push('('),
        Piece::Close => text.push(')'),
    }
}

// Appends a requirement or an operator.
fn put_node(text: &mut String, node: &ExprNode<'_>) -> Result<(), AllocError>
    ensures { OnOk result (string_bytes text.new ≡
        string_bytes text.old ++ node_text (node_of node.now)) }
{
    match node {
        ExprNode::Req(requirement) => write!(text, "{}", requirement.req),
        ExprNode::Op(Operator::And) => text.push_str(" AND "),
        ExprNode::Op(Operator::Or) => text.push_str(" OR "),
    }
}
