// What a normal text is made of, and what is left to be done while it is.

use spdx_parser::node::Operator;

/// Where an operand stands.
#[derive(Clone, Copy)]
pub(crate) enum Place {
    Whole,
    Left(Operator),
    Right(Operator),
}

/// A piece of the text; a node by its place in the postfix list.
#[derive(Clone, Copy)]
pub(crate) enum Piece {
    Node(usize),
    Open,
    Close,
}

/// What stands before the pieces that there are: an operand, whose nodes are the last that are
/// left, or a piece.
#[derive(Clone, Copy)]
pub(crate) enum Task {
    Operand(Place),
    Write(Piece),
}
