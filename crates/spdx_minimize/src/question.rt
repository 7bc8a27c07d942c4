//! What is asked of a selection of licensees: some expressions, over some members.

ghost use Rattle.std.specs.Prelude.{◌≡◌, ◌≤◌, length, map};
ghost use Rattle.std.specs.List.{All};
ghost use Rattle.spdx_parser.specs.Tree.{leaves, node_of};
ghost use Rattle.spdx_evaluation.specs.Postfix.{IsPostfix, tree_in};

use smallvec::SmallVec;
use spdx_parser::node::ExprNode;

/// Which of some places are those of one requirement: the indices from `start` up to `end`.
#[derive(Clone, Copy, Default)]
pub(crate) struct Part {
    pub(crate) start: usize,
    pub(crate) end: usize,
}

/// Places of members; so many take no memory.
pub(crate) type PlaceList = SmallVec<usize, 8>;

/// Parts of such a list; so many take no memory.
pub(crate) type PartList = SmallVec<Part, 6>;

/// The places of the members that satisfy the requirements of some expressions, in one list for all: for each requirement,
/// from left to right, a part of it.
#[derive(Drop)]
pub(crate) struct Meeting {
    pub(crate) places: PlaceList,
    pub(crate) parts: PartList,
    ghost within: { All (λ p. (p.start ≤ p.end) × (p.end ≤ length places.items)) parts.items },
}

/// The nodes of an expression, and of each of its requirements, from left to right, the part of some places at which the
/// members stand that satisfy it.
#[derive(Drop)]
pub(crate) struct Question<'q, 'c> {
    pub(crate) nodes: &'q [ExprNode<'c>],
    pub(crate) places: &'q [usize],
    pub(crate) parts: &'q [Part],
    ghost postfix: { IsPostfix (map node_of nodes.now) },
    ghost each: { length parts.now ≡ length (leaves (tree_in nodes.now)) },
    ghost within: { All (λ p. (p.start ≤ p.end) × (p.end ≤ length places.now)) parts.now },
}
