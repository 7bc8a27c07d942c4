// Writing of nodes.

ghost use Rattle.std.specs.Prelude.{◌≡◌, [], ◌∷◌, ◌++◌, None, OnOk, map};
ghost use Rattle.smallvec.specs.SmallVec.{HasRoomFor};
ghost use Rattle.spdx_parser.specs.Nodes.{placed_node};
ghost use Rattle.spdx_parser.specs.State.{operators};
ghost use Rattle.spdx_parser.specs.Tree.{Op};

use crate::node::{ExprNode, NodeList, Operator};
use std::alloc::AllocError;

// The first allocation has room for eight nodes: few expressions have more.
const MORE: usize = 7;

/// Room for more nodes.
#[cold]
#[inline(never)]
pub fn make_room(nodes: &mut NodeList<'_>) -> Result<(), AllocError>
    ensures items { nodes.new.items ≡ nodes.old.items }
    ensures room { OnOk result (HasRoomFor nodes.new 1) }
{
    nodes.reserve(MORE)
}

/// One more node.
#[inline(always)]
pub fn put<'c>(nodes: &mut NodeList<'c>, node: ExprNode<'c>) -> Result<(), AllocError>
    ensures { OnOk result (map placed_node nodes.new.items
        ≡ map placed_node nodes.old.items ++ placed_node node.entry ∷ []) }
{
    if nodes.len() == nodes.capacity() {
        make_room(nodes)?;
    }
    nodes.push_reserved(node);
    Ok(())
}

#[inline(never)]
fn put_operator(nodes: &mut NodeList<'_>, operator: Operator) -> Result<(), AllocError>
    ensures { OnOk result (map placed_node nodes.new.items
        ≡ map placed_node nodes.old.items ++ (Op operator, None) ∷ []) }
{
    put(nodes, ExprNode::Op(operator))
}

/// An operator, so many times.
pub fn put_operators(
    nodes: &mut NodeList<'_>,
    operator: Operator,
    count: usize,
) -> Result<(), AllocError>
    ensures { OnOk result (map placed_node nodes.new.items
        ≡ map placed_node nodes.old.items ++ operators operator count) }
{
    for _i in 0..count {
        put_operator(nodes, operator)?;
    }
    Ok(())
}
