// The requirements of an expression in their order, and how many of them stand before each.

ghost use Rattle.std.specs.Prelude.{◌≡◌, IfOk, map};
ghost use Rattle.std.specs.List.Sorted.{IsPermutation};
ghost use Rattle.spdx_requirement.specs.Items.{requirement_of};
ghost use Rattle.spdx_parser.specs.Tree.{leaves, node_of};
ghost use Rattle.spdx_evaluation.specs.Postfix.{IsPostfix, tree_in};
ghost use Rattle.spdx_meaning.specs.Ranks.{rank_in, AreOrdered};

use spdx_catalogue::LicenseReq;
use spdx_parser::node::ExprNode;
use spdx_requirement::order::compare_requirements;
use std::alloc::{AllocError, Global};

// Copies of the requirements, in their order.
pub(crate) fn in_order<'c>(
    alloc: Global,
    nodes: &[ExprNode<'c>],
) -> Result<Vec<LicenseReq<'c>>, AllocError>
    requires { IsPostfix (map node_of nodes.now) }
    ensures same { IfOk result (λ ordered.
        IsPermutation (leaves (tree_in nodes.now)) (map requirement_of ordered.items)) }
    ensures up { IfOk result (λ ordered. AreOrdered ordered.items) }
{
    let mut ordered = copies_of(alloc, nodes)?;
    ordered.sort_unstable_by(|one, other| compare_requirements(one, other));
    Ok(ordered)
}

// Copies of the requirements, from left to right.
fn copies_of<'c>(alloc: Global, nodes: &[ExprNode<'c>]) -> Result<Vec<LicenseReq<'c>>, AllocError>
    requires { IsPostfix (map node_of nodes.now) }
    ensures { IfOk result (λ copies.
        map requirement_of copies.items ≡ leaves (tree_in nodes.now)) }
{
    let mut copies = Vec::new(alloc);
    for node in nodes {
        if let ExprNode::Req(requirement) = node {
            let copy = requirement.req.try_clone(alloc)?;
            copies.push(copy)?;
        }
    }
    Ok(copies)
}

// How many of the requirements stand before each of them, from left to right, by these that are the same in their order.
pub(crate) fn ranks_of<'c>(
    alloc: Global,
    nodes: &[ExprNode<'c>],
    ordered: &[LicenseReq<'c>],
) -> Result<Vec<usize>, AllocError>
    requires tree { IsPostfix (map node_of nodes.now) }
    requires same { IsPermutation (leaves (tree_in nodes.now)) (map requirement_of ordered.now) }
    requires up { AreOrdered ordered.now }
    ensures { IfOk result (λ ranks.
        ranks.items ≡ map (rank_in (leaves (tree_in nodes.now))) (leaves (tree_in nodes.now))) }
{
    let mut ranks = Vec::new(alloc);
    for node in nodes {
        if let ExprNode::Req(requirement) = node {
            ranks.push(rank_among(ordered, &requirement.req))?;
        }
    }
    Ok(ranks)
}

// How many of some requirements, which are in their order, stand before this one.
fn rank_among<'c>(ordered: &[LicenseReq<'c>], requirement: &LicenseReq<'c>) -> usize
    requires { AreOrdered ordered.now }
    ensures { result ≡ rank_in (map requirement_of ordered.now) (requirement_of requirement.now) }
{
    ordered.partition_point(|other| compare_requirements(other, requirement).is_lt())
}
