//! The first candidates of requirements.

ghost use Rattle.std.specs.Prelude.{◌≡◌, IfOk, length, map};
ghost use Rattle.spdx_requirement.specs.Items.{requirement_of};
ghost use Rattle.spdx_parser.specs.Tree.{leaves, node_of};
ghost use Rattle.spdx_evaluation.specs.Postfix.{IsPostfix, tree_in};
ghost use Rattle.spdx_why.specs.Least.{first_candidate, firsts_of};
ghost use Rattle.spdx_why.specs.Serving.{lists_in, alone};

use spdx_catalogue::LicenseReq;
use spdx_parser::node::ExprNode;
use spdx_requirement::equality::are_same_requirement;
use std::alloc::{AllocError, Global};

// For each requirement the number of the first candidate that is the same, alone.
pub(crate) fn first_candidates(
    alloc: Global,
    nodes: &[ExprNode<'_>],
    candidates: &[bool],
) -> Result<Vec<Vec<usize>>, AllocError>
    requires tree { IsPostfix (map node_of nodes.now) }
    requires each { length candidates.now ≡ length (leaves (tree_in nodes.now)) }
    ensures { IfOk result (λ serving. lists_in serving.items ≡
        map alone (firsts_of (tree_in nodes.now) candidates.now)) }
{
    let mut serving = Vec::new(alloc);
    for node in nodes {
        if let ExprNode::Req(requirement) = node {
            let first = first_same(nodes, candidates, &requirement.req);
            serving.push(vec![in alloc; first]?)?;
        }
    }
    Ok(serving)
}

// The number of the first candidate that is the same requirement; how many there are, where none is.
fn first_same(nodes: &[ExprNode<'_>], candidates: &[bool], requirement: &LicenseReq<'_>) -> usize
    requires tree { IsPostfix (map node_of nodes.now) }
    requires each { length candidates.now ≡ length (leaves (tree_in nodes.now)) }
    ensures { result ≡ first_candidate (leaves (tree_in nodes.now)) candidates.now
        (requirement_of requirement.now) }
{
    let mut number = 0;
    for node in nodes {
        if let ExprNode::Req(other) = node {
            if candidates[number] && are_same_requirement(&other.req, requirement) {
                return number;
            }
            number += 1;
        }
    }
    number
}
