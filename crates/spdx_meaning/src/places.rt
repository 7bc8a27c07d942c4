// Requirements as numbers: the places where they first stand among some nodes.

ghost use Rattle.std.specs.Prelude.{◌≡◌, IfOk, List, map};
ghost use Rattle.spdx_requirement.specs.Items.{Requirement, requirement_of};
ghost use Rattle.spdx_parser.specs.Tree.{leaves, node_of};
ghost use Rattle.spdx_evaluation.specs.Postfix.{IsPostfix, tree_in};
ghost use Rattle.spdx_meaning.specs.Places.{place_in};
ghost use Rattle.spdx_meaning.specs.Placed.{numbered, entry_of, placed_cmp, ArePlaced, AreOrdered, IsFirstFrom};

use spdx_catalogue::LicenseReq;
use spdx_parser::node::ExprNode;
use spdx_requirement::equality::are_same_requirement;
use spdx_requirement::order::compare_requirements;
use std::alloc::{AllocError, Global};
use std::cmp::Ordering;

// A requirement, and how many stand before it.
#[derive(Clone, Copy)]
struct Placed<'n, 'c> {
    requirement: &'n LicenseReq<'c>,
    place: usize,
}

// For each requirement among the others its place among the requirements of the nodes, which are sorted for that.
pub(crate) fn places_among<'c>(
    alloc: Global,
    nodes: &[ExprNode<'c>],
    others: &[ExprNode<'c>],
) -> Result<Vec<usize>, AllocError>
    requires tree { IsPostfix (map node_of nodes.now) }
    requires other { IsPostfix (map node_of others.now) }
    ensures { IfOk result (λ places.
        places.items ≡ map (place_in (leaves (tree_in nodes.now))) (leaves (tree_in others.now))) }
{
    let ordered = in_order(alloc, nodes)?;
    let mut places = Vec::new(alloc);
    for node in others {
        if let ExprNode::Req(requirement) = node {
            places.push(place_of(ordered.as_slice(), &requirement.req))?;
        }
    }
    Ok(places)
}

// The requirements in their order, each with its place; of the same ones the first place stands first.
fn in_order<'n, 'c>(
    alloc: Global,
    nodes: &'n [ExprNode<'c>],
) -> Result<Vec<Placed<'n, 'c>>, AllocError>
    requires { IsPostfix (map node_of nodes.now) }
    ensures placed { IfOk result (λ ordered. ArePlaced (leaves (tree_in nodes.now)) ordered.items) }
    ensures up { IfOk result (λ ordered. AreOrdered ordered.items) }
{
    let mut ordered = each_placed(alloc, nodes)?;
    ordered.sort_unstable_by(|one, other| compare(one, other));
    Ok(ordered)
}

// The requirements, from left to right.
fn each_placed<'n, 'c>(
    alloc: Global,
    nodes: &'n [ExprNode<'c>],
) -> Result<Vec<Placed<'n, 'c>>, AllocError>
    requires { IsPostfix (map node_of nodes.now) }
    ensures { IfOk result (λ placed.
        map entry_of placed.items ≡ numbered 0 (leaves (tree_in nodes.now))) }
{
    let mut placed = Vec::new(alloc);
    for node in nodes {
        if let ExprNode::Req(requirement) = node {
            let place = placed.len();
            placed.push(Placed {
                requirement: &requirement.req,
                place,
            })?;
        }
    }
    Ok(placed)
}

// By requirement, then by place.
fn compare(one: &Placed<'_, '_>, other: &Placed<'_, '_>) -> Ordering
    ensures { result ≡ placed_cmp one.now other.now }
{
    compare_requirements(one.requirement, other.requirement).then(one.place.cmp(&other.place))
}

// How many requirements stand before the first that is the same; how many there are, where none is.
fn place_of(ordered: &[Placed<'_, '_>], requirement: &LicenseReq<'_>) -> usize
    requires { AreOrdered ordered.now }
    ensures { (qs : List Requirement) → ArePlaced qs ordered.now →
        result ≡ place_in qs (requirement_of requirement.now) }
{
    match ordered.get(first_from(ordered, requirement)) {
        Some(first) if are_same_requirement(first.requirement, requirement) => first.place,
        _ => ordered.len(),
    }
}

// How many are less than the requirement.
fn first_from(ordered: &[Placed<'_, '_>], requirement: &LicenseReq<'_>) -> usize
    requires { AreOrdered ordered.now }
    ensures { IsFirstFrom ordered.now (requirement_of requirement.now) result }
{
    ordered.partition_point(|other| compare_requirements(other.requirement, requirement).is_lt())
}
