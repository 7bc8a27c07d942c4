// The fewest requirements that tell two expressions apart.

ghost use Rattle.std.specs.Prelude.{◌≡◌, ◌++◌, IfOk, OnOk, flat_map, map, string_bytes};
ghost use Rattle.spdx_requirement.specs.Items.{requirement_of};
ghost use Rattle.spdx_parser.specs.Tree.{leaves, node_of};
ghost use Rattle.spdx_evaluation.specs.Postfix.{IsPostfix, tree_in};
ghost use Rattle.selections.specs.Sets.{sets_in};
ghost use Rattle.spdx_meaning.specs.Minimal.{AreMinimalSets};
ghost use Rattle.spdx_meaning.specs.Apart.{IsAlone, name_at};
ghost use Rattle.spdx_meaning.specs.Comparing.{told_names};

use crate::asks::first_unmet;
use spdx_catalogue::LicenseReq;
use spdx_parser::node::ExprNode;
use std::alloc::{AllocError, Global};

// The names of the fewest requirements with which alone the one holds and the other one doesn't, by the minimal sets of the
// one.
pub(crate) fn fewest_apart<'c>(
    alloc: Global,
    one: &[ExprNode<'c>],
    other: &[ExprNode<'c>],
    sets: &[Vec<usize>],
) -> Result<Option<Vec<String>>, AllocError>
    requires tree { IsPostfix (map node_of one.now) }
    requires other { IsPostfix (map node_of other.now) }
    requires minimal { AreMinimalSets (tree_in one.now) (sets_in sets.now) }
    ensures { IfOk result (λ found.
        IsAlone (tree_in one.now) (tree_in other.now) (told_names found)) }
{
    match first_unmet(alloc, one, other, sets)? {
        Some(places) => Ok(Some(names_at(alloc, one, places)?)),
        None => Ok(None),
    }
}

// The names of the requirements at places.
fn names_at(
    alloc: Global,
    nodes: &[ExprNode<'_>],
    places: &[usize],
) -> Result<Vec<String>, AllocError>
    requires { IsPostfix (map node_of nodes.now) }
    ensures { IfOk result (λ names. map string_bytes names.items
        ≡ flat_map (name_at (leaves (tree_in nodes.now))) places.now) }
{
    let requirements = copies_of(alloc, nodes)?;
    let mut names = Vec::new(alloc);
    for place in places {
        push_name(alloc, &mut names, &requirements, *place)?;
    }
    Ok(names)
}

// Appends the name of the requirement at the place, where there is one.
fn push_name(
    alloc: Global,
    names: &mut Vec<String>,
    requirements: &[LicenseReq<'_>],
    place: usize,
) -> Result<(), AllocError>
    ensures { OnOk result (map string_bytes names.new.items ≡ map string_bytes names.old.items
        ++ name_at (map requirement_of requirements.now) place) }
{
    let Some(requirement) = requirements.get(place) else {
        return Ok(());
    };
    let name = format!(in alloc; "{}", requirement)?;
    names.push(name)?;
    Ok(())
}

// Copies of the requirements, from left to right.
fn copies_of<'c>(alloc: Global, nodes: &[ExprNode<'c>]) -> Result<Vec<LicenseReq<'c>>, AllocError>
    requires { IsPostfix (map node_of nodes.now) }
    ensures { IfOk result (λ copies.
        map requirement_of copies.items ≡ leaves (tree_in nodes.now)) }
{
    let mut copies = Vec::new(alloc);
    for node in nodes {
        if let ExprNode::Req(requirement) = node {
            let copy = requirement.req.try_clone(alloc)?;
            copies.push(copy)?;
        }
    }
    Ok(copies)
}
