//! The licensees among which the choice is.

ghost use Rattle.std.specs.Prelude.{◌≡◌, false, map, IfOk};
ghost use Rattle.std.specs.List.{list_any};
ghost use Rattle.spdx_parser.specs.Tree.{leaves, node_of};
ghost use Rattle.spdx_requirement.specs.Equality.{same_requirement};
ghost use Rattle.spdx_requirement.specs.Items.{license_of, requirement_of};
ghost use Rattle.spdx_licensee.specs.Satisfies as spec;
ghost use Rattle.spdx_evaluation.specs.Postfix.{IsPostfix, tree_in};
ghost use Rattle.spdx_evaluation.specs.Requirements.{nows};
ghost use Rattle.spdx_minimize.specs.Choice.{satisfies_some, useful};
ghost use Rattle.spdx_minimize.specs.Trees.{trees_in};

use crate::nodes::TreeNodes;
use spdx_catalogue::{LicenseItem, LicenseReq};
use spdx_licensee::Licensee;
use spdx_parser::node::ExprNode;
use std::alloc::{AllocError, Global};

// The useful ones of these licensees. Only a useful one is compared with those before it.
pub(crate) fn useful_members<'a, 'c>(
    alloc: Global,
    lists: &[TreeNodes<'_, '_>],
    accepted: &'a [Licensee<'c>],
) -> Result<Vec<&'a Licensee<'c>>, AllocError>
    ensures { IfOk result (λ members.
        nows members.items ≡ useful (trees_in lists.now) accepted.now) }
{
    let mut members = Vec::new(alloc);
    for place in 0..accepted.len() {
        let licensee = &accepted[place];
        if is_useful(licensee, lists) && !is_among(licensee, &accepted[..place]) {
            members.push(licensee)?;
        }
    }
    Ok(members)
}

// Whether one of these is the same licensee.
pub(crate) fn is_among(licensee: &Licensee<'_>, others: &[Licensee<'_>]) -> bool
    ensures { result ≡ list_any (λ b. same_requirement b licensee.now) others.now }
{
    others.iter().any(|other| other == licensee)
}

// Whether the licensee satisfies a requirement of some expression.
fn is_useful(licensee: &Licensee<'_>, lists: &[TreeNodes<'_, '_>]) -> bool
    ensures { result ≡ satisfies_some (trees_in lists.now) licensee.now }
{
    for list in lists {
        if satisfies_one(licensee, list.nodes) {
            return true;
        }
    }
    false
}

// Whether the licensee satisfies a requirement among the nodes.
fn satisfies_one(licensee: &Licensee<'_>, nodes: &[ExprNode<'_>]) -> bool
    requires { IsPostfix (map node_of nodes.now) }
    ensures { result ≡ list_any (spec.satisfies licensee.now) (leaves (tree_in nodes.now)) }
{
    for node in nodes {
        if let ExprNode::Req(requirement) = node
            && satisfies(licensee, &requirement.req)
        {
            return true;
        }
    }
    false
}

// Whether the licensee satisfies the requirement. Of most pairs the rows alone say that it does not, so that a pair costs
// no call.
#[inline(always)]
pub(crate) fn satisfies(licensee: &Licensee<'_>, requirement: &LicenseReq<'_>) -> bool
    ensures { result ≡ spec.satisfies licensee.now (requirement_of requirement.now) }
{
    may_cover(&licensee.req().license, &requirement.license) && licensee.satisfies(requirement)
}

// Whether the licence that is held may cover the required one: where both are listed, another one can only where later
// versions are meant.
#[inline(always)]
fn may_cover(held: &LicenseItem<'_>, required: &LicenseItem<'_>) -> bool
    ensures { result ≡ false →
        spec.covers (license_of held.now) (license_of required.now) ≡ false }
{
    match (held, required) {
        (
            LicenseItem::Spdx { id: held, .. },
            LicenseItem::Spdx {
                id: required,
                or_later,
            },
        ) => {
            held == required
                || *or_later
                || required.is_gnu() && required.license().name.as_bytes().ends_with(b"-or-later")
        }
        (LicenseItem::Other(_), LicenseItem::Other(_)) => true,
        _ => false,
    }
}
