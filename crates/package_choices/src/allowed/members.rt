//! The requirements among which the choice is.

ghost use Rattle.std.specs.Prelude.{◌≡◌, ◌∷◌, [], IfOk, map};
ghost use Rattle.std.specs.List.{list_any};
ghost use Rattle.spdx_requirement.specs.Equality.{same_requirement};
ghost use Rattle.spdx_requirement.specs.Items.{requirement_of};
ghost use Rattle.package_choices.specs.Choice as spec;
ghost use Rattle.package_choices.specs.Choice.{offer_of, allowed_of};
ghost use Rattle.package_choices.specs.Members.{shown, grown};

use crate::allowed::offer::Offer;
use spdx_catalogue::LicenseReq;
use spdx_parser::node::ExprNode;
use spdx_requirement::equality::are_same_requirement;
use std::alloc::{AllocError, Global};

// The distinct requirements that some of the offers allow, at first occurrence.
pub(crate) fn members_of<'c>(
    alloc: Global,
    offers: &[Offer<'_, 'c>],
) -> Result<Vec<LicenseReq<'c>>, AllocError>
    ensures { IfOk result (λ members.
        shown members.items ≡ spec.members_of (map offer_of offers.now)) }
{
    let mut members = Vec::new(alloc);
    for offer in offers {
        put_allowed(alloc, &mut members, offer)?;
    }
    Ok(members)
}

// The allowed requirements of the offer that are none of the members yet stand behind them.
fn put_allowed<'c>(
    alloc: Global,
    members: &mut Vec<LicenseReq<'c>>,
    offer: &Offer<'_, 'c>,
) -> Result<(), AllocError>
    ensures { IfOk result (λ _. shown members.new.items ≡
        grown (shown members.old.items) (allowed_of (offer_of offer.now))) }
{
    let allowed = offer.allowed.as_slice();
    let mut number = 0;
    for node in offer.nodes {
        if let ExprNode::Req(requirement) = node {
            if allowed[number] {
                put_new(alloc, members, &requirement.req)?;
            }
            number += 1;
        }
    }
    Ok(())
}

// The requirement stands behind the members, if it is none of them yet.
fn put_new<'c>(
    alloc: Global,
    members: &mut Vec<LicenseReq<'c>>,
    requirement: &LicenseReq<'c>,
) -> Result<(), AllocError>
    ensures { IfOk result (λ _. shown members.new.items ≡
        grown (shown members.old.items) (requirement_of requirement.now ∷ [])) }
{
    if !is_among(requirement, members.as_slice()) {
        members.push(requirement.try_clone(alloc)?)?;
    }
    Ok(())
}

// Whether one of these is the same requirement.
fn is_among(requirement: &LicenseReq<'_>, others: &[LicenseReq<'_>]) -> bool
    ensures { result ≡ list_any
        (λ b. same_requirement (requirement_of b) (requirement_of requirement.now)) others.now }
{
    others
        .iter()
        .any(|other| are_same_requirement(other, requirement))
}
