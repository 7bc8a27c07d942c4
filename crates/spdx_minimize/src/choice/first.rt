//! The choice for an expression of one requirement.

ghost use Rattle.std.specs.Prelude.{◌≡◌, ◌≤◌, [], ◌∷◌, true, length, map, take, IfOk, IfErr, IfSome};
ghost use Rattle.spdx_requirement.specs.Failures.{IfRefused};
ghost use Rattle.spdx_requirement.specs.Items.{requirement_of};
ghost use Rattle.spdx_parser.specs.Tree.{Leaf};
ghost use Rattle.spdx_licensee.specs.Satisfies as spec;
ghost use Rattle.spdx_minimize.specs.Choice.{useful, chosen, choice_of, IsLeastChoice};
ghost use Rattle.spdx_minimize.specs.MinimizeFaults.{refused_choice};

use crate::minimize_error::MinimizeError;
use crate::useful::{is_among, satisfies};
use spdx_catalogue::{Failure, LicenseReq};
use spdx_licensee::Licensee;
use std::alloc::Global;

// The choice for one requirement is the first licensee that satisfies it, so that nothing but the answer takes memory.
pub(crate) fn choice_for_one<'c>(
    alloc: Global,
    requirement: &LicenseReq<'_>,
    accepted: &[Licensee<'c>],
) -> Result<Vec<LicenseReq<'c>>, Failure<MinimizeError>>
    requires { length accepted.now ≤ 1024 }
    ensures ok { IfOk result (λ reqs.
        choice_of (Leaf (requirement_of requirement.now) ∷ []) accepted.now
        ≡ chosen (map requirement_of reqs.items)) }
    ensures err { IfErr result (IfRefused (λ e.
        choice_of (Leaf (requirement_of requirement.now) ∷ []) accepted.now
        ≡ refused_choice e)) }
    ensures least { IfOk result (λ reqs.
        let trees = Leaf (requirement_of requirement.now) ∷ [] in
        IsLeastChoice trees (useful trees accepted.now) (map requirement_of reqs.items)) }
{
    let Some(first) = first_useful(requirement, accepted) else {
        return Err(Failure::Refused(MinimizeError::RequirementsUnmet));
    };
    let copy = first.req().try_clone(alloc)?;
    let mut requirements = Vec::with_capacity(alloc, 1)?;
    requirements.push_reserved(copy);
    Ok(requirements)
}

// The first of these licensees that satisfies the requirement.
fn first_useful<'a, 'c>(
    requirement: &LicenseReq<'_>,
    accepted: &'a [Licensee<'c>],
) -> Option<&'a Licensee<'c>>
    ensures none { result ≡ None →
        useful (Leaf (requirement_of requirement.now) ∷ []) accepted.now ≡ [] }
    ensures first { IfSome result (λ licensee.
        take 1 (useful (Leaf (requirement_of requirement.now) ∷ []) accepted.now)
        ≡ licensee.now ∷ []) }
    ensures satisfies { IfSome result (λ licensee.
        spec.satisfies licensee.now (requirement_of requirement.now) ≡ true) }
{
    for place in 0..accepted.len() {
        let licensee = &accepted[place];
        if satisfies(licensee, requirement) && !is_among(licensee, &accepted[..place]) {
            return Some(licensee);
        }
    }
    None
}
