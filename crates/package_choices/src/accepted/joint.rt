// One choice for all of some expressions, and what each of them stands under.

ghost use Rattle.std.specs.Prelude.{◌≡◌, IfOk, IfErr, map};
ghost use Rattle.std.specs.List.{list_any};
ghost use Rattle.spdx_requirement.specs.Equality.{same_requirement};
ghost use Rattle.spdx_requirement.specs.Failures.{IfRefused};
ghost use Rattle.spdx_requirement.specs.Items.{requirement_of};
ghost use Rattle.spdx_minimize.specs.Choice.{choice_of};
ghost use Rattle.spdx_minimize.specs.MinimizeFaults.{refused_choice};
ghost use Rattle.spdx.specs.Value.{trees_of};
ghost use Rattle.package_choices.specs.Accepted.{IsJoint, held, those_in};
ghost use Rattle.package_choices.specs.Refusals.{TellsJoint};

use crate::accepted::choices::own_choices;
use crate::accepted::unmet::Unmet;
use spdx::{Expression, Failure, LicenseReq, Licensee, MinimizeError, minimized_for_all};
use spdx_requirement::equality::are_same_requirement;
use std::alloc::{AllocError, Global};

/// For each of the expressions, in their order, its own least choice among those of `accepted` that are in one choice
/// for all of them, that of `minimized_for_all`. So no package stands under a licence outside of the one choice, nor
/// under one that it does not need.
///
/// # Errors
///
/// [`Unmet::Expression`] of the first expression that has no choice of its own; where each has one,
/// [`Unmet::Together`]. Or memory was refused.
pub fn joint_choices<'a, 'c: 'a>(
    alloc: Global,
    expressions: &[&'a Expression<'c>],
    accepted: &'a [Licensee<'c>],
) -> Result<Vec<Vec<LicenseReq<'c>>>, Failure<Unmet>>
    ensures ok { IfOk result (λ choices.
        IsJoint accepted.now (trees_of expressions.now) (held choices.items)) }
    ensures err { IfErr result (IfRefused (TellsJoint accepted.now (trees_of expressions.now))) }
{
    match minimized_for_all(alloc, expressions, accepted) {
        Ok(joint) => {
            let members = members_in(alloc, joint.as_slice(), &*accepted)?;
            own_choices(alloc, &*expressions, members.as_slice())
        }
        Err(Failure::Refused(error)) => Err(blamed(alloc, &*expressions, &*accepted, error)),
        Err(Failure::Memory(error)) => Err(Failure::Memory(error)),
    }
}

// Why there is no choice for all of the expressions: the first that has none of its own; or none is to blame.
fn blamed<'c>(
    alloc: Global,
    expressions: &[&Expression<'c>],
    accepted: &[Licensee<'c>],
    error: MinimizeError,
) -> Failure<Unmet>
    requires { choice_of (trees_of expressions.now) accepted.now ≡ refused_choice error }
    ensures { IfRefused (TellsJoint accepted.now (trees_of expressions.now)) result }
{
    match own_choices(alloc, expressions, accepted) {
        Ok(_) => Failure::Refused(Unmet::Together(error)),
        Err(failure) => failure,
    }
}

// The licensees that are among some requirements, in their order.
fn members_in<'c>(
    alloc: Global,
    some: &[LicenseReq<'c>],
    accepted: &[Licensee<'c>],
) -> Result<Vec<Licensee<'c>>, AllocError>
    ensures { IfOk result (λ members.
        members.items ≡ those_in (map requirement_of some.now) accepted.now) }
{
    let mut members = Vec::new(alloc);
    for licensee in accepted {
        if is_in(some, licensee) {
            members.push(licensee.try_clone(alloc)?)?;
        }
    }
    Ok(members)
}

// Whether the licensee is one of some requirements.
fn is_in(some: &[LicenseReq<'_>], licensee: &Licensee<'_>) -> bool
    ensures { result ≡ list_any (λ r. same_requirement (requirement_of r) licensee.now) some.now }
{
    let requirement = licensee.req();
    some.iter()
        .any(|one| are_same_requirement(one, requirement))
}
