// The least choice of each of some expressions.

ghost use Rattle.std.specs.Prelude.{◌≡◌, IfOk, IfErr, map};
ghost use Rattle.spdx_requirement.specs.Failures.{IfRefused};
ghost use Rattle.spdx_minimize.specs.Choice.{chosen};
ghost use Rattle.spdx.specs.Value.{trees_of};
ghost use Rattle.package_choices.specs.Accepted.{own_choice, held};
ghost use Rattle.package_choices.specs.Refusals.{TellsOwn};

use crate::accepted::unmet::Unmet;
use spdx::{Expression, Failure, LicenseReq, Licensee};
use std::alloc::Global;

/// For each of the expressions its own least choice among `accepted`, that of `minimized_requirements`, in the order
/// of the expressions.
///
/// # Errors
///
/// [`Unmet::Expression`] of the first expression that has none. Or memory was refused.
pub fn own_choices<'c>(
    alloc: Global,
    expressions: &[&Expression<'c>],
    accepted: &[Licensee<'c>],
) -> Result<Vec<Vec<LicenseReq<'c>>>, Failure<Unmet>>
    ensures ok { IfOk result (λ choices.
        map (own_choice accepted.now) (trees_of expressions.now)
        ≡ map chosen (held choices.items)) }
    ensures err { IfErr result (IfRefused (TellsOwn accepted.now (trees_of expressions.now))) }
{
    let mut choices = Vec::with_capacity(alloc, expressions.len())?;
    for (place, expression) in expressions.iter().enumerate() {
        match (&**expression).minimized_requirements(alloc, &*accepted) {
            Ok(choice) => choices.push(choice)?,
            Err(Failure::Refused(error)) => {
                return Err(Failure::Refused(Unmet::Expression { place, error }));
            }
            Err(Failure::Memory(error)) => return Err(Failure::Memory(error)),
        }
    }
    Ok(choices)
}
