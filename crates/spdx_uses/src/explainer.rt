//! A tool that explains a policy.

ghost use Rattle.std.specs.Prelude.{◌≡◌, IfOk, map};
ghost use Rattle.spdx.specs.LexerCode.{span_of};
ghost use Rattle.spdx.specs.Value.{nows};
ghost use Rattle.spdx_uses.specs.Policy.{explained};

use crate::gate::is_accepted;
use spdx::expression::ExpressionReq;
use spdx::{Expression, Failure, LicenseReq, Licensee};
use std::alloc::{AllocError, Global};
use std::ops::Range;

/// The places, in bytes of the text, of the licences for which it may not be used; none where it may.
pub fn refused_places(
    alloc: Global,
    accepted: &[Licensee<'_>],
    expression: &Expression<'_>,
) -> Result<Vec<Range<usize>>, AllocError>
    ensures { IfOk result (λ places.
        map span_of places.items ≡ explained accepted.now expression.now) }
{
    let mut policy = |req: &LicenseReq<'_>| is_accepted(accepted, req);
    match expression.evaluate_with_failures(alloc, &mut policy) {
        Ok(()) => Ok(Vec::new(alloc)),
        Err(Failure::Refused(refused)) => places_of(alloc, refused),
        Err(Failure::Memory(error)) => Err(error),
    }
}

// The places of these requirements.
fn places_of(
    alloc: Global,
    refused: Vec<&ExpressionReq<'_>>,
) -> Result<Vec<Range<usize>>, AllocError>
    ensures { IfOk result (λ places.
        map span_of places.items ≡ map (λ r. span_of r.span) (nows refused.entry.items)) }
{
    let mut places = Vec::new(alloc);
    for i in 0..refused.len() {
        places.push(refused[i].span.start..refused[i].span.end)?;
    }
    Ok(places)
}
