// Expressions read from bytes.

ghost use Rattle.std.specs.Prelude.{IfOk, IfErr};
ghost use Rattle.spdx.specs.Meaning.{IsReadFrom};
ghost use Rattle.spdx_calls.specs.Faults.{IsTextFault};

use crate::fault::{CallFault, refused_at};
use spdx::{Catalogue, Expression, Failure, ParseMode};
use std::alloc::Global;

// The expression that the bytes mean.
pub(crate) fn read<'c>(
    alloc: Global,
    catalogue: &'c Catalogue,
    mode: ParseMode,
    text: &[u8],
) -> Result<Expression<'c>, CallFault>
    ensures ok { IfOk result (λ e. IsReadFrom catalogue.now mode text.now e) }
    ensures err { IfErr result (IsTextFault catalogue.now mode text.now) }
{
    let Ok(text) = str::from_utf8(text) else {
        return Err(CallFault::NotText);
    };
    match Expression::parse_mode(alloc, catalogue, text, mode) {
        Ok(expression) => Ok(expression),
        Err(Failure::Refused(error)) => Err(CallFault::Refused(refused_at(&error))),
        Err(Failure::Memory(_)) => Err(CallFault::Memory),
    }
}
