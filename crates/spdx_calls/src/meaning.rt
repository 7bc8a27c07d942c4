//! What expressions mean, and how what two of them ask compares.

ghost use Rattle.std.specs.Prelude.{◌≡◌, ◌↔◌, IsTrue, OnErr, IfOk, IfErr};
ghost use Rattle.spdx.specs.Meaning.{IsReadFrom};
ghost use Rattle.spdx_meaning.specs.Meaning.{AsksAtLeast};
ghost use Rattle.spdx_meaning.specs.Relations.{IsRelation};
ghost use Rattle.spdx_calls.specs.Meanings.{PutsMeaning, IsMeaningFault, IsCompared, IsComparisonFault, IsOtherFault, IsFaultOfTree, IsFaultOfTrees};

use crate::buffer::{Put, put_text};
use crate::fault::CallFault;
use crate::reading::read;
use spdx::{Catalogue, Expression, Failure, ParseMode};
use spdx_meaning::{Relation, relation_of};
use std::alloc::Global;

/// Puts the meaning text of an expression that this mode reads into the buffer: its least sets of requirements, those of
/// each joined by ` AND `, and the sets by ` OR `. Of expressions that are read strictly, two have the same meaning text
/// exactly if they are equivalent.
///
/// # Errors
///
/// Those of `check`; else `TooManySets`. Nothing is written then.
pub fn simplify(
    alloc: Global,
    catalogue: &Catalogue,
    mode: ParseMode,
    text: &[u8],
    out: &mut [u8],
) -> Result<Put, CallFault>
    ensures ok { IfOk result (PutsMeaning catalogue.now mode text.now out.old out.new) }
    ensures err { IfErr result (IsMeaningFault catalogue.now mode text.now) }
    ensures unwritten { OnErr result (out.new ≡ out.old) }
{
    let expression = read(alloc, catalogue, mode, text)?;
    match expression.meaning_text(alloc) {
        Ok(meaning) => Ok(put_text(meaning.as_bytes(), out)),
        Err(Failure::Refused(many)) => Err(CallFault::TooManySets(many.0)),
        Err(Failure::Memory(_)) => Err(CallFault::Memory),
    }
}

/// How what the one expression asks compares with what the other one asks. Both are read in this mode.
///
/// # Errors
///
/// Those of `check` of the one; else `OtherNotText` or `OtherRefused` with the first fault of the other one; else
/// `TooManySets` of one of them.
pub fn compare(
    alloc: Global,
    catalogue: &Catalogue,
    mode: ParseMode,
    one: &[u8],
    other: &[u8],
) -> Result<Relation, CallFault>
    ensures ok { IfOk result (IsCompared catalogue.now mode one.now other.now) }
    ensures err { IfErr result (IsComparisonFault catalogue.now mode one.now other.now) }
{
    let first = read(alloc, catalogue, mode, one)?;
    let second = read_other(alloc, catalogue, mode, other)?;
    relation_between(alloc, &first, &second)
}

// The expression that the second of two texts means.
fn read_other<'c>(
    alloc: Global,
    catalogue: &'c Catalogue,
    mode: ParseMode,
    text: &[u8],
) -> Result<Expression<'c>, CallFault>
    ensures ok { IfOk result (λ e. IsReadFrom catalogue.now mode text.now e) }
    ensures err { IfErr result (IsOtherFault catalogue.now mode text.now) }
{
    match read(alloc, catalogue, mode, text) {
        Ok(expression) => Ok(expression),
        Err(CallFault::NotText) => Err(CallFault::OtherNotText),
        Err(CallFault::Refused(refusal)) => Err(CallFault::OtherRefused(refusal)),
        Err(_) => Err(CallFault::Memory),
    }
}

fn relation_between<'c>(
    alloc: Global,
    one: &Expression<'c>,
    other: &Expression<'c>,
) -> Result<Relation, CallFault>
    ensures ok { IfOk result (IsRelation one.now.tree other.now.tree) }
    ensures err { IfErr result (IsFaultOfTrees one.now.tree other.now.tree) }
{
    let forth = asks_at_least(alloc, one, other)?;
    let back = asks_at_least(alloc, other, one)?;
    Ok(relation_of(forth, back))
}

fn asks_at_least<'c>(
    alloc: Global,
    one: &Expression<'c>,
    other: &Expression<'c>,
) -> Result<bool, CallFault>
    ensures ok { IfOk result (λ asks. IsTrue asks ↔ AsksAtLeast one.now.tree other.now.tree) }
    ensures err { IfErr result (IsFaultOfTree one.now.tree) }
{
    match one.asks_at_least(alloc, other) {
        Ok(asks) => Ok(asks),
        Err(Failure::Refused(many)) => Err(CallFault::TooManySets(many.0)),
        Err(Failure::Memory(_)) => Err(CallFault::Memory),
    }
}
