//! The truth of an expression by a bit for each of its requirements.

ghost use Rattle.std.specs.Prelude.{◌≡◌, ◌+◌, ◌<◌, ◌^◌, IfOk, IfErr};
ghost use Rattle.spdx_calls.specs.Bits as spec;
ghost use Rattle.spdx_calls.specs.Bits.{IsTruthByBits, IsBitsFault};

use crate::fault::CallFault;
use crate::reading::read;
use spdx::{Catalogue, LicenseReq, ParseMode};
use std::alloc::Global;

/// Whether the expression is true where it is told of each requirement, from left to right, whether it is met: bit `i` of
/// the bytes, the lowest of a byte first, speaks of requirement `i`. A bit behind the bytes isn't set.
///
/// # Errors
///
/// Those of `check`; else `BitCount`, where `count` is not the number of the requirements.
pub fn evaluate_bits(
    alloc: Global,
    catalogue: &Catalogue,
    mode: ParseMode,
    text: &[u8],
    bits: &[u8],
    count: usize,
) -> Result<bool, CallFault>
    ensures ok { IfOk result (IsTruthByBits catalogue.now mode text.now bits.now count) }
    ensures err { IfErr result (IsBitsFault catalogue.now mode text.now count) }
{
    let expression = read(alloc, catalogue, mode, text)?;
    let wanted = expression.requirements().count();
    if count != wanted {
        return Err(CallFault::BitCount(wanted));
    }
    let mut number = 0usize;
    let mut next = |_: &LicenseReq<'_>|
        ensures met { result ≡ spec.is_set bits.entry.now number.entry }
        ensures same { bits.exit ≡ bits.entry }
        ensures next { number.entry + 1 < 2 ^ 64 → number.exit ≡ number.entry + 1 }
    {
        let met = is_set(bits, number);
        number = number.saturating_add(1);
        met
    };
    match expression.evaluate(alloc, &mut next) {
        Ok(truth) => Ok(truth),
        Err(_) => Err(CallFault::Memory),
    }
}

fn is_set(bits: &[u8], number: usize) -> bool
    ensures { result ≡ spec.is_set bits.now number }
{
    match bits.get(number / 8) {
        Some(byte) => (byte >> (number % 8)) & 1 == 1,
        None => false,
    }
}
