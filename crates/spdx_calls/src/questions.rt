//! Whether a text is an expression, whether licensees meet it, which of them it takes, and what the list says of a name.

ghost use Rattle.std.specs.Prelude.{◌≡◌, ◌++◌, [], OnOk, OnErr, IfOk, IfErr, map};
ghost use Rattle.spdx_calls.specs.Faults.{IsTextFault, IsNameFault};
ghost use Rattle.spdx_calls.specs.Questions.{IsQuestionFault, IsChoiceFault};
ghost use Rattle.spdx_calls.specs.Answers as spec;
ghost use Rattle.spdx_calls.specs.Answers.{Reads, IsTruth, IsListing, PutsChoice, lines_text};
ghost use Rattle.spdx_requirement.specs.Items.{requirement_of};
ghost use Rattle.spdx_requirement.specs.Texts.{requirement_text};

use crate::buffer::{Put, put_text};
use crate::fault::CallFault;
use crate::licensees::{is_accepted, read_licensees};
use crate::listing::requirement_lines;
use crate::reading::read;
use spdx::{Catalogue, Failure, LicenseReq, MinimizeError, ParseMode};
use std::alloc::Global;

/// What a list says of a name.
#[derive(Clone, Copy, PartialEq, Eq, Debug)]
pub enum Listing {
    /// It has no such name.
    Unlisted,
    /// It has the name, which isn't deprecated.
    Current,
    /// It has the name, which is deprecated.
    Deprecated,
}

/// What the list says of a name, the case of ASCII letters aside: of the licence of that name, else of the exception.
/// Takes the time of two look-ups, and no memory.
///
/// # Errors
///
/// `NotText`.
pub fn listed(catalogue: &Catalogue, name: &[u8]) -> Result<Listing, CallFault>
    ensures ok { IfOk result (IsListing catalogue.now name.now) }
    ensures err { IfErr result (IsNameFault name.now) }
{
    match str::from_utf8(name) {
        Ok(name) => Ok(listing_of(catalogue, name)),
        Err(_) => Err(CallFault::NotText),
    }
}

fn listing_of(catalogue: &Catalogue, name: &str) -> Listing
    ensures { result ≡ spec.listing_of catalogue.now name.now }
{
    if let Some(id) = catalogue.license_id_caseless(name) {
        return listing_by(id.is_deprecated());
    }
    match catalogue.exception_id_caseless(name) {
        Some(id) => listing_by(id.is_deprecated()),
        None => Listing::Unlisted,
    }
}

fn listing_by(is_deprecated: bool) -> Listing
    ensures { result ≡ spec.listing_by is_deprecated }
{
    if is_deprecated {
        Listing::Deprecated
    } else {
        Listing::Current
    }
}

/// Whether the text is an expression in this mode. Linear in the text, besides the look-up of each name.
///
/// # Errors
///
/// `NotText`, `Refused` with the first fault, or `Memory`.
pub fn check(
    alloc: Global,
    catalogue: &Catalogue,
    mode: ParseMode,
    text: &[u8],
) -> Result<(), CallFault>
    ensures ok { OnOk result (Reads catalogue.now mode text.now) }
    ensures err { IfErr result (IsTextFault catalogue.now mode text.now) }
{
    read(alloc, catalogue, mode, text)?;
    Ok(())
}

/// Whether those who hold these licences, one on each line, may use what comes under the expression: its truth where a
/// requirement is met exactly if some licensee satisfies it.
///
/// # Errors
///
/// Those of `check`; else the first licensee that is refused.
pub fn evaluate(
    alloc: Global,
    catalogue: &Catalogue,
    mode: ParseMode,
    text: &[u8],
    licensees: &[u8],
) -> Result<bool, CallFault>
    ensures ok { IfOk result (IsTruth catalogue.now mode text.now licensees.now) }
    ensures err { IfErr result (IsQuestionFault catalogue.now mode text.now licensees.now) }
{
    let expression = read(alloc, catalogue, mode, text)?;
    let accepted = read_licensees(alloc, catalogue, licensees)?;
    let mut policy = |req: &LicenseReq<'_>| is_accepted(&accepted, req);
    match expression.evaluate(alloc, &mut policy) {
        Ok(truth) => Ok(truth),
        Err(_) => Err(CallFault::Memory),
    }
}

/// Puts the requirements of the least choice among the licensees that makes the expression true, each with a newline
/// behind it, into the buffer.
///
/// # Errors
///
/// Those of `evaluate`; else `TooMany` or `Unmet`. Nothing is written then.
pub fn choose(
    alloc: Global,
    catalogue: &Catalogue,
    mode: ParseMode,
    text: &[u8],
    licensees: &[u8],
    out: &mut [u8],
) -> Result<Put, CallFault>
    ensures ok { IfOk result (
        PutsChoice catalogue.now mode text.now licensees.now out.old out.new) }
    ensures err { IfErr result (IsChoiceFault catalogue.now mode text.now licensees.now) }
    ensures unwritten { OnErr result (out.new ≡ out.old) }
{
    let expression = read(alloc, catalogue, mode, text)?;
    let accepted = read_licensees(alloc, catalogue, licensees)?;
    match expression.minimized_requirements(alloc, &accepted) {
        Ok(chosen) => {
            let lines = requirement_lines(alloc, &chosen)?;
            Ok(put_text(&lines, out))
        }
        Err(Failure::Refused(MinimizeError::RequirementsUnmet)) => Err(CallFault::Unmet),
        Err(Failure::Refused(MinimizeError::TooManyRequirements(count))) => {
            Err(CallFault::TooMany(count))
        }
        Err(Failure::Memory(_)) => Err(CallFault::Memory),
    }
}
