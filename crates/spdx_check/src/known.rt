// What is known of an expression in the lines of a file.

ghost use Rattle.std.specs.Prelude.{◌≡◌, ◌++◌, IfOk, OnOk, option_map};
ghost use Rattle.spdx_check.specs.Checking.{spot_of};
ghost use Rattle.spdx_check.specs.Known.{is_refused, known_text, Tells};
ghost use Rattle.spdx_check.specs.Refusals.{wrong_of};

use crate::check::{finding_at, put_refusal};
use crate::refusals::Refusal;
use finding_forms::{Format, Frame, Place, frame_of};
use std::alloc::{AllocError, Global};

/// An expression's finding in any line of a file, if it has one.
#[derive(Drop)]
pub(crate) enum Known<'c> {
    /// It is accepted.
    Accepted,
    /// The finding's text round the number of its line.
    Framed(Frame),
    /// What is wrong, in the forms that have no frame.
    Refused(Refusal<'c>),
}

/// What there is to know of an expression of that file, of which this was found.
pub(crate) fn known_of<'c>(
    alloc: Global,
    format: Format,
    file: &str,
    found: Option<Refusal<'c>>,
) -> Result<Known<'c>, AllocError>
    ensures { IfOk result (Tells format file.now (option_map wrong_of found.entry)) }
{
    let Some(refusal) = found else {
        return Ok(Known::Accepted);
    };
    let place = Place {
        file,
        line: 1,
        column: 1,
    };
    match frame_of(alloc, format, &finding_at(place, &refusal))? {
        Some(frame) => Ok(Known::Framed(frame)),
        None => Ok(Known::Refused(refusal)),
    }
}

/// Appends what is written of an expression that stands there, and says whether it is refused.
pub(crate) fn put_known<'t>(
    alloc: Global,
    format: Format,
    is_first: bool,
    place: Place<'t>,
    known: &'t Known<'_>,
    text: &mut Vec<u8>,
) -> Result<bool, AllocError>
    ensures text { OnOk result (text.new.items ≡
        text.old.items ++ known_text format is_first (spot_of place.entry) known.now) }
    ensures refuses { IfOk result (λ refused. refused ≡ is_refused known.now) }
{
    match known {
        Known::Accepted => Ok(false),
        Known::Framed(frame) => {
            frame.put(text, place.line)?;
            Ok(true)
        }
        Known::Refused(refusal) => {
            put_refusal(alloc, format, is_first, place, refusal, text)?;
            Ok(true)
        }
    }
}
