//! Why a call gives nothing.

ghost use Rattle.std.specs.Prelude.{◌≡◌, IfSome, IsNone, IsSome};
ghost use Rattle.spdx_lexer.specs.Faults.{fault_of, description_text};
ghost use Rattle.spdx_lexer.specs.Words.{Fault};
ghost use Rattle.spdx_calls.specs.Reasons.{IsReasonNumber, number_of, refusal_of};

use spdx_lexer::error::{ParseError, Reason};
use std::alloc::{AllocError, AllocFailed};

/// What is wrong with a text: the bytes from `start` up to `end`, and the number of the reason.
#[derive(Clone, Copy, PartialEq, Eq, Debug)]
pub struct Refusal {
    /// The first byte of the fault.
    pub start: usize,
    /// The byte behind the fault.
    pub end: usize,
    /// From 1 to 12; [`reason_text`] says what it means.
    pub reason: u32,
}

/// Why a call gives nothing.
#[derive(Clone, Copy, PartialEq, Eq, Debug)]
pub enum CallFault {
    /// The text is not UTF-8.
    NotText,
    /// The text is no expression.
    Refused(Refusal),
    /// The second of two texts is not UTF-8.
    OtherNotText,
    /// The second of two texts is no expression.
    OtherRefused(Refusal),
    /// The licensee of this number, counted from 0, is not UTF-8.
    LicenseeNotText(usize),
    /// The licensee of this number, counted from 0, is refused, at these bytes of its line.
    Licensee(usize, Refusal),
    /// Not even all licensees together meet the requirements.
    Unmet,
    /// So many licensees are useful, which is more than 1,024.
    TooMany(usize),
    /// There is not a bit for each requirement: the expression has so many.
    BitCount(usize),
    /// So many sets of requirements are made for a part of an expression, which is more than 4,096.
    TooManySets(usize),
    /// Memory was refused.
    Memory,
}

impl From<AllocError> for CallFault {
    ghost use Rattle.spdx_calls.specs.declared.fault.CallFault.TheVariants.{Memory};

    ghost from_gives = { λ _ fault. fault ≡ Memory };

    fn from(_error: AllocError) -> CallFault {
        CallFault::Memory
    }
}

impl<T: Drop> From<AllocFailed<T>> for CallFault {
    ghost use Rattle.spdx_calls.specs.declared.fault.CallFault.TheVariants.{Memory};

    ghost from_gives = { λ _ fault. fault ≡ Memory };

    fn from(_error: AllocFailed<T>) -> CallFault {
        CallFault::Memory
    }
}

// The number of a reason.
fn reason_number(reason: &Reason) -> u32
    ensures { result ≡ number_of (fault_of reason.now) }
{
    match reason {
        Reason::UnknownLicense => 1,
        Reason::UnknownException => 2,
        Reason::InvalidCharacters => 3,
        Reason::UnclosedParens => 4,
        Reason::UnopenedParens => 5,
        Reason::Empty => 6,
        Reason::Unexpected(_) => 7,
        Reason::SeparatedPlus => 8,
        Reason::UnknownTerm => 9,
        Reason::GnuNoPlus => 10,
        Reason::GnuPlusWithSuffix => 11,
        Reason::DeprecatedLicenseId => 12,
    }
}

/// What the reason of this number says, apart from the words that were expected. `None` where no fault has the number.
pub fn reason_text(number: u32) -> Option<&'static str>
    ensures known { IsSome result → IsReasonNumber number }
    ensures some { IfSome result (λ text. (fault : Fault) → number_of fault ≡ number →
        text.now ≡ description_text fault) }
    ensures none { IsNone result → (fault : Fault) → number_of fault ≡ number → ⊥ }
{
    let reason = match number {
        1 => Reason::UnknownLicense,
        2 => Reason::UnknownException,
        3 => Reason::InvalidCharacters,
        4 => Reason::UnclosedParens,
        5 => Reason::UnopenedParens,
        6 => Reason::Empty,
        7 => Reason::Unexpected(&[]),
        8 => Reason::SeparatedPlus,
        9 => Reason::UnknownTerm,
        10 => Reason::GnuNoPlus,
        11 => Reason::GnuPlusWithSuffix,
        12 => Reason::DeprecatedLicenseId,
        _ => return None,
    };
    Some(reason.description())
}

// The place and the reason of an error.
pub(crate) fn refused_at(error: &ParseError<'_>) -> Refusal
    ensures { result ≡ refusal_of error.now }
{
    Refusal {
        start: error.span.start,
        end: error.span.end,
        reason: reason_number(&error.reason),
    }
}
