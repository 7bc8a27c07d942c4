//! Answers as numbers.

ghost use Rattle.std.specs.Prelude.{◌≡◌};
ghost use Rattle.spdx_c.specs.Reports as spec;

use spdx_calls::{Answered, CallFault, Listing, Put, Refusal};
use spdx_meaning::Relation;

/// What was asked is so, and what was to be written is.
pub const OK: u32 = 0;
/// The text is no expression.
pub const REFUSED: u32 = 1;
/// The text is not UTF-8.
pub const NOT_TEXT: u32 = 2;
/// A licensee is refused.
pub const LICENSEE: u32 = 3;
/// A licensee is not UTF-8.
pub const LICENSEE_NOT_TEXT: u32 = 4;
/// The expression is false, or not even all licensees make it true.
pub const UNMET: u32 = 5;
/// Too many licensees are useful.
pub const TOO_MANY: u32 = 6;
/// The text has no fix.
pub const NO_FIX: u32 = 7;
/// The buffer is too short.
pub const SHORT: u32 = 8;
/// A number that means nothing, a null pointer, or a wrong number of bits.
pub const ARGUMENT: u32 = 9;
/// The bytes are no list.
pub const LIST: u32 = 10;
/// Memory was refused.
pub const MEMORY: u32 = 11;
/// Too many sets of requirements are made of an expression.
pub const TOO_MANY_SETS: u32 = 12;

/// What a call answers. A number that the status does not speak of is 0.
#[repr(C)]
#[derive(Clone, Copy, PartialEq, Eq, Debug)]
pub struct Report {
    /// One of the constants.
    pub status: u32,
    /// The number of the reason, at `REFUSED` and `LICENSEE`.
    pub reason: u32,
    /// The first byte of the fault, in the text or in the licensee's line.
    pub start: usize,
    /// The byte behind the fault.
    pub end: usize,
    /// Which licensee or which of two texts, counted from 0; how many licensees are useful, or sets are made; how many bits
    /// are wanted; how two expressions compare; or what the list says of a name.
    pub number: usize,
    /// How many bytes the text has that was to be written, at `OK` and `SHORT`.
    pub length: usize,
    /// How many lines there were, and how many of them were refused.
    pub lines: u64,
    pub refused: u64,
}

/// The report that says no more than this.
pub(crate) fn plain(status: u32) -> Report
    ensures { result ≡ spec.plain status }
{
    Report {
        status,
        reason: 0,
        start: 0,
        end: 0,
        number: 0,
        length: 0,
        lines: 0,
        refused: 0,
    }
}

fn with_number(status: u32, number: usize) -> Report
    ensures { result ≡ spec.with_number status number }
{
    Report {
        number,
        ..plain(status)
    }
}

fn with_refusal(status: u32, number: usize, refusal: Refusal) -> Report
    ensures { result ≡ spec.with_refusal status number refusal }
{
    Report {
        reason: refusal.reason,
        start: refusal.start,
        end: refusal.end,
        number,
        ..plain(status)
    }
}

fn of_fault(fault: CallFault) -> Report
    ensures { result ≡ spec.of_fault fault }
{
    match fault {
        CallFault::NotText => plain(NOT_TEXT),
        CallFault::Refused(refusal) => with_refusal(REFUSED, 0, refusal),
        CallFault::OtherNotText => with_number(NOT_TEXT, 1),
        CallFault::OtherRefused(refusal) => with_refusal(REFUSED, 1, refusal),
        CallFault::LicenseeNotText(number) => with_number(LICENSEE_NOT_TEXT, number),
        CallFault::Licensee(number, refusal) => with_refusal(LICENSEE, number, refusal),
        CallFault::Unmet => plain(UNMET),
        CallFault::TooMany(count) => with_number(TOO_MANY, count),
        CallFault::BitCount(count) => with_number(ARGUMENT, count),
        CallFault::TooManySets(count) => with_number(TOO_MANY_SETS, count),
        CallFault::Memory => plain(MEMORY),
    }
}

fn with_length(put: Put) -> Report
    ensures { result ≡ spec.with_length put }
{
    match put {
        Put::Whole(length) => Report {
            length,
            ..plain(OK)
        },
        Put::Short(length) => Report {
            length,
            ..plain(SHORT)
        },
    }
}

pub(crate) fn of_check(answer: Result<(), CallFault>) -> Report
    ensures { result ≡ spec.of_check answer }
{
    match answer {
        Ok(()) => plain(OK),
        Err(fault) => of_fault(fault),
    }
}

pub(crate) fn of_put(answer: Result<Put, CallFault>) -> Report
    ensures { result ≡ spec.of_put answer }
{
    match answer {
        Ok(put) => with_length(put),
        Err(fault) => of_fault(fault),
    }
}

pub(crate) fn of_fix(answer: Result<Option<Put>, CallFault>) -> Report
    ensures { result ≡ spec.of_fix answer }
{
    match answer {
        Ok(Some(put)) => with_length(put),
        Ok(None) => plain(NO_FIX),
        Err(fault) => of_fault(fault),
    }
}

pub(crate) fn of_truth(answer: Result<bool, CallFault>) -> Report
    ensures { result ≡ spec.of_truth answer }
{
    match answer {
        Ok(true) => plain(OK),
        Ok(false) => plain(UNMET),
        Err(fault) => of_fault(fault),
    }
}

// The number of a relation.
fn relation_number(relation: Relation) -> usize
    ensures { result ≡ spec.relation_number relation }
{
    match relation {
        Relation::Same => 0,
        Relation::More => 1,
        Relation::Less => 2,
        Relation::Neither => 3,
    }
}

pub(crate) fn of_relation(answer: Result<Relation, CallFault>) -> Report
    ensures { result ≡ spec.of_relation answer }
{
    match answer {
        Ok(relation) => with_number(OK, relation_number(relation)),
        Err(fault) => of_fault(fault),
    }
}

// The number of what a list says of a name.
fn listing_number(listing: Listing) -> usize
    ensures { result ≡ spec.listing_number listing }
{
    match listing {
        Listing::Unlisted => 0,
        Listing::Current => 1,
        Listing::Deprecated => 2,
    }
}

pub(crate) fn of_listing(answer: Result<Listing, CallFault>) -> Report
    ensures { result ≡ spec.of_listing answer }
{
    match answer {
        Ok(listing) => with_number(OK, listing_number(listing)),
        Err(fault) => of_fault(fault),
    }
}

pub(crate) fn of_answered(answer: Result<Answered, CallFault>) -> Report
    ensures { result ≡ spec.of_answered answer }
{
    match answer {
        Ok(answered) => Report {
            lines: answered.summary.lines,
            refused: answered.summary.refused,
            ..with_length(answered.put)
        },
        Err(fault) => of_fault(fault),
    }
}
