// What a row is answered, and why it may have no answer.

use spdx::{Failure, ParseError};
use std::alloc::{AllocError, AllocFailed, Global};

/// Why a row has no answer.
#[derive(Clone, Copy, PartialEq, Eq, Debug)]
pub enum NoAnswer {
    /// No memory was found.
    Memory,
    /// A text that the row takes for granted was refused.
    Refused,
    /// The row names no call, catalogue or field that there is.
    Row,
}

impl From<AllocError> for NoAnswer {
    fn from(_error: AllocError) -> NoAnswer {
        NoAnswer::Memory
    }
}

impl<T: Drop> From<AllocFailed<T>> for NoAnswer {
    fn from(_error: AllocFailed<T>) -> NoAnswer {
        NoAnswer::Memory
    }
}

impl<E: Drop> From<Failure<E>> for NoAnswer {
    fn from(failure: Failure<E>) -> NoAnswer {
        match failure {
            Failure::Memory(_) => NoAnswer::Memory,
            Failure::Refused(_) => NoAnswer::Refused,
        }
    }
}

pub type Answer = Result<String, NoAnswer>;

/// What stands before the first such mark, and what stands behind it.
pub(crate) fn two_parts<'a>(text: &'a str, mark: &str) -> Result<(&'a str, &'a str), NoAnswer> {
    match text.split_once(mark) {
        Some(parts) => Ok(parts),
        None => Err(NoAnswer::Row),
    }
}

/// The first field, and the others.
pub(crate) fn fields(given: &str) -> Result<(&str, &str), NoAnswer> {
    two_parts(given, "|")
}

/// The place of a fault, and what it says.
pub(crate) fn placed(alloc: Global, fault: &ParseError<'_>) -> Answer {
    let (start, end) = (fault.span.start, fault.span.end);
    Ok(format!(in alloc; "{start}..{end} {}", fault.reason)?)
}

/// The fault of a text, or the want of memory.
pub(crate) fn placed_fault(alloc: Global, failure: Failure<ParseError<'_>>) -> Answer {
    match failure {
        Failure::Refused(fault) => placed(alloc, &fault),
        Failure::Memory(_) => Err(NoAnswer::Memory),
    }
}

/// `yes` or `no`.
pub(crate) fn said(alloc: Global, holds: bool) -> Answer {
    Ok((if holds { "yes" } else { "no" }).to_string(alloc)?)
}
