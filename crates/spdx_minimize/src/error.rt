//! The error of all calls.

ghost use Rattle.std.specs.Prelude.{◌≡◌, Some, alloc_error};
ghost use Rattle.spdx_catalogue.specs.declared.error.ReadFault.TheVariants as read;
ghost use Rattle.spdx_minimize.specs.declared.error.Error.TheVariants as variant;
ghost use Rattle.spdx_minimize.specs.Errors.{library_text, error_of};

use crate::minimize_error::MinimizeError;
use spdx_catalogue::{CatalogueError, Failure, ReadFault};
use spdx_lexer::error::ParseError;
use std::alloc::{AllocError, AllocFailed};
use std::fmt;

/// Any fault of the library's calls but `TooManySets`: `?` makes it of the error of each, so a function
/// that makes several calls needs no type of its own. It is not what `evaluate_with_failures` refuses,
/// since those requirements are an answer.
///
/// It borrows the text that a fault of parsing speaks of, and takes no memory.
#[derive(Debug, PartialEq, Eq, Drop)]
pub enum Error<'t> {
    /// Bytes or rows are no catalogue.
    Catalogue(ReadFault),
    /// A text is no expression, or names no licensee.
    Parse(ParseError<'t>),
    /// There is no choice of licensees.
    Minimize(MinimizeError),
    /// Memory was refused.
    Memory(AllocError),
}

impl fmt::Display for Error<'_> {
    ghost output = { λ e. Some (library_text e) };

    fn fmt<W: fmt::Write>(&self, f: &mut fmt::Formatter<W>) -> fmt::Result {
        match self {
            Error::Catalogue(fault) => write!(f, "{fault}"),
            Error::Parse(error) => write!(f, "{error}"),
            Error::Minimize(error) => write!(f, "{error}"),
            Error::Memory(_) => write!(f, "out of memory"),
        }
    }
}

impl std::error::Error for Error<'_> {}

impl<'t> From<ReadFault> for Error<'t> {
    ghost from_gives = { λ fault e. e ≡ variant.Catalogue fault };

    fn from(fault: ReadFault) -> Error<'t> {
        Error::Catalogue(fault)
    }
}

impl<'t> From<CatalogueError> for Error<'t> {
    ghost from_gives = { λ fault e. e ≡ variant.Catalogue (read.Catalogue fault) };

    fn from(fault: CatalogueError) -> Error<'t> {
        Error::Catalogue(ReadFault::Catalogue(fault))
    }
}

impl<'t> From<ParseError<'t>> for Error<'t> {
    ghost from_gives = { λ error e. e ≡ variant.Parse error };

    fn from(error: ParseError<'t>) -> Error<'t> {
        Error::Parse(error)
    }
}

impl<'t> From<MinimizeError> for Error<'t> {
    ghost from_gives = { λ error e. e ≡ variant.Minimize error };

    fn from(error: MinimizeError) -> Error<'t> {
        Error::Minimize(error)
    }
}

impl<'t> From<AllocError> for Error<'t> {
    ghost from_gives = { λ error e. e ≡ variant.Memory error };

    fn from(error: AllocError) -> Error<'t> {
        Error::Memory(error)
    }
}

impl<'t, T: Drop> From<AllocFailed<T>> for Error<'t> {
    ghost from_gives = { λ _ e. e ≡ variant.Memory alloc_error };

    fn from(_failed: AllocFailed<T>) -> Error<'t> {
        Error::Memory(AllocError)
    }
}

impl<'t> From<Failure<ReadFault>> for Error<'t> {
    ghost from_gives = { λ failure e. e ≡ error_of variant.Catalogue failure };

    fn from(failure: Failure<ReadFault>) -> Error<'t> {
        match failure {
            Failure::Refused(fault) => Error::Catalogue(fault),
            Failure::Memory(error) => Error::Memory(error),
        }
    }
}

impl<'t> From<Failure<ParseError<'t>>> for Error<'t> {
    ghost from_gives = { λ failure e. e ≡ error_of variant.Parse failure };

    fn from(failure: Failure<ParseError<'t>>) -> Error<'t> {
        match failure {
            Failure::Refused(error) => Error::Parse(error),
            Failure::Memory(error) => Error::Memory(error),
        }
    }
}

impl<'t> From<Failure<MinimizeError>> for Error<'t> {
    ghost from_gives = { λ failure e. e ≡ error_of variant.Minimize failure };

    fn from(failure: Failure<MinimizeError>) -> Error<'t> {
        match failure {
            Failure::Refused(error) => Error::Minimize(error),
            Failure::Memory(error) => Error::Memory(error),
        }
    }
}
