// How a run ends without an answer.

use spdx::Failure;
use std::alloc::{AllocError, AllocFailed};
use std::io;

/// Why there is no answer.
#[derive(Clone, Copy, PartialEq, Eq, Debug)]
pub enum End {
    /// The call wanted memory, and all was as it has to be.
    InTheCall,
    /// Memory was wanted before the call, or behind it.
    Outside,
    /// Something isn't as it has to be.
    Otherwise(&'static str),
}

pub type Answer = Result<String, End>;

impl From<AllocError> for End {
    fn from(_error: AllocError) -> End {
        End::Outside
    }
}

impl<T: Drop> From<AllocFailed<T>> for End {
    fn from(_error: AllocFailed<T>) -> End {
        End::Outside
    }
}

impl From<io::Error> for End {
    fn from(_error: io::Error) -> End {
        End::Outside
    }
}

impl<E: Drop> From<Failure<E>> for End {
    fn from(failure: Failure<E>) -> End {
        match failure {
            Failure::Memory(_) => End::Outside,
            Failure::Refused(_) => End::Otherwise("refused"),
        }
    }
}
