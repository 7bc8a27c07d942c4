//! Why a call says nothing of what an expression means.

ghost use Rattle.std.specs.Prelude.{Some};
ghost use Rattle.spdx_meaning.specs.Faults.{too_many_text};

use std::fmt;

/// So many sets of requirements are made for a part of the expression, which is more than 4,096.
#[derive(Clone, Copy, Debug, PartialEq, Eq)]
pub struct TooManySets(pub usize);

impl fmt::Display for TooManySets {
    ghost output = { λ e. Some (too_many_text e) };

    fn fmt<W: fmt::Write>(&self, f: &mut fmt::Formatter<W>) -> fmt::Result {
        let count = self.0;
        write!(
            f,
            "the license expression makes {count} sets of requirements which exceeds the limit of 4096"
        )
    }
}

impl std::error::Error for TooManySets {}
