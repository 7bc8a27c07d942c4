// Why there are no choices.

use spdx_minimize::MinimizeError;

/// Why expressions have no choices.
#[derive(Clone, Copy, Debug, PartialEq, Eq)]
pub enum Unmet {
    /// An expression has no choice of its own, and each before it has one.
    Expression {
        /// Its place among the expressions, from 0.
        place: usize,
        /// Why it has none.
        error: MinimizeError,
    },
    /// Each expression has a choice of its own, but there is none for all of them.
    Together(MinimizeError),
}
