//! The truth of a licence expression's nodes over a closure's answers to its requirements, and the requirements
//! that it refuses.
//!
//! ```rust
//! // crates/spdx/src/expression/evaluate.rt
//! spdx_evaluation::evaluate(alloc, self.nodes(), f)
//! ```
//!
//! It stands on the parser and `selections`.
#![tactic(auto)]

pub mod failures;
pub mod truth;
mod word;

pub use crate::failures::evaluate_with_failures;
pub use crate::truth::evaluate;
