//! Subsets of a list, as truth values or as numbers: a packed stack of truth values, the least selection that
//! suffices, and lists of sets of which none includes another.
//!
//! What suffices is given by a [`Sufficiency`]: any test that a larger selection meets if a smaller one does.
//!
//! ```rust
//! // crates/spdx_minimize/src/choice.rt
//! if !least_selection(&mut judge, places) {
//! ```
//!
//! It stands on `smallvec` alone, and knows nothing of licences.
#![tactic(auto)]

pub mod order;
pub mod selection;
pub mod sets;
pub mod truths;
#[cfg(test)]
mod weights;
pub mod word;

pub use crate::selection::{Sufficiency, least_selection};
pub use crate::truths::Truths;
pub use crate::word::WordTruths;
