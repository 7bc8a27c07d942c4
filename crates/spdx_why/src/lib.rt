//! Why an expression is refused, over its nodes and a mark for each of its requirements: which of them the refusal hangs
//! on, and the fewest that would make it pass; or the fewest of other candidates, each of which serves some of them.
//!
//! ```rust
//! // crates/spdx_gate/src/judgement.rt
//! let missing = missing(alloc, nodes.as_slice(), marks.as_slice())?;
//! ```
//!
//! A requirement is named by its number: how many stand before it in the text. It stands on `spdx_evaluation` and
//! `spdx_minimize`.
#![tactic(auto)]

mod choice;
mod firsts;
mod judge;
mod marks;
mod parts;
mod reasons;
mod serving;

pub use crate::choice::{Remedy, advice, least, least_allowed};
pub use crate::marks::Mark;
pub use crate::reasons::{is_accepted, missing};
pub use crate::serving::least_serving;
