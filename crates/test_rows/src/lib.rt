//! What the rows of tests share: short forms for their long texts, and how many of them hold.
//!
//! It knows nothing of what the rows are of, and stands on nothing but std.
#![tactic(auto)]

mod short;
mod tally;

pub use crate::short::{number, written_out};
pub use crate::tally::Tally;
