//! What is wrong with the licence expressions of a file: one by one, where another finds them, or line by line.
//!
//! ```rust
//! // crates/check_sources/src/findings/written.rt
//! let Some(refusal) = refusal_of(alloc, check, written.text)? else {
//! ```
//!
//! It stands on the parser, `spdx_canonical`, `spdx_hints` and `spdx_list` for what helps, `finding_forms` for how it is
//! written, and `line_engine`.
#![tactic(auto)]

mod check;
mod known;
mod lines;
mod refusals;
mod remembered;
mod totals;

pub use crate::check::Check;
pub use crate::lines::{Checked, LinesFault, check_lines, expression_of};
pub use crate::refusals::{Refusal, refusal_of};
pub use crate::totals::Totals;
