//! The commands `spdx compare` and `spdx simplify` over a shelf of files: how what two expressions ask compares, and what
//! each line of a file means.
//!
//! ```rust
//! // crates/spdx_commands/src/comparison.rt
//! let told = meaning_program::compare(alloc, shelf, inside, asked)?;
//! ```
//!
//! It stands on `list_program`, `spdx_meaning` and `spdx_canonical`.
#![tactic(auto)]

pub mod compared;
pub mod files;
mod reading;
mod sayings;
pub mod simplified;
pub mod trouble;

pub use crate::compared::{Compared, TextPair, compare};
pub use crate::files::{FileEnd, Request, Run, simplify};
pub use crate::simplified::{Simplified, UnmeantLine, simplify_lines};
pub use crate::trouble::{MeaningTrouble, Unsaid};
