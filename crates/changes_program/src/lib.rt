//! The command `spdx diff` over a shelf of files: what changed between two lists of packages, and what a policy refuses of it.
//!
//! ```rust
//! // crates/package_commands/src/differences.rt
//! let outcome = changes(alloc, shelf, inside, replacements, asked.run)?;
//! ```
//!
//! It stands on `package_files`, `package_changes` and `gate_program`.
#![tactic(auto)]

mod packages;
pub mod run;
mod said;
mod tellings;

pub use crate::run::{Request, Run, ToldChanges, Totals, changes};
