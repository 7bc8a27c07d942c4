//! What `spdx check` does with one file below a folder, over a shelf of files: what is written of it, which trouble is told,
//! and what is counted and noted.
//!
//! ```rust
//! // crates/check_files/src/file.rt
//! match shelf.read(alloc, path) {
//! ```
//!
//! It stands on `check_sources`, which has the parts of a check, and on `source_trees`.
#![tactic(auto)]

pub mod file;
pub mod noted;
mod parts;
pub mod telling;
pub mod trouble;

pub use crate::file::{Below, check_file};
pub use crate::noted::Noted;
pub use crate::parts::{Declared, check_declared, check_tagged};
pub use crate::telling::Telling;
pub use crate::trouble::{CheckFault, CheckTrouble, is_not_found, pass_over};
