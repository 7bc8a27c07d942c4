//! The command `spdx check` over a shelf of files: what is written and told of all that is named, and the status. Of a folder
//! that is each file below it, then the licence texts that are missing or not needed, and the files without a licence.
//!
//! ```rust
//! // crates/spdx_program/src/commands/check.rt
//! let end = check_program::check(alloc, shelf, inside, asked, output, teller);
//! ```
//!
//! It stands on `check_files`, which checks one file, on `source_trees`, which says what is below a folder, and on
//! `spdx_check`, which checks lines.
#![tactic(auto)]

mod ends;
mod lines;
mod path;
pub mod run;
mod steps;
mod texts;
pub mod tree;

pub use crate::run::{CheckEnd, Inside, Request, check};
pub use crate::tree::{Manner, check_tree};
