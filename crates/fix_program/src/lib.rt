//! The command `spdx fix` over a shelf of files: what comes of each file that it reads, what is put out, which files are to hold
//! other bytes, and its status.
//!
//! Nothing is written. The plan of all files is made before the first of them is replaced.
//!
//! ```rust
//! // crates/spdx_commands/src/mending.rt
//! let run = fix_program::fix(alloc, shelf, inside, request, listener)?;
//! ```
//!
//! It stands on `list_program`, `source_trees`, `file_fixes` and `line_diff`.
#![tactic(auto)]

mod diffs;
pub mod ends;
pub mod file;
pub mod run;
pub mod tree;
pub mod trouble;

pub use crate::ends::FileEnd;
pub use crate::file::{Deed, FileReplacement, Fixed, Manner, file_fixed};
pub use crate::run::{FixFault, PathEnd, Request, Run, fix};
pub use crate::tree::Progress;
pub use crate::trouble::FixTrouble;
