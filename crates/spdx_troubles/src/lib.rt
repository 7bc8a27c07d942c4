//! What the program `spdx` tells besides what it was asked: what is wrong, of which file, package or name, and with which
//! status it ends.
//!
//! ```rust
//! // crates/spdx_program/src/teller.rt
//! let line = trouble.line(alloc)?;
//! ```
//!
//! Whatever stands in names, texts and errors, a trouble is one line that a terminal shows and doesn't obey. It stands on
//! `foreign_text` and on the crates of the commands, whose troubles it tells.
#![tactic(auto)]

mod causes;
mod line;
mod trouble;

pub use crate::trouble::Trouble;
