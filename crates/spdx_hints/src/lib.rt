//! Which listed licences may be meant by words that no reader takes.
//!
//! ```rust
//! // crates/test_lists/src/hinted.rt
//! let meant = hints(alloc, catalogue, given.as_bytes())?;
//! ```
//!
//! It stands on `spdx_catalogue` and `strsim`.
#![tactic(auto)]

mod around;
mod hint;
mod plain;
mod rule;
mod words;

pub use crate::around::phrase;
pub use crate::hint::{Meant, hints};
pub use crate::rule::Rule;
