//! The packages that files list, over a shelf of files; and the references that several documents have, each of which may
//! mean another licence by them.
//!
//! ```rust
//! // crates/notice_program/src/run.rt
//! let all = all_listed_at(alloc, shelf, request.wanted, request.paths)?;
//! ```
//!
//! Of the language of licences `shared` knows what a reference looks like: `LicenseRef-`, with letters, digits, `.` and `-`
//! behind it. It stands on `shelves` and `package_sources`.
#![tactic(auto)]

pub mod all;
pub mod fault;
pub mod listed;
pub mod mentions;
mod reading;
pub mod shared;
pub mod texts;

pub use crate::all::{AllListed, all_listed_at};
pub use crate::fault::FileFault;
pub use crate::listed::{Listed, Source, Wanted, listed_at, listed_before};
pub use crate::shared::shared_references;
