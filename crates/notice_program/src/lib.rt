//! The command `spdx notice` over a shelf of files: what its packages are used under, which texts they have, the page that has
//! them, what is told besides, and its status.
//!
//! Nothing is written. A page is there only where all of it is.
//!
//! ```rust
//! // crates/package_commands/src/pages.rt
//! let outcome = notice_program::notice(alloc, shelf, inside, replacements, request)?;
//! ```
//!
//! It stands on `package_files`, `choice_program`, `owed_texts` and `notice_told`.
#![tactic(auto)]

pub mod end;
mod noted;
mod page;
pub mod run;
mod taken;
mod told;

pub use crate::end::{End, Missing, Request, ToldPage};
pub use crate::run::{NoticeTrouble, Run, notice};
