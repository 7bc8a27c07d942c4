//! What the commands of `spdx` write and tell, over a shelf of files, and with which status they end.
//!
//! ```rust
//! // crates/spdx_program/src/commands/compare.rt
//! alone(spdx_commands::compare(alloc, shelf, inside.list, asked, output))
//! ```
//!
//! Here are `compare`, `simplify`, `fix` and those of `list`. Who puts bytes in the places of files is a `Replacing`, whose word
//! is taken for what comes of that. It stands on `meaning_program`, `list_told`, `list_program`, `fix_program` and
//! `spdx_troubles`.
#![tactic(auto)]

mod beside;
mod comparison;
mod deeds;
mod follower;
mod listener;
mod lists;
mod mending;
mod nodes;
mod said;
mod simplification;

pub use crate::comparison::compare;
pub use crate::follower::Follower;
pub use crate::listener::Listener;
pub use crate::lists::{diff, make, show};
pub use crate::mending::fix;
pub use crate::mending::replacing::{Loss, Obstacle, Replacing};
pub use crate::said::{Said, say};
pub use crate::simplification::simplify;
