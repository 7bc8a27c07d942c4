//! What packages are used under: by a policy, or among licences that are accepted; each by a choice of its own, or all by one.
//!
//! ```rust
//! // crates/notice_program/src/run.rt
//! match choose(
//! ```
//!
//! It stands on `package_choices`, `package_sources`, `gate_program` and `spdx`.
#![tactic(auto)]

mod acceptance;
mod accepted;
mod allowed;
pub mod choosing;
mod judged;
mod licensees;
mod named;
mod picked;
pub mod unchosen;

pub use crate::acceptance::{Accepted, choose};
pub use crate::allowed::choose_allowed;
pub use crate::choosing::{ChoiceTrouble, Chosen, choose_among};
pub use crate::unchosen::{Unchosen, Why, told_name, unchosen_for};
