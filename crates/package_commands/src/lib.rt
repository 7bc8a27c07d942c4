//! What the commands over packages write and tell, over a shelf of files, and with which status they end.
//!
//! ```rust
//! // crates/spdx_program/src/commands/gate.rt
//! alone(package_commands::gate(alloc, shelf, list, replacements, asked, output, teller))
//! ```
//!
//! Here are `gate`, `diff` and `notice`. It stands on `gate_program`, `changes_program`, `notice_program`,
//! `package_files` and `spdx_commands`.
#![tactic(auto)]

mod differences;
mod forms;
mod gated;
mod pages;
mod shared;
mod texts;
mod unchosen;

pub use crate::differences::{DiffEnd, DiffTask, diff};
pub use crate::gated::{GateTask, gate};
pub use crate::pages::{NoticeEnd, notice};
