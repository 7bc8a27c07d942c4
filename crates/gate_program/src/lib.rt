//! The command `spdx gate` over a shelf of files: what it reads, what it tells of the packages, and its status.
//!
//! The policy judges the packages of all files in their order; what an older file refuses is known. What is told is made of
//! the report alone, so it says of each package what the policy says of it.
//!
//! ```rust
//! // crates/package_commands/src/gated.rt
//! let outcome = gate_program::gate(alloc, shelf, inside, replacements, asked.run)?;
//! ```
//!
//! It stands on `list_program`, `package_files`, `gate_told` and `spdx_gate`.
#![tactic(auto)]

pub mod before;
pub mod gated;
pub mod judging;
pub mod known;
mod named;
pub mod policy;
pub mod run;
mod tellings;
pub mod told;

pub use crate::before::{Before, name_of};
pub use crate::gated::Gated;
pub use crate::judging::view;
pub use crate::known::{Refusal, known_among};
pub use crate::policy::{PolicyTrouble, policy_at};
pub use crate::run::{End, GateTrouble, Request, Run, gate};
pub use crate::told::{GateText, Look, gate_text};
