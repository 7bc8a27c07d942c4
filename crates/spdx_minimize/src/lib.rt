//! The least choice of licensees that makes expressions true, over the nodes of the expressions; and why a call of the
//! library gives nothing: the error of all calls, and that of the least choice.
//!
//! ```rust
//! // crates/spdx/src/expression/minimize.rt
//! least_choice(alloc, slice::from_ref(&list), accepted)
//! ```
//!
//! Each `?` on a call of the library makes an [`Error`] of the call's own fault. It stands on `spdx_evaluation`, `spdx_licensee` and `selections`.
#![tactic(auto)]

pub mod accepted;
pub mod choice;
pub mod error;
pub mod judge;
pub mod laws;
pub mod minimize_error;
pub mod nodes;
mod question;
mod useful;

pub use crate::accepted::AcceptedLicensees;
pub use crate::choice::least_choice;
pub use crate::error::Error;
pub use crate::judge::NodesJudge;
pub use crate::minimize_error::MinimizeError;
pub use crate::nodes::TreeNodes;
