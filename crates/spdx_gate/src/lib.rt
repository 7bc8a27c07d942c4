//! Packages under a policy: which pass, and why one doesn't.
//!
//! ```rust
//! // crates/gate_program/src/judging.rt
//! judge(alloc, catalogue, policy, &packages)
//! ```
//!
//! It stands on `spdx_policy` and `spdx_why`.
#![tactic(auto)]

mod advice;
mod bench;
mod judged;
mod judgement;
pub mod laws;
mod needs;
mod package;
mod report;
mod totals;
mod uses;

pub use crate::advice::Advice;
pub use crate::judged::Judged;
pub use crate::judgement::{Fault, Judgement, Outcome, judge_text};
pub use crate::needs::Need;
pub use crate::package::{Package, Verdict};
pub use crate::report::{Report, Row, judge};
pub use crate::totals::Totals;
pub use crate::uses::Uses;
