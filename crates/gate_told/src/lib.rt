//! What is told of a gate's judgements of packages, for the forms in which that is written.
//!
//! These are the parts of each expression in the order in which they are shown; what a policy says of its requirements, and
//! by which entries; why a text is no expression; what would make packages pass; and what of the policy is of no use. With
//! the files and names of a run's packages they are its verdicts, which stand one behind the other in each form.
//!
//! ```rust
//! // crates/gate_program/src/told.rt
//! put_all_unused(alloc, text, path, policy, &gated.report)?;
//! ```
//!
//! It stands on `spdx_gate` and `gate_forms`.
#![tactic(auto)]

mod breakdowns;
mod entries;
mod forms;
mod judged_texts;
mod needs;
mod packages;
mod totals;
mod tree;
mod unread;
mod unused;

pub use crate::breakdowns::{Breakdown, told_verdict};
pub use crate::entries::entry_text;
pub use crate::forms::{Format, are_gathered, put_explanations, put_verdicts, scope_of};
pub use crate::judged_texts::JudgedTexts;
pub use crate::needs::put_needs;
pub use crate::packages::{NamedPackage, Scope, told_packages};
pub use crate::totals::told_totals;
pub use crate::tree::parts;
pub use crate::unused::put_all_unused;
