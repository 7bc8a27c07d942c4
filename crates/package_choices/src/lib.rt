//! What packages are used under: by the licences that somebody accepts, or by a policy; each by its own choice, or all by
//! one.
//!
//! ```rust
//! // crates/choice_program/src/accepted.rt
//! match joint_choices(alloc, &expressions, accepted) {
//! ```
//!
//! `accepted` stands on `spdx`, and `allowed` on `spdx_gate`.
#![tactic(auto)]

pub mod accepted;
pub mod allowed;
