//! A policy of licences, read from TOML, and what it says of a requirement.
//!
//! ```rust
//! // crates/spdx_gate/src/judgement.rt
//! decisions.push(policy.decide(alloc, exceptions, &requirement.req)?)?;
//! ```
//!
//! It stands on the parser and `spdx_licensee`.
#![tactic(auto)]

mod deciding;
pub mod decision;
pub mod error;
mod escaped;
pub mod fault;
mod named;
pub mod offer;
pub mod policy;
mod reading;
mod scopes;

pub use crate::decision::{Decision, Entry, Flag};
pub use crate::error::{Key, Kind, Place, Section, ShapeFault};
pub use crate::fault::{PolicyError, PolicyFault, Unreadable};
pub use crate::offer::Offer;
pub use crate::policy::Policy;
