//! Licensees: the licences that one holds, and which requirements they satisfy; and the licences under which a requirement
//! may be had: what stands in the place of deprecated names, what a requirement means, which listed licences serve it, and
//! the names of the texts that it wants.
//!
//! ```rust
//! // crates/spdx_uses/src/gate.rt
//! accepted.iter().any(|licensee| licensee.satisfies(req))
//! ```
//!
//! It stands on the lexer.
#![tactic(auto)]

mod equality;
pub mod licensee;
mod meaning;
mod reading;
pub mod replacements;
mod serving;
mod texts;
mod version;

pub use crate::licensee::Licensee;
pub use crate::meaning::sense;
pub use crate::replacements::{ReplacedName, Replacements};
pub use crate::serving::{stands_for, stands_for_license, ways};
pub use crate::texts::{RequirementTexts, texts_of};
