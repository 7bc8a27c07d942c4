//! The calls of `spdx` over bytes: texts come as slices and go into a buffer of the caller, whole or not at all.
//!
//! They are what callers in other languages have; `spdx_c` hands them on. No call keeps anything.
//!
//! ```rust
//! // crates/spdx_c/src/lib.rt
//! Some(mode) => of_put(spdx_calls::canonical(alloc, seen.get(), mode, text, out)),
//! ```
//!
//! It stands on `spdx` and `spdx_lines`.
#![tactic(auto)]

pub mod bits;
pub mod buffer;
pub mod fault;
mod licensees;
pub mod listing;
pub mod meaning;
pub mod questions;
mod reading;
pub mod texts;

pub use crate::bits::evaluate_bits;
pub use crate::buffer::Put;
pub use crate::fault::{CallFault, Refusal, reason_text};
pub use crate::listing::requirements;
pub use crate::meaning::{compare, simplify};
pub use crate::questions::{Listing, check, choose, evaluate, listed};
pub use crate::texts::{Answered, canonical, fix, lines, normal};
