//! The SPDX licence list, and what SPDX doesn't say of it, as literals that programs bring with them.
//!
//! `tools/known` writes them from `data/`. It stands on nothing.
#![tactic(auto)]

mod extras;
mod lines;
mod list;
mod replacements;
mod version;

pub use crate::extras::EXTRAS;
pub use crate::lines::LINES;
pub use crate::list::LIST;
pub use crate::replacements::REPLACEMENTS;
pub use crate::version::VERSION;
