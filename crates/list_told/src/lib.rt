//! The commands `spdx list show` and `spdx list diff` over a shelf of files: what a list says of names, and by what it
//! differs from an older one.
//!
//! ```rust
//! // crates/spdx_commands/src/lists.rt
//! let shown = list_told::show(alloc, shelf, inside, replacements, asked)?;
//! ```
//!
//! It stands on `list_program`, `spdx_list`, `spdx_canonical` and `spdx_hints`.
#![tactic(auto)]

mod changes;
pub mod differing;
mod flags;
mod names;
mod parts;
pub mod replacements;
mod rows;
pub mod shown;
pub mod unlisted;

pub use crate::differing::{Lists, diff};
pub use crate::replacements::replacement;
pub use crate::shown::{NameQuery, Shown, show};
pub use crate::unlisted::Unlisted;
