//! A catalogue made of SPDX's own two files, and a catalogue written as JSON.
//!
//! ```rust
//! // crates/list_program/src/named.rt
//! catalogue_of(alloc, licenses, exceptions, &extras)
//! ```
//!
//! It stands on `spdx_catalogue` and `spdx_tables`.
#![tactic(auto)]

mod date;
pub mod diff;
pub mod error;
pub mod extras;
mod forms;
mod json;
mod names;
pub mod tables;
pub mod text;

pub use crate::date::release_date;
pub use crate::diff::{Listed, RowChange, RowDifferences, differences};
pub use crate::error::{File, ListFault, Member, Table};
pub use crate::extras::{Extras, Replacement};
pub use crate::tables::{catalogue_of, tables_of};
pub use crate::text::{list_text, text_of};
