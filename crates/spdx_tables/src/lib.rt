//! The tables of a catalogue, read from JSON, before they are checked.
//!
//! ```rust
//! // crates/spdx_catalogue/src/catalogue.rt
//! let tables = match Tables::from_json(alloc, bytes) {
//! ```
//!
//! It stands on `spdx_requirement`, `json`, `serde_json` and `itoa`.
#![tactic(auto)]

pub mod error;
mod table_row;
pub mod tables;
mod take;
mod values;
mod written;

pub use crate::error::{Field, TableFault};
pub use crate::tables::{Tables, version_date};
