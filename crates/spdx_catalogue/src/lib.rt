//! A checked catalogue of SPDX licences and exceptions, and its look-ups.
//!
//! A catalogue is made of rows that break no rule, and stays so: each look-up then equals its definition over the
//! rows.
//!
//! ```rust
//! // crates/spdx_c/src/opening.rt
//! match Catalogue::from_json(alloc, list) {
//! ```
//!
//! It stands on `spdx_requirement` and `spdx_tables`.
#![tactic(auto)]

pub mod catalogue;
mod checks;
pub mod error;
mod halving;
mod index;
mod look_up;
pub mod names;
pub mod order;
mod row;

pub use crate::catalogue::Catalogue;
pub use crate::error::{CatalogueError, List, ReadFault};
pub use spdx_requirement::{
    AdditionItem, AdditionRef, Exception, ExceptionId, Failure, ImpreciseName, License, LicenseId,
    LicenseItem, LicenseRef, LicenseReq, flags,
};
pub use spdx_tables::Field;
