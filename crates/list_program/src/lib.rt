//! Which list a program reads, and what `spdx list make` writes, over a shelf of files.
//!
//! ```rust
//! // crates/check_program/src/run.rt
//! let catalogue = named_list(alloc, shelf, inside.list, request.list)?;
//! ```
//!
//! The list inside a program is lines, since it is read at each start:
//!
//! ```text
//! 3.29.0
//! 0<tab>389-exception
//! ..
//! ```
//!
//! The version, behind which a tab and its day may stand, the exceptions, the licences and the imprecise names stand in this
//! order, with a form feed between each two. A row is a line, with a tab between its cells: its flags as one byte, counted from
//! `0`, and its names.
//!
//! It stands on `shelves`, `spdx_list`, `spdx_catalogue` and `line_engine`.
#![tactic(auto)]

mod cells;
pub mod dated;
pub mod made;
pub mod named;
mod read;
mod rows;
pub mod trouble;

pub use crate::dated::named_date;
pub use crate::made::{MadeOf, put_made_list};
pub use crate::named::{Inside, extras_inside, list_at, named_list};
pub use crate::read::{LinesFault, catalogue_in_lines, day_in_lines};
pub use crate::trouble::ListTrouble;
