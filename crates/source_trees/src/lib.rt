//! Which files stand below a path, and as what each of them is read, over a shelf of files.
//!
//! ```rust
//! // crates/fix_program/src/tree.rt
//! let Some(seen) = walk.next(alloc, shelf)? else {
//! ```
//!
//! A walk comes to what is in a folder in the order of the names, and to all that is below a folder where the folder's own
//! name stands. It stands on `shelves` and `manifests`.
#![tactic(auto)]

pub mod reading;
pub mod stops;
mod visits;
pub mod walk;
mod whole;

pub use crate::reading::{Reading, ReadingFault, Taken, Wanted, form_below, reading_of};
pub use crate::stops::{Visit, below};
pub use crate::visits::is_beside;
pub use crate::walk::{Seen, Walk};
pub use crate::whole::all_seen;
