//! What changed between two lists of packages: which came, which went, and which stayed, each told once; how the licence of one
//! changed, written otherwise or asking the same, more or less; and how it is all written: as lines, as one document of JSON, and as
//! a table of Markdown.
//!
//! Names, versions and licences are texts of others here, and nothing obeys them.
//!
//! ```rust
//! // crates/changes_program/src/run.rt
//! let changes = changes_between(alloc, &before, &now)?;
//! ```
//!
//! It stands on `spdx_meaning` and `spdx_canonical` for what licenses ask, on `foreign_text` and on the writer of JSON.
#![tactic(auto)]

mod change;
mod changes;
pub mod forms;
mod package;
mod tellings;

pub use crate::change::reading::Untold;
pub use crate::change::{LicenseChange, license_change};
pub use crate::changes::changes_between;
pub use crate::forms::{Format, put_changes};
pub use crate::package::{Change, Package};
pub use crate::tellings::{How, Reason, Release, Telling};
