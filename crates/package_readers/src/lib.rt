//! The packages of single forms of files: of lines, of what `license-checker`, `pnpm` and `spdx gate` write, of SPDX 3,
//! and of the metadata of Python.
//!
//! It knows nothing of the language of licenses: the text of one is carried on as it stands, or is made of several by
//! the words `OR` and `AND`.
//!
//! ```rust
//! // crates/package_sources/src/sources.rt
//! Form::Pnpm => pnpm_packages(alloc, &document(alloc, bytes)?),
//! ```
//!
//! It stands on `package_items`.
#![tactic(auto)]

pub mod license_checker;
pub mod lines;
pub mod metadata;
pub mod pnpm;
pub mod separated;
pub mod spdx_three;
pub mod table;
pub mod verdicts;

pub use crate::license_checker::{checked_packages, version_of};
pub use crate::lines::packages_in_lines;
pub use crate::metadata::metadata_packages;
pub use crate::pnpm::pnpm_packages;
pub use crate::separated::Separator;
pub use crate::spdx_three::graph_packages;
pub use crate::table::packages_in_table;
pub use crate::verdicts::verdict_packages;
