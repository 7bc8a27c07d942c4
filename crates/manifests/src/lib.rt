//! Which files are manifests, and where the licence expressions stand that they declare.
//!
//! It reads no expression: it gives their places, and writes another text there.
//!
//! ```rust
//! // crates/check_sources/src/findings/declared.rt
//! match sites(alloc, form, source.bytes) {
//! ```
//!
//! It stands on `json_places`, `toml_places`, `plain_manifests` and `text_places`.
#![tactic(auto)]

mod declared;
mod form;
mod json_sites;
mod json_texts;
mod laws;
mod old_table;
mod plain;
mod site;
mod toml_sites;
mod toml_texts;

pub use crate::declared::{reads_slash, sites, with_expression};
pub use crate::form::{Form, form_named, form_of};
pub use crate::laws::{json_texts_are_mended, ways_are_told_once};
pub use crate::old_table::has_license_table;
pub use crate::site::{Fault, ManifestError, Reason, Site};
