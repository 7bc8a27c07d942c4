//! Where the texts of a JSON document stand in its bytes, and the document with another text at such a place.
//!
//! It has no grammar of its own: a simple scan finds the literals, and the reader `serde_json` says which of them each path means.
//!
//! ```rust
//! // crates/manifests/src/json_sites.rt
//! let spans = places(alloc, bytes, &document, found.paths.as_slice())?;
//! ```
//!
//! It stands on `text_places` and `serde_json`, and by its proofs on `json`.
#![tactic(auto)]

mod changes;
mod finding;
mod literals;
mod mended;
mod path;
mod same;

pub use crate::finding::places;
pub use crate::mended::with_text;
pub use crate::path::{Path, Step, text_at};
