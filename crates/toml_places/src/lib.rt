//! Where the texts of a TOML document stand in its bytes, and the document with another text at such a place.
//!
//! It has no grammar of its own: a simple scan finds the literals, and the reader `toml` says which of them a path means.
//!
//! ```rust
//! // crates/manifests/src/toml_sites.rt
//! let spans = places(alloc, text, &document, found.paths.as_slice())?;
//! ```
//!
//! It stands on `text_places` and `toml`.
#![tactic(auto)]

mod changes;
mod finding;
mod literals;
mod mended;
mod path;
mod same;

pub use crate::finding::places;
pub use crate::mended::with_text;
pub use crate::path::{Path, Step, text_at};
