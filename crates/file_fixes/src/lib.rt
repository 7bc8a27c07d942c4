//! What becomes of the bytes of a file whose licence expressions are mended: of its lines, or of what it declares as a manifest,
//! behind a byte order mark, and then of its tags. Expressions are replaced by their fixes, and nothing else.
//!
//! ```rust
//! // crates/fix_program/src/file.rt
//! match mended_of(alloc, catalogue, parts, content) {
//! ```
//!
//! It stands on `spdx_canonical`, and on `spdx_check`, `check_sources`, `license_tags` and `manifests`, which say where the
//! expressions are.
#![tactic(auto)]

mod fixed;
mod fixing;
mod manifest_mending;
pub mod mended;
mod mending;
mod need;
mod spans;

pub use crate::fixed::fix_manifest;
pub use crate::fixing::{fix_lines, fix_tags};
pub use crate::mended::{Content, ManifestFault, MendError, Outcome, Parts, mended_of};
pub use crate::mending::fix_all;

/// Where an expression stands in a text: from `start` up to `end`, in bytes.
#[derive(Clone, Copy, PartialEq, Eq, Debug)]
pub struct Span {
    pub start: usize,
    pub end: usize,
}

/// A mended text, where its expressions stand, and how many of them were replaced.
#[derive(Drop, Debug)]
pub struct MendedText {
    pub bytes: Vec<u8>,
    pub spans: Vec<Span>,
    pub count: usize,
}

/// What becomes of a text.
#[derive(Drop, Debug)]
pub struct FixedText {
    /// Its bytes with the fixes, where some expression is replaced.
    pub bytes: Option<Vec<u8>>,
    /// Whether an expression is left that strict reading refuses.
    pub is_left: bool,
}

/// What becomes of a manifest.
#[derive(Drop, Debug)]
pub struct FixedManifest {
    /// Its bytes with the fixes, where some expression is replaced.
    pub bytes: Option<Vec<u8>>,
    /// Whether a declared expression is left that is refused.
    pub is_left: bool,
}
