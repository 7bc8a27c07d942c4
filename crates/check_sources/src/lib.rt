//! What is wrong with the licence expressions of a source file or a manifest, told where they are written: each place with its
//! line, its column, and what is shown of that line round it; what a check counts and how it ends; and which licence texts
//! the expressions of a folder need.
//!
//! ```rust
//! // crates/check_files/src/parts.rt
//! let found = check_tags(alloc, check, sums.is_clean(), source)?;
//! ```
//!
//! It stands on `license_tags` and `manifests`, which say where the expressions are, and on `spdx_check`, which says what is
//! wrong with each; and on `notice_texts`.
#![tactic(auto)]

pub mod counting;
mod cursor;
pub mod decoding;
mod findings;
mod line_excerpt;
pub mod needs;
pub mod owed;
pub mod sums;
pub mod untagged;

pub use crate::counting::counted;
pub use crate::cursor::Cursor;
pub use crate::decoding::{bytes_or, utf16_text, without_mark};
pub use crate::findings::declared::{CheckedManifest, check_manifest, mode_in, reason_text};
pub use crate::findings::tags::{check_tags, is_binary};
pub use crate::findings::written::slice_in;
pub use crate::findings::{Findings, Source};
pub use crate::line_excerpt::LineExcerpt;
pub use crate::needs::needed_by;
pub use crate::owed::{Whole, owed_by, put_wholes, without_license};
pub use crate::sums::{Sums, summary_of};
pub use crate::untagged::{is_text, needs_none};
