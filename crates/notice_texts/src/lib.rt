//! Texts that are owed to those who get a package: which of its own files they are, which of those files have the same text,
//! and which texts of licences a folder lacks.
//!
//! Of licences it knows their names alone.
//!
//! ```rust
//! let owed = owed_files(alloc, &files, &["MIT", "Apache-2.0"], &["MIT"])?;
//! // of LICENSE-MIT, LICENSE-APACHE and NOTICE these are the first and the last
//! let owed = owed_texts(alloc, &["MIT", "Zlib"], &["MIT.txt", "notes.txt"])?;
//! // owed.missing is ["Zlib"], and owed.unused is ["notes.txt"]
//! ```
//!
//! It stands on nothing but std.
#![tactic(auto)]

mod files;
mod keyed;
pub mod lacking;
mod names;
pub mod owed;
mod paths;
pub mod same_texts;
mod text_words;
mod texts;
mod words;

pub use crate::files::File;
pub use crate::lacking::{Owed, owed_texts};
pub use crate::owed::{is_license_text, is_owed, is_text, owed_files, path_in};
pub use crate::same_texts::shared_texts;
pub use crate::texts::{Holder, OwnText, SharedText};
