//! Which texts are owed with packages, over a shelf of files: those that they have of their own, where each lies and what it
//! holds; and general texts of licences, what the files of a folder hold of those that packages lack.
//!
//! ```rust
//! // crates/notice_program/src/page.rt
//! let own = all_own_files(alloc, shelf, reading_of(request), placed)?;
//! ```
//!
//! Nothing is read out of a package's folder: `within` reads those files alone that stand within a folder, links followed, and
//! `plain` says how a text is shown. It stands on `shelves`, `notice_texts`, `notice_told` and `package_files`.
#![tactic(auto)]

pub mod all;
pub mod held;
pub mod home;
mod license_files;
mod names;
pub mod own;
pub mod plain;
pub mod trouble;
pub mod within;

pub use crate::all::{AllOwn, all_own_files};
pub use crate::held::{HeldText, HeldTexts, TextFolder, texts_in};
pub use crate::home::{Folders, OwnTexts};
pub use crate::own::{OwnFiles, Placed, ReadFile, Reading, own_files};
pub use crate::plain::plain_if;
pub use crate::trouble::{Obstacle, TextTrouble, is_not_found, trouble_at, unreadable};
pub use crate::within::{bytes_within, check_inside};
