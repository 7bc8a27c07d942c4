//! What `spdx notice` writes of packages with their choices and their own files, and what is missing.
//!
//! Each package stands under the requirements of its choice. Of its own files exactly those stand on the page that are owed
//! under it, each text once with all packages that have it; general texts stand in for those that a package lacks.
//!
//! ```rust
//! // crates/notice_program/src/page.rt
//! match notice_text(alloc, look_of(request), noted, &general) {
//! ```
//!
//! `owed_of` says which files of a package need to be read, and `all_lacks` which general texts. It stands on `notice_texts`,
//! `license_notice` and `notice_forms`, and reads nothing itself.
#![tactic(auto)]

mod lacks;
mod owns;
mod packages;
pub mod page;
mod texts;
mod totals;

pub use crate::lacks::{GeneralText, Lack, all_lacks};
pub use crate::owns::owed_of;
pub use crate::packages::{OwnFile, Package};
pub use crate::page::{Look, NoticeFault, NoticeText, TITLE, Totals, notice_text};
pub use crate::totals::totals_line;
