//! What a file's items say of packages: what a package is as it is read, and how texts, lists and objects are found in
//! JSON, each at its place.
//!
//! ```rust
//! // crates/package_sources/src/formats/cyclonedx.rt
//! with_parts(alloc, Parts::List("components"), LEVELS, &item)
//! ```
//!
//! It knows nothing of the language of licences: the text of one is carried on as it stands, or is made of several by
//! the words `OR` and `AND`. `specs/Each` says what it is that all faults of some items are told at once: of each item a value
//! was had, or it has a fault, and both stand in the order of the items. It stands on `foreign_text`.
#![tactic(auto)]

pub mod error;
pub mod item;
pub mod joined;
pub mod json;
pub mod member;
pub mod nested;
pub mod package;
pub mod paths;
pub mod texts;

pub use crate::error::{Found, SourceError, SourceFault};
pub use crate::item::{
    Item, check_object, list_in, list_in_if_any, list_items, list_items_if_any, member_item,
    member_items, member_items_if_any, object_at, object_in, root_item,
};
pub use crate::joined::license_of_all;
pub use crate::json::{found_of, value_of};
pub use crate::member::{license_at, text_if_any, text_of, texts_of};
pub use crate::nested::{Parts, all_with_parts, with_parts};
pub use crate::package::{License, Package, Spot, said};
pub use crate::paths::{file_in, file_within, folder_in};
pub use crate::texts::{copy_of, in_list, is_blank, is_unstated, license_in};
