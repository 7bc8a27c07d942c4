//! The packages that a file lists, and what each says of its licence, in each form that has a name: those of Cargo, npm,
//! Composer, pip, CycloneDX and SPDX 2 are read here, the others by `package_readers`.
//!
//! ```rust
//! // crates/package_files/src/reading.rt
//! packages: packages_at(alloc, &pointers, bytes)?,
//! ```
//!
//! It knows nothing of the language of licences: the text of one is carried on as it stands, or is made of several by
//! the words `OR` and `AND`. It stands on `package_items` and `package_readers`.
#![tactic(auto)]

pub mod form;
mod formats;
pub mod guess;
mod pointer;
mod reading;
mod several;
pub mod sources;
mod texts;

pub use crate::form::{Form, Pointers};
pub use crate::guess::guessed_form;
pub use crate::sources::{packages, packages_at};
pub use package_items::{Found, License, Package, SourceError, SourceFault, Spot};
