//! Where the licence expressions stand in manifests that are lines of fields, or elements: of RPM, Alpine, Arch, Python, Ruby,
//! Haskell, OCaml, AppStream, NuGet and others.
//!
//! It reads no expression: it gives their places, and writes another text there.
//!
//! ```rust
//! for site in plain_sites(alloc, form, bytes)? {
//! ```
//!
//! It stands on `text_places`.
#![tactic(auto)]

mod form;
mod grammar;
mod places;
mod sites;

pub use crate::form::{PlainForm, plain_form_named, plain_form_of};
pub use crate::sites::{PlainSite, plain_sites, with_plain_text};
