//! The words of the program `spdx`: what its command line asks for.
//!
//! ```rust
//! // crates/spdx_main/src/main.rt
//! let request: Request<'_> = match read(alloc, version.as_str(), words.as_slice()) {
//! ```
//!
//! It stands on `clap`.
#![tactic(auto)]

mod command;
mod entered;
mod options;
pub mod packages;
pub mod request;
mod requests;
mod unfit;
mod values;
mod words;

pub use crate::packages::request::{
    Accepted, ChangesFormat, ChangesRequest, GateFormat, GateRequest, NoticeRequest, OwnTexts,
    PageFormat, Source, SourceForm,
};
pub use crate::request::{
    CheckRequest, CompareRequest, DiffRequest, FindingFormat, FixRequest, MakeRequest, Request,
    ShowRequest, SimplifyRequest, Wanted,
};
pub use crate::words::read;
