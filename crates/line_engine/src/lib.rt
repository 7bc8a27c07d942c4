//! Reads lines from a device, and writes an answer to each of them to another device.
//!
//! The rule by which a line is answered is the user's: an implementation of [`verdicts::Verdicts`]. A device is a
//! [`device::Source`] or a [`device::Sink`]; [`stream::Input`] and [`stream::Output`] make them of std's readers
//! and writers.
//!
//! ```rust
//! // crates/spdx_lines/src/lines.rt
//! let mut each = EachLine::new(alloc, catalogue, mode, accepted);
//! engine::run(alloc, &mut each, input, output)
//! ```
//!
//! It stands on `memchr` alone, and knows nothing of licences.
#![tactic(auto)]

pub mod device;
pub mod lines;
pub mod stream;
#[cfg(test)]
mod tests;
pub mod verdicts;
