//! Verdicts on lines of licence expressions, and the program that gives them.
//!
//! ```rust
//! // crates/spdx_lines_main/src/start.rt
//! Ok(serve(alloc, texts, bytes, &mut input, &mut output, faults))
//! ```
//!
//! It stands on `spdx` and `line_engine`.
#![tactic(auto)]

mod all_lines;
mod answer;
mod each_line;
mod hints;
mod kept;
pub mod lines;
pub mod program;
mod remembered;
mod text;

pub use crate::lines::{LineMode, run, run_all, run_all_in, run_in};
pub use line_engine::device::{Failed, Sink, Source};
pub use line_engine::lines::{RunFault, Summary, write_all};
pub use line_engine::stream::{Input, Output};
