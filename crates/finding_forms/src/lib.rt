//! What is written of an expression that is refused: for people, in a line, as JSON, as an error of a GitHub workflow,
//! and as a log of SARIF.
//!
//! ```rust
//! // crates/spdx_check/src/check.rt
//! put_finding(alloc, text, format, is_first, &finding_at(place, refusal))
//! ```
//!
//! It knows nothing of licences, and stands on `foreign_text`.
#![tactic(auto)]

mod findings;
mod forms;
mod json_form;
mod messages;
mod rules;
mod sarif_form;
mod text;
mod total_line;

pub use findings::{Finding, Help, Place, Sight};
pub use forms::{Format, Style, put_beginning, put_ending, put_finding};
pub use json_form::put_json;
pub use sarif_form::{put_sarif_beginning, put_sarif_ending, put_sarif_result};
pub use text::carets::put_human;
pub use text::excerpt::{put_carets_under, put_excerpt_line};
pub use text::frames::{Frame, frame_of};
pub use text::line_forms::{put_github, put_short};
pub use text::paint::{begin_paint, end_paint, put_painted};
pub use total_line::put_totals;
