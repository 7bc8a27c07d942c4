//! What is written of a gate's verdicts on packages: for people, in a line, as JSON, as an error of a GitHub workflow, as a
//! log of SARIF, and as a page of HTML.
//!
//! ```rust
//! // crates/gate_told/src/forms.rt
//! Format::Html => put_page(alloc, text, policy, totals, reports),
//! ```
//!
//! It knows nothing of licences, and stands on `foreign_text` and `finding_forms`.
#![tactic(auto)]

mod json_form;
mod known;
mod messages;
mod page;
mod reports;
mod sarif_form;
mod summary;
mod text;
mod totals;

pub use json_form::put_json;
pub use known::put_known;
pub use page::put_page;
pub use reports::{
    Advice, Baseline, Leaf, Mark, Need, Node, Part, Report, Summary, Totals, Verdict, Why,
};
pub use sarif_form::{put_sarif_beginning, put_sarif_ending, put_sarif_result};
pub use summary::put_summary;
pub use text::human::put_human;
pub use text::lines::{put_github, put_short};
pub use text::refusals::put_refusals;
pub use text::tree::put_explained;
pub use totals::{put_totals, put_unused};
