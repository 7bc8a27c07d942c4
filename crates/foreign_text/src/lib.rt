//! Text that others wrote, as it may stand in what this program writes.
//!
//! A `Sink` is a place where such a text goes: a terminal, a workflow command, a code span, a path of a URI. Each sink obeys
//! some characters in place of showing them. What is written of a text holds none of those, and read back as the sink reads
//! it, it is the text. `html` writes a text into a page.
//!
//! ```rust
//! // crates/gate_forms/src/page/pieces.rt
//! put_text(page, text)?;
//! ```
//!
//! It stands on the kit's tables of Unicode.
#![tactic(auto)]

mod hidden;
pub mod html;
mod names;
mod sinks;

pub use crate::hidden::is_hidden;
pub use crate::names::put_header_name;
pub use crate::sinks::{Sink, put_text, text_for};
