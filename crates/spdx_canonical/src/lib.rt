//! The canonical text of a licence expression, its normal text, and its fix. The canonical text is read strictly as the same
//! tree, and is its own canonical text; the normal one has as few parentheses as the tree allows; the fix is what a text that
//! strict parsing refuses is mended to.
//!
//! ```rust
//! // crates/spdx/src/expression/canonical.rt
//! spdx_canonical::canonical(alloc, catalogue, text)
//! ```
//!
//! It stands on the lexer and the parser.
#![tactic(auto)]

mod draft;
mod fixing;
pub mod normal;
pub mod parsed;
mod piece;
mod plan;
pub mod text;

pub use crate::fixing::{fix, fix_of_refused};
pub use crate::normal::normal_text;
pub use crate::parsed::parse_canonical;
pub use crate::text::canonical;
