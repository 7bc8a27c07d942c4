//! What licence expressions mean: the least sets of requirements that make one hold, whether one asks at least what another
//! one asks, how what two of them ask compares, with licences that tell them apart, and the shortest text of what one means,
//! which two have in common exactly if they are equivalent.
//!
//! ```rust
//! // crates/spdx/src/expression/meaning.rt
//! spdx_meaning::is_equivalent(alloc, self.nodes(), other.nodes())
//! ```
//!
//! It stands on the parser, on the evaluation, on `selections` for least sets, and on `spdx_canonical` for its texts.
#![tactic(auto)]

pub mod asks;
pub mod comparison;
pub mod error;
pub mod laws;
pub mod made;
pub mod minimal;
mod places;
pub mod reading;
pub mod relation;
pub mod text;

pub use crate::asks::{asks_at_least, first_unmet, is_equivalent};
pub use crate::comparison::{Comparison, compare_nodes, compare_sets};
pub use crate::error::TooManySets;
pub use crate::minimal::minimal_sets;
pub use crate::reading::{Unmeant, nodes_of};
pub use crate::relation::{Relation, relation_of};
pub use crate::text::meaning_of_text::meaning_of;
pub use crate::text::meaning_text;
