//! By a policy: one choice for all of some packages, each of which is allowed requirements of its own, and what each of them
//! is then used under.
//!
//! A requirement of an expression is named by its number: how many stand before it in the text.

mod asking;
mod joint;
mod judge;
mod members;
mod offer;
mod question;

pub use crate::allowed::joint::{Joint, choice_for_all};
pub use crate::allowed::offer::Offer;
