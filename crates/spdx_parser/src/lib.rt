//! The nodes of a licence expression, and the parser that gives them.
//!
//! ```rust
//! // crates/spdx/src/expression/parser.rt
//! let nodes = parse_nodes(alloc, catalogue, text, mode)?;
//! ```
//!
//! It stands on the lexer.
#![tactic(auto)]

mod frames;
mod last;
pub mod law;
pub mod listener;
mod name;
pub mod node;
mod nodes;
pub mod parser;
mod step;
mod unclosed;

pub use crate::listener::Listener;
pub use crate::node::{ExprNode, ExpressionReq, NodeList, Operator};
pub use crate::parser::{parse_heard, parse_nodes};
