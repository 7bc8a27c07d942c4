//! The tokens of an SPDX licence expression, and the faults of a text.
//!
//! ```rust
//! // crates/spdx_bench/src/calls.rt
//! let mut lexer = Lexer::new_mode(catalogue, text, mode);
//! for _ in lexer.by_ref() {
//! ```
//!
//! It stands on `spdx_catalogue`.
#![tactic(auto)]

pub mod error;
mod lexeme;
pub mod lexer;
mod reference;
mod run;
pub mod token;

pub use crate::error::{Failure, ParseError, Reason};
pub use crate::lexer::Lexer;
pub use crate::token::{LexerToken, ParseMode, Token};
