//! SPDX licence expressions over a catalogue of licences: read, refused with exact spans, written in a canonical
//! text, evaluated, and met by the least choice of licensees.
//!
//! `docs/EXPRESSIONS.md` says what a text means. The headline is the contract of [`Expression::parse_mode`] and
//! [`Expression::canonicalize`].
//!
//! ```rust
//! // crates/spdx_uses/src/gate.rt
//! let expression = Expression::parse(alloc, catalogue, text)?;
//! let mut policy = |req: &LicenseReq<'_>| is_accepted(accepted, req);
//! Ok(expression.evaluate(alloc, &mut policy)?)
//! ```
//!
//! It stands on the layers `spdx_requirement` to `spdx_meaning`, and hands on what users need of them: callers name
//! `spdx` alone.
#![tactic(auto)]

pub mod error;
pub mod expression;

/// The tokens of a text.
pub mod lexer {
    pub use spdx_lexer::lexer::Lexer;
    pub use spdx_lexer::token::{LexerToken, ParseMode, Token};
}

pub use crate::error::{CatalogueError, Error, Failure, MinimizeError, ParseError, ReadFault};
pub use crate::expression::{Expression, ExpressionJudge, minimized_for_all};
pub use selections::{Sufficiency, least_selection};
pub use spdx_catalogue::{
    AdditionItem, AdditionRef, Catalogue, Exception, ExceptionId, ImpreciseName, License,
    LicenseId, LicenseItem, LicenseRef, LicenseReq, flags,
};
pub use spdx_lexer::token::ParseMode;
pub use spdx_licensee::Licensee;
pub use spdx_meaning::TooManySets;
pub use spdx_minimize::AcceptedLicensees;
