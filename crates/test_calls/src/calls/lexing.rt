// The tokens of texts, and the fault at which a text stops.

use crate::answer::{Answer, fields};
use crate::catalogues::mode_named;
use spdx::Catalogue;
use spdx::error::ParseError;
use spdx::lexer::{Lexer, LexerToken, Token};
use std::alloc::{AllocError, Global};

// An item with its bytes, a licence with its index.
fn put_item(
    shown: &mut String,
    item: Result<LexerToken<'_, '_>, ParseError<'_>>,
) -> Result<(), AllocError> {
    match item {
        Ok(LexerToken { token, span }) => {
            let (start, end) = (span.start, span.end);
            match token {
                Token::Spdx(id) => {
                    let index = id.license().index;
                    write!(shown, "{id:?}#{index} {start}..{end}")
                }
                _ => write!(shown, "{token} {start}..{end}"),
            }
        }
        Err(error) => {
            let (start, end) = (error.span.start, error.span.end);
            write!(shown, "{:?} {start}..{end}", error.reason)
        }
    }
}

/// The items of the text; with no mode, those of `Lexer::new`.
pub(crate) fn items(alloc: Global, catalogue: &Catalogue, given: &str) -> Answer {
    let (mode, text) = fields(given)?;
    let mut lexer = match mode {
        "" => Lexer::new(catalogue, text),
        name => Lexer::new_mode(catalogue, text, mode_named(name)),
    };
    let mut shown = String::new(alloc);
    for item in lexer.by_ref() {
        if !shown.is_empty() {
            shown.push_str("; ")?;
        }
        put_item(&mut shown, item)?;
    }
    Ok(shown)
}
