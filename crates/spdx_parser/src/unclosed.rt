// Where a parenthesis that is left open stands.

ghost use Rattle.std.specs.Prelude.{◌≡◌, ◌<◌, List, Ok, map};
ghost use Rattle.spdx_lexer.specs.Code.{span_of};
ghost use Rattle.spdx_lexer.specs.Reading.{reading};
ghost use Rattle.spdx_lexer.specs.Words.{Placed, words};
ghost use Rattle.spdx_parser.specs.Faults.{IsLastOpen};
ghost use Rattle.spdx_parser.specs.Open.{LeavesOpen};

use spdx_catalogue::Catalogue;
use spdx_lexer::lexer::Lexer;
use spdx_lexer::token::{ParseMode, Token};
use std::ops::Range;

/// The place of the last `(` that is left open, in a text whose tokens leave `count` open. The
/// parser keeps no places, so the text is read once more.
#[cold]
#[inline(never)]
pub fn last_open(catalogue: &Catalogue, text: &str, mode: ParseMode, count: usize) -> Range<usize>
    requires some { 0 < count }
    requires left { (read : List Placed) × (reading catalogue.now mode 0 text.now ≡ map Ok read)
        × LeavesOpen (words read) count }
    ensures { (read : List Placed) → reading catalogue.now mode 0 text.now ≡ map Ok read
        → IsLastOpen read (span_of result) }
{
    let mut place = 0..0;
    let mut depth = 0;
    let mut lexer = Lexer::new_mode(catalogue, text, mode);
    for item in lexer.by_ref() {
        let Ok(found) = item else {
            continue;
        };
        match found.token {
            Token::OpenParen => {
                depth += 1;
                if depth == count {
                    place = found.span;
                }
            }
            Token::CloseParen => depth -= 1,
            _ => {}
        }
    }
    place
}
