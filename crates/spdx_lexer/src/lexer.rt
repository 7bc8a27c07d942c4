// The tokens of a text, one after another.

ghost use Rattle.std.specs.Prelude.{◌≡◌, ◌≤◌, ◌<◌, ◌&&◌, length, IsTrue};
ghost use Rattle.spdx_catalogue.specs.RowRules.{is_well_formed};
ghost use Rattle.spdx_lexer.specs.Text.{begins_plus, IsRunLeft};

use crate::error::{ParseError, Reason};
use crate::lexeme::lexeme;
use crate::run::{run_at, skip_white};
pub use crate::token::{LexerToken, ParseMode, Token};
use spdx_catalogue::Catalogue;

// Whether a `+` stands behind white space.
fn is_separated_plus(spaced: bool, rest: &str) -> bool
    requires { 0 < length rest.now }
    ensures { result ≡ (spaced && begins_plus rest.now) }
{
    spaced && rest.as_bytes()[0] == b'+'
}

/// The tokens of a text up to its end, or up to its first fault, which is the last item then. The
/// rules are those of `docs/EXPRESSIONS.md`.
///
/// Each call reads on from where the call before stopped, and takes no memory. A text is read in
/// time linear in its length: a word is looked for by a key of its bytes, so that the number of
/// the catalogue's rows counts for little.
#[derive(Drop)]
pub struct Lexer<'c, 't> {
    catalogue: &'c Catalogue,
    mode: ParseMode,
    text: &'t str,
    // what is left, up to the end of the text
    rest: &'t str,
    // the length of the run at its front, or 0 where that is not known yet
    run: usize,
    ghost well_formed: { IsTrue (is_well_formed catalogue.now) },
    ghost within: { length rest.now ≤ length text.now },
    ghost run_left: { IsRunLeft run rest.now },
}

impl<'c, 't> Lexer<'c, 't> {
    ghost use Rattle.spdx_lexer.specs.Modes.{strict};
    ghost use Rattle.spdx_lexer.specs.Reading.{reading};
    ghost use Rattle.spdx_lexer.specs.Remainder.{items_left, source_of};
    ghost use Rattle.spdx_lexer.specs.Layout.{AreLaid, IsPlace, place_of};
    ghost use Rattle.std.specs.List.{All};

    /// The tokens of the text in the strict form.
    pub fn new(catalogue: &'c Catalogue, text: &'t str) -> Self
        ensures items { items_left result ≡ reading catalogue.now strict 0 text.now }
        ensures bound { length (items_left result) ≤ length text.now }
        ensures laid { AreLaid catalogue.now strict text.now 0 (items_left result) }
        ensures places { All (λ item. IsPlace text.now (place_of item)) (items_left result) }
        ensures text { source_of result ≡ text.now }
    {
        Lexer::new_mode(catalogue, text, ParseMode::STRICT)
    }

    /// The tokens of the text, with what the mode allows beyond the strict form. There are no more
    /// items than the text has bytes.
    pub fn new_mode(catalogue: &'c Catalogue, text: &'t str, mode: ParseMode) -> Self
        ensures items { items_left result ≡ reading catalogue.now mode 0 text.now }
        ensures bound { length (items_left result) ≤ length text.now }
        ensures laid { AreLaid catalogue.now mode text.now 0 (items_left result) }
        ensures places { All (λ item. IsPlace text.now (place_of item)) (items_left result) }
        ensures text { source_of result ≡ text.now }
    {
        catalogue.is_well_formed();
        catalogue.has_text_prefixes();
        Lexer {
            catalogue,
            mode,
            text,
            rest: text,
            run: 0,
        }
    }
}

impl<'c, 't> Iterator for Lexer<'c, 't> {
    ghost use Rattle.std.specs.Prelude.{⊤, IfSome, IfErr};
    ghost use Rattle.std.specs.Iterator.{YieldsFirstBy, MakesProgress, item_count};
    ghost use Rattle.spdx_lexer.specs.Code.{item_of};
    ghost use Rattle.spdx_lexer.specs.Remainder.{items_left, source_of};

    type Item = Result<LexerToken<'c, 't>, ParseError<'t>>;

    ghost next_gives = { YieldsFirstBy item_of items_left };

    ghost remaining = { item_count items_left };

    /// The next token, or the fault at which the text stops; then the end.
    fn next(&mut self) -> Option<Self::Item>
        ensures steps { YieldsFirstBy item_of items_left self.old result self.new }
        ensures goes { MakesProgress (λ _. ⊤) (item_count items_left) self.old result self.new }
        ensures text { source_of self.new ≡ source_of self.old }
        ensures original { IfSome result (λ item.
            IfErr item (λ e. e.original.now ≡ source_of self.old)) }
    {
        let before = self.text.len() - self.rest.len();
        let rest = skip_white(self.rest);
        let from = self.text.len() - rest.len();
        let known = if before < from { 0 } else { self.run };
        self.rest = "";
        self.run = 0;
        if rest.is_empty() {
            return None;
        }
        if is_separated_plus(before < from, rest) {
            return Some(Err(ParseError {
                original: self.text,
                span: before..from,
                reason: Reason::SeparatedPlus,
            }));
        }
        let run = run_at(rest, known);
        match lexeme(self.catalogue, self.mode, rest, run) {
            Ok((token, len)) => {
                self.rest = &rest[len..];
                self.run = run.len().saturating_sub(len);
                Some(Ok(LexerToken {
                    token,
                    span: from..from + len,
                }))
            }
            Err((reason, len)) => Some(Err(ParseError {
                original: self.text,
                span: from..from + len,
                reason,
            })),
        }
    }
}
