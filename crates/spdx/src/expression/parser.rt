//! Expressions read from texts.

ghost use Rattle.std.specs.Prelude.{◌≡◌, ◌⊎◌, List, All, Ok, IfOk, IfErr, map, option_map, string_bytes};
ghost use Rattle.spdx_lexer.specs.Code.{span_of};
ghost use Rattle.spdx_lexer.specs.Layout.{IsPlace};
ghost use Rattle.spdx_lexer.specs.Modes.{strict, lax};
ghost use Rattle.spdx_lexer.specs.Reading.{reading};
ghost use Rattle.spdx_lexer.specs.Words.{Placed, words};
ghost use Rattle.spdx_requirement.specs.Failures.{IfRefused};
ghost use Rattle.spdx_parser.specs.Meaning.{IsRefused};
ghost use Rattle.spdx_canonical.specs.Canonical.{canonical_of, canonical_text, answer_to};
ghost use Rattle.spdx_canonical.specs.NormalLaw.{EachLeaf, IsStrict};
ghost use Rattle.spdx.specs.Meaning.{IsReadFrom, ReadsBack};

use crate::expression::Expression;
use spdx_catalogue::{Catalogue, Failure};
use spdx_lexer::error::ParseError;
use spdx_lexer::token::ParseMode;
use spdx_parser::parse_nodes;
use std::alloc::Global;

impl<'c> Expression<'c> {
    /// The expression that the text means, read strictly: `parse_mode` in `ParseMode::STRICT`. The
    /// printed text of each requirement, read strictly again, is that requirement alone.
    pub fn parse<'t>(
        alloc: Global,
        catalogue: &'c Catalogue,
        text: &'t str,
    ) -> Result<Expression<'c>, Failure<ParseError<'t>>>
        ensures ok { IfOk result (λ expression.
            IsReadFrom catalogue.now strict text.now expression) }
        ensures err { IfErr result (IfRefused (λ error.
            IsRefused catalogue.now strict text.now error)) }
        ensures place { IfErr result (IfRefused (λ error. IsPlace text.now (span_of error.span))) }
        ensures strict { IfOk result (λ expression. IsStrict catalogue.now expression.tree) }
        ensures spans { IfOk result (λ expression. All (IsPlace text.now) expression.spans) }
        ensures back { IfOk result (λ expression.
            EachLeaf (ReadsBack catalogue.now) expression.tree) }
    {
        catalogue.is_well_formed();
        Expression::parse_mode(alloc, catalogue, text, ParseMode::STRICT)
    }

    /// The expression that the text means in this mode: the one tree that the grammar derives from
    /// the text's tokens, with the span of each requirement's licence, in bytes of the text on
    /// boundaries of characters, and the text itself. The grammar is that of SPDX 2.1, appendix IV,
    /// with what the mode allows beyond it; both are in `docs/EXPRESSIONS.md`.
    ///
    /// Linear in the number of tokens, besides the look-up of each.
    ///
    /// # Errors
    ///
    /// `Refused` exactly where the grammar derives no tree, with the fault of the first place, in
    /// bytes of the text on boundaries of characters, at which no accepted list of tokens goes on: a
    /// token, a place that is no token, or the end. `Memory` where memory was refused.
    pub fn parse_mode<'t>(
        alloc: Global,
        catalogue: &'c Catalogue,
        text: &'t str,
        mode: ParseMode,
    ) -> Result<Expression<'c>, Failure<ParseError<'t>>>
        ensures ok { IfOk result (λ expression. IsReadFrom catalogue.now mode text.now expression) }
        ensures err { IfErr result (IfRefused (λ error.
            IsRefused catalogue.now mode text.now error)) }
        ensures place { IfErr result (IfRefused (λ error. IsPlace text.now (span_of error.span))) }
        ensures spans { IfOk result (λ expression. All (IsPlace text.now) expression.spans) }
    {
        catalogue.is_well_formed();
        catalogue.has_text_prefixes();
        let nodes = parse_nodes(alloc, catalogue, text, mode)?;
        let original = String::from_str(alloc, text)?;
        Ok(Expression::from_nodes(original, nodes))
    }

    /// The expression of [`Expression::parse_mode`], and the canonical text of its tokens, or `None`
    /// where that is the text itself. By `STRICT` and `LAX` it is what [`Expression::canonicalize`]
    /// answers; one reading serves both.
    ///
    /// # Errors
    ///
    /// Those of [`Expression::parse_mode`]: every text that means an expression has a canonical text.
    pub fn parse_canonical<'t>(
        alloc: Global,
        catalogue: &'c Catalogue,
        text: &'t str,
        mode: ParseMode,
    ) -> Result<(Expression<'c>, Option<String>), Failure<ParseError<'t>>>
        ensures ok { IfOk result (λ both. IsReadFrom catalogue.now mode text.now both.0) }
        ensures err { IfErr result (IfRefused (λ error.
            IsRefused catalogue.now mode text.now error)) }
        ensures place { IfErr result (IfRefused (λ error. IsPlace text.now (span_of error.span))) }
        ensures spans { IfOk result (λ both. All (IsPlace text.now) both.0.spans) }
        ensures written { IfOk result (λ both. (read : List Placed) →
            reading catalogue.now mode 0 text.now ≡ map Ok read →
            answer_to text.now (Ok (canonical_text (words read)))
            ≡ Ok (option_map string_bytes both.1)) }
        ensures canonical { IfOk result (λ both. (mode ≡ strict) ⊎ (mode ≡ lax) →
            answer_to text.now (canonical_of catalogue.now text.now)
            ≡ Ok (option_map string_bytes both.1)) }
    {
        catalogue.is_well_formed();
        catalogue.has_text_prefixes();
        let (nodes, canonical) = spdx_canonical::parse_canonical(alloc, catalogue, text, mode)?;
        let original = String::from_str(alloc, text)?;
        Ok((Expression::from_nodes(original, nodes), canonical))
    }
}
