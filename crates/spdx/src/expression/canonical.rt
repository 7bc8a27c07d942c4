//! The canonical text of an expression.

ghost use Rattle.std.specs.Prelude.{◌≡◌, IfOk, IfErr, Ok, Err, None, option_map, string_bytes};
ghost use Rattle.spdx_lexer.specs.Faults.{fault_of};
ghost use Rattle.spdx_lexer.specs.Code.{span_of};
ghost use Rattle.spdx_lexer.specs.Layout.{IsPlace};
ghost use Rattle.spdx_canonical.specs.Canonical.{canonical_of, answer_to};
ghost use Rattle.spdx_requirement.specs.Failures.{IfRefused};
ghost use Rattle.spdx_canonical.specs.Law.{CanonicalLaws};

use crate::expression::Expression;
use spdx_catalogue::{Catalogue, Failure};
use spdx_lexer::error::ParseError;
use std::alloc::Global;

impl<'c> Expression<'c> {
    /// The canonical text of the text's tokens, read by `ParseMode::LAX`, or `None` where it is the
    /// text itself: operators in capitals with a space on each side, listed names for caseless and
    /// imprecise ones, and for GNU licences `-only` or `-or-later` (`docs/EXPRESSIONS.md`). Where
    /// `LAX` accepts the text and each licence name that is written is listed and undeprecated,
    /// strict parsing reads the canonical text as the same tree, bare GNU ids made `-only`, and
    /// the canonical text is its own. `laws` says so.
    ///
    /// Nothing of the grammar is tested but that each `+` directly follows a listed licence.
    /// Linear in the number of tokens, besides the look-up of each. Takes no memory where the
    /// answer is `None`.
    ///
    /// # Errors
    ///
    /// `Refused` with the first, in the text, of a fault of the lexer and a misplaced `+`, where
    /// `<license>` was expected; so never for a text that `LAX` accepts. `Memory` where memory was
    /// refused.
    pub fn canonicalize<'t>(
        alloc: Global,
        catalogue: &Catalogue,
        text: &'t str,
    ) -> Result<Option<String>, Failure<ParseError<'t>>>
        ensures answer { IfOk result (λ answer.
            answer_to text.now (canonical_of catalogue.now text.now)
            ≡ Ok (option_map string_bytes answer)) }
        ensures refusal { IfErr result
            (IfRefused (λ error.
            (canonical_of catalogue.now text.now ≡ Err (fault_of error.reason, span_of error.span))
            × (error.original.now ≡ text.now))) }
        ensures place { IfErr result (IfRefused (λ error. IsPlace text.now (span_of error.span))) }
        ensures itself { canonical_of catalogue.now text.now ≡ Ok text.now → result ≡ Ok None }
        ensures laws { CanonicalLaws catalogue.now text.now }
    {
        spdx_canonical::canonical(alloc, catalogue, text)
    }
}
