//! The tree and the canonical text of a text, by one reading.

ghost use Rattle.std.specs.Prelude.{◌≡◌, ◌⊎◌, List, All, Ok, IfOk, IfErr, map, option_map, string_bytes};
ghost use Rattle.spdx_requirement.specs.Failures.{IfRefused};
ghost use Rattle.spdx_lexer.specs.Layout.{IsPlace};
ghost use Rattle.spdx_lexer.specs.Modes.{strict, lax};
ghost use Rattle.spdx_lexer.specs.Reading.{reading};
ghost use Rattle.spdx_lexer.specs.Words.{Placed, words};
ghost use Rattle.spdx_parser.specs.Meaning.{IsParsed, IsRefused};
ghost use Rattle.spdx_parser.specs.Spans.{requirement_spans};
ghost use Rattle.spdx_canonical.specs.Canonical.{canonical_of, canonical_text, answer_to};

use crate::draft::Draft;
use crate::text::{push_license, push_next};
use spdx_catalogue::{Catalogue, LicenseId};
use spdx_lexer::{Failure, ParseError, ParseMode, Token};
use spdx_parser::{Listener, NodeList, parse_heard};
use std::alloc::{AllocError, Global};

// Each word is written when it is heard, but for a licence, which waits for what follows it.
impl Listener for Draft<'_> {
    ghost use Rattle.spdx_canonical.specs.Draft.{extended};
    ghost use Rattle.spdx_canonical.specs.NextText.{heard_text};

    ghost Hears = { λ old behind word new. new ≡ extended old (heard_text behind word) };

    fn hear(
        &mut self,
        alloc: Global,
        behind: Option<LicenseId<'_>>,
        token: Option<Token<'_, '_>>,
    ) -> Result<(), AllocError> {
        match (behind, token) {
            (_, Some(token)) => push_next(self, alloc, behind, token),
            (Some(id), None) => push_license(self, alloc, id, false),
            (None, None) => Ok(()),
        }
    }
}

/// The nodes of [`spdx_parser::parse_nodes`], and the canonical text of the tokens; `None` where that is the text
/// itself. The tokens are those of the mode, so in `STRICT` and `LAX` it is the answer of
/// [`crate::canonical`]. One reading serves both.
///
/// # Errors
///
/// Those of [`spdx_parser::parse_nodes`]: each text that has nodes has a canonical text.
pub fn parse_canonical<'c, 't>(
    alloc: Global,
    catalogue: &'c Catalogue,
    text: &'t str,
    mode: ParseMode,
) -> Result<(NodeList<'c>, Option<String>), Failure<ParseError<'t>>>
    ensures ok { IfOk result (λ both. IsParsed catalogue.now mode text.now both.0.items) }
    ensures err { IfErr result (IfRefused (λ error. IsRefused catalogue.now mode text.now error)) }
    ensures spans { IfOk result (λ both.
        All (IsPlace text.now) (requirement_spans both.0.items)) }
    ensures written { IfOk result (λ both. (read : List Placed) →
        reading catalogue.now mode 0 text.now ≡ map Ok read →
        answer_to text.now (Ok (canonical_text (words read)))
        ≡ Ok (option_map string_bytes both.1)) }
    ensures canonical { IfOk result (λ both. (mode ≡ strict) ⊎ (mode ≡ lax) →
        answer_to text.now (canonical_of catalogue.now text.now)
        ≡ Ok (option_map string_bytes both.1)) }
{
    let mut draft = Draft::new(text);
    let nodes = parse_heard(alloc, catalogue, text, mode, &mut draft)?;
    let canonical = draft.finish(alloc)?;
    Ok((nodes, canonical))
}
