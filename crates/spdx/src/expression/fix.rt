//! The mended text of an expression.

ghost use Rattle.std.specs.Prelude.{IfOk, option_map, string_bytes};
ghost use Rattle.std.specs.Option.{IfSome};
ghost use Rattle.spdx_canonical.specs.Fix.{IsFixOf, FixLaws};

use crate::expression::Expression;
use spdx_catalogue::Catalogue;
use std::alloc::{AllocError, Global};

impl<'c> Expression<'c> {
    /// What to write in place of a text that strict parsing refuses: its canonical text, where `LAX`
    /// accepts the text and strict parsing accepts what is written; else `None`.
    ///
    /// The fix has none itself. Where each of its licence names is listed and undeprecated, it means
    /// the same tree, bare GNU licences made `-only` (`laws`). Linear in the number of tokens, besides
    /// their look-up; the text is read up to four times.
    ///
    /// # Errors
    ///
    /// Memory was refused.
    pub fn fix(
        alloc: Global,
        catalogue: &Catalogue,
        text: &str,
    ) -> Result<Option<String>, AllocError>
        ensures answer { IfOk result (λ fix.
            IsFixOf catalogue.now text.now (option_map string_bytes fix)) }
        ensures laws { IfOk result (λ fix. IfSome fix (λ mended.
            FixLaws catalogue.now text.now (string_bytes mended))) }
    {
        spdx_canonical::fix(alloc, catalogue, text)
    }
}
