//! The mended text of a licence expression that strict parsing refuses.

ghost use Rattle.std.specs.Prelude.{◌≡◌, IfOk, true, false, option_map, string_bytes};
ghost use Rattle.std.specs.Option.{IfSome};
ghost use Rattle.spdx_lexer.specs.Modes.{strict};
ghost use Rattle.spdx_canonical.specs.Fix.{Reads, IsFixOf, FixLaws};

use crate::text::canonical;
use spdx_catalogue::Catalogue;
use spdx_lexer::{Failure, ParseMode};
use spdx_parser::parse_nodes;
use std::alloc::{AllocError, Global};

/// The fix of a text: there is one exactly where strict parsing refuses the text, `LAX` accepts it, and
/// strict parsing accepts its canonical text, which is the fix.
///
/// It needs no fix itself. Where each of its licence names is listed and undeprecated it means the
/// same tree, bare GNU licences made `-only`. Linear in the number of tokens, besides their look-up.
///
/// # Errors
///
/// Memory was refused.
pub fn fix(alloc: Global, catalogue: &Catalogue, text: &str) -> Result<Option<String>, AllocError>
    ensures answer { IfOk result (λ fix.
        IsFixOf catalogue.now text.now (option_map string_bytes fix)) }
    ensures laws { IfOk result (λ fix. IfSome fix (λ mended.
        FixLaws catalogue.now text.now (string_bytes mended))) }
{
    if accepts(alloc, catalogue, text, ParseMode::STRICT)? {
        return Ok(None);
    }
    fix_of_refused(alloc, catalogue, text)
}

/// The fix of a text of which it is known that strict parsing refuses it: the answer of [`fix`], without the reading that tells
/// so. A text that strict parsing accepts is not for this call: it may be given another spelling of it.
///
/// Linear in the number of tokens, besides their look-up.
///
/// # Errors
///
/// Memory was refused.
pub fn fix_of_refused(
    alloc: Global,
    catalogue: &Catalogue,
    text: &str,
) -> Result<Option<String>, AllocError>
    ensures answer { IfOk result (λ fix. (Reads catalogue.now strict text.now → ⊥) →
        IsFixOf catalogue.now text.now (option_map string_bytes fix)) }
    ensures laws { IfOk result (λ fix. IfSome fix (λ mended.
        FixLaws catalogue.now text.now (string_bytes mended))) }
{
    if !accepts(alloc, catalogue, text, ParseMode::LAX)? {
        return Ok(None);
    }
    match canonical(alloc, catalogue, text) {
        Ok(Some(mended)) if accepts(alloc, catalogue, mended.as_str(), ParseMode::STRICT)? => {
            Ok(Some(mended))
        }
        // A text that `LAX` accepts has a canonical one.
        Ok(_) | Err(Failure::Refused(_)) => Ok(None),
        Err(Failure::Memory(error)) => Err(error),
    }
}

// Whether a reader in this mode accepts the text.
fn accepts(
    alloc: Global,
    catalogue: &Catalogue,
    text: &str,
    mode: ParseMode,
) -> Result<bool, AllocError>
    ensures yes { IfOk result (λ is. is ≡ true → Reads catalogue.now mode text.now) }
    ensures no { IfOk result (λ is. is ≡ false → Reads catalogue.now mode text.now → ⊥) }
{
    match parse_nodes(alloc, catalogue, text, mode) {
        Ok(_) => Ok(true),
        Err(Failure::Refused(_)) => Ok(false),
        Err(Failure::Memory(error)) => Err(error),
    }
}
