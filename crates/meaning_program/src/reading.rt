// How texts are read.

ghost use Rattle.std.specs.Prelude.{◌≡◌, IfOk, string_bytes};
ghost use Rattle.meaning_program.specs.Reading as spec;

use spdx_canonical::canonical;
use spdx_catalogue::{Catalogue, Failure};
use spdx_lexer::ParseMode;
use std::alloc::{AllocError, Global};

// How expressions are read.
pub(crate) fn mode_by(is_lax: bool) -> ParseMode
    ensures { result ≡ spec.mode_by is_lax }
{
    if is_lax {
        ParseMode::LAX
    } else {
        ParseMode::STRICT
    }
}

// The text as it is read.
pub(crate) fn read_as(
    alloc: Global,
    catalogue: &Catalogue,
    is_lax: bool,
    text: &str,
) -> Result<String, AllocError>
    ensures { IfOk result (λ read. string_bytes read ≡ spec.read_as catalogue.now is_lax text.now) }
{
    if !is_lax {
        return String::from_str(alloc, text);
    }
    match canonical(alloc, catalogue, text) {
        Ok(Some(canonical)) => Ok(canonical),
        Ok(None) | Err(Failure::Refused(_)) => String::from_str(alloc, text),
        Err(Failure::Memory(error)) => Err(error),
    }
}
