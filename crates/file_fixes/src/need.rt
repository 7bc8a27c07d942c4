// What mends an expression.

ghost use Rattle.std.specs.Prelude.{◌≡◌, IfOk, true, false, string_bytes};
ghost use Rattle.spdx_lexer.specs.Modes.{strict};
ghost use Rattle.spdx_canonical.specs.Fix.{Reads};
ghost use Rattle.file_fixes.specs.ManifestFixing.{mode_of, IsRead};
ghost use Rattle.file_fixes.specs.ManifestNeeds.{IsNeed};

use manifests::{Form, reads_slash};
use spdx_canonical::fix;
use spdx_catalogue::Catalogue;
use spdx_lexer::{Failure, ParseMode};
use spdx_parser::parse_nodes;
use std::alloc::{AllocError, Global};

/// What an expression needs.
#[derive(Drop)]
pub(crate) enum Need {
    /// Nothing: it is not refused.
    Nothing,
    /// Its fix.
    Fix(String),
    /// It is refused, and nothing mends it.
    Help,
}

// How expressions are read in manifests of the form.
fn mode_of(form: Form) -> ParseMode
    ensures { result ≡ mode_of form }
{
    ParseMode {
        allow_slash_as_or_operator: reads_slash(form),
        ..ParseMode::STRICT
    }
}

// Whether a reader of the form's manifests accepts the text.
fn is_read(alloc: Global, catalogue: &Catalogue, form: Form, text: &str) -> Result<bool, AllocError>
    ensures yes { IfOk result (λ is. is ≡ true → Reads catalogue.now (mode_of form) text.now) }
    ensures no { IfOk result (λ is. is ≡ false
        → Reads catalogue.now (mode_of form) text.now → ⊥) }
{
    match parse_nodes(alloc, catalogue, text, mode_of(form)) {
        Ok(_) => Ok(true),
        Err(Failure::Refused(_)) => Ok(false),
        Err(Failure::Memory(error)) => Err(error),
    }
}

/// What an expression needs that a manifest of the form declares. Bytes that are no UTF-8 have no fix.
pub(crate) fn need_of(
    alloc: Global,
    catalogue: &Catalogue,
    form: Form,
    bytes: &[u8],
) -> Result<Need, AllocError>
    ensures { IfOk result (IsNeed catalogue.now form bytes.now) }
{
    let Ok(text) = str::from_utf8(bytes) else {
        return Ok(Need::Help);
    };
    if is_read(alloc, catalogue, form, text)? {
        return Ok(Need::Nothing);
    }
    match fix(alloc, catalogue, text)? {
        Some(fix) => Ok(Need::Fix(fix)),
        None => Ok(Need::Help),
    }
}
