//! A linter of manifests.

ghost use Rattle.std.specs.Prelude.{◌≡◌, IfOk, IfErr, Ok, string_bytes};
ghost use Rattle.std.specs.Option.{option_map_or};
ghost use Rattle.spdx.specs.Canonical.{canonical_of};
ghost use Rattle.spdx.specs.Errors.{IfParse};
ghost use Rattle.spdx.specs.Modes.{lax};
ghost use Rattle.spdx.specs.Meaning.{IsReadFrom};
ghost use Rattle.spdx.specs.ParserMeaning.{IsRefused};
ghost use Rattle.spdx.specs.Value.{Written};

use spdx::{Catalogue, Error, Expression, ParseMode};
use std::alloc::Global;

/// What a manifest says better in place of this text, or `None` where it is as it should be.
pub fn better_text<'t>(
    alloc: Global,
    catalogue: &Catalogue,
    text: &'t str,
) -> Result<Option<String>, Error<'t>>
    ensures read { IfOk result (λ _. (e : Written) × IsReadFrom catalogue.now lax text.now e) }
    ensures better { IfOk result (λ better.
        canonical_of catalogue.now text.now ≡ Ok (option_map_or string_bytes better text.now)) }
    ensures err { IfErr result (IfParse (IsRefused catalogue.now lax text.now)) }
{
    let (_, better) = Expression::parse_canonical(alloc, catalogue, text, ParseMode::LAX)?;
    Ok(better)
}
