//! A page of attributions.

ghost use Rattle.std.specs.Prelude.{◌≡◌, [], ◌∷◌, IfOk, IfErr, map};
ghost use Rattle.spdx.specs.Choice.{choice_of, chosen};
ghost use Rattle.spdx.specs.Errors.{IfParseOrMinimize};
ghost use Rattle.spdx.specs.Items.{requirement_of};
ghost use Rattle.spdx.specs.MinimizeFaults.{refused_choice};
ghost use Rattle.spdx.specs.Modes.{strict};
ghost use Rattle.spdx.specs.Meaning.{IsReadFrom};
ghost use Rattle.spdx.specs.ParserMeaning.{IsRefused};
ghost use Rattle.spdx.specs.Value.{Written};

use spdx::{Catalogue, Error, Expression, LicenseReq, Licensee};
use std::alloc::Global;

/// The licences to name for what comes under this expression: the least choice among the accepted ones.
pub fn named_licenses<'c, 't>(
    alloc: Global,
    catalogue: &'c Catalogue,
    accepted: &[Licensee<'c>],
    text: &'t str,
) -> Result<Vec<LicenseReq<'c>>, Error<'t>>
    ensures ok { IfOk result (λ named. (e : Written) × IsReadFrom catalogue.now strict text.now e
        × (choice_of (e.tree ∷ []) accepted.now ≡ chosen (map requirement_of named.items))) }
    ensures err { IfErr result (IfParseOrMinimize
        (IsRefused catalogue.now strict text.now)
        (λ why. (e : Written) × IsReadFrom catalogue.now strict text.now e
        × (choice_of (e.tree ∷ []) accepted.now ≡ refused_choice why))) }
{
    let expression = Expression::parse(alloc, catalogue, text)?;
    Ok(expression.minimized_requirements(alloc, accepted)?)
}
