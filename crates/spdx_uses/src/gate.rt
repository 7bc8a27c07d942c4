//! A gate over dependencies.

ghost use Rattle.std.specs.Prelude.{◌≡◌, IfOk, IfErr};
ghost use Rattle.spdx.specs.Choice.{holds};
ghost use Rattle.spdx.specs.Errors.{IfParse};
ghost use Rattle.spdx.specs.Items.{requirement_of};
ghost use Rattle.spdx.specs.Modes.{strict};
ghost use Rattle.spdx.specs.Meaning.{IsReadFrom};
ghost use Rattle.spdx.specs.ParserMeaning.{IsRefused};
ghost use Rattle.spdx.specs.Value.{Written};
ghost use Rattle.spdx_uses.specs.Policy.{accepts};

use spdx::{Catalogue, Error, Expression, LicenseReq, Licensee};
use std::alloc::Global;

/// Whether what comes under this expression may be used by one who accepts these licences.
pub fn may_use<'t>(
    alloc: Global,
    catalogue: &Catalogue,
    accepted: &[Licensee<'_>],
    text: &'t str,
) -> Result<bool, Error<'t>>
    ensures ok { IfOk result (λ may. (e : Written) × IsReadFrom catalogue.now strict text.now e
        × (may ≡ holds (accepts accepted.now) e.tree)) }
    ensures err { IfErr result (IfParse (IsRefused catalogue.now strict text.now)) }
{
    let expression = Expression::parse(alloc, catalogue, text)?;
    let mut policy = |req: &LicenseReq<'_>| is_accepted(accepted, req);
    Ok(expression.evaluate(alloc, &mut policy)?)
}

/// Whether some accepted licence satisfies the requirement.
pub fn is_accepted(accepted: &[Licensee<'_>], req: &LicenseReq<'_>) -> bool
    ensures { result ≡ accepts accepted.now (requirement_of req.now) }
{
    accepted.iter().any(|licensee| licensee.satisfies(req))
}
