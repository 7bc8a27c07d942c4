//! What to write in place of deprecated names.

ghost use Rattle.std.specs.Prelude.{IfOk, option_map, string_bytes};
ghost use Rattle.std.specs.Option.{IfSome};
ghost use Rattle.spdx_list.specs.Shown.{shown_extras};
ghost use Rattle.list_told.specs.Replacements.{IsReplacementIf, IsReplacementOf, Succeeds};

use spdx_canonical::fix;
use spdx_catalogue::Catalogue;
use spdx_list::Extras;
use std::alloc::{AllocError, Global};

/// What to write in place of a name, where that is known: what it is mended to, else what the extras say.
///
/// Strict reading takes what a name is mended to, and it is never the name itself.
///
/// # Errors
///
/// Memory was refused.
pub fn replacement(
    alloc: Global,
    catalogue: &Catalogue,
    extras: &Extras,
    name: &str,
) -> Result<Option<String>, AllocError>
    ensures exact { IfOk result (λ replacement. IsReplacementOf catalogue.now
        (shown_extras extras.now) name.now (option_map string_bytes replacement)) }
    ensures other { IfOk result (λ replacement. IfSome replacement (λ other. Succeeds catalogue.now
        (shown_extras extras.now) name.now (string_bytes other))) }
{
    replacement_of(alloc, catalogue, extras, name)
}

fn replacement_of(
    alloc: Global,
    catalogue: &Catalogue,
    extras: &Extras,
    name: &str,
) -> Result<Option<String>, AllocError>
    ensures { IfOk result (λ replacement. IsReplacementOf catalogue.now (shown_extras extras.now)
        name.now (option_map string_bytes replacement)) }
{
    if let Some(mended) = fix(alloc, catalogue, name)? {
        return Ok(Some(mended));
    }
    match extras.replacement(name) {
        Some(other) => Ok(Some(String::from_str(alloc, other)?)),
        None => Ok(None),
    }
}

// The same of a name that is deprecated; any other has none.
pub(crate) fn replacement_if(
    alloc: Global,
    is_deprecated: bool,
    catalogue: &Catalogue,
    extras: &Extras,
    name: &str,
) -> Result<Option<String>, AllocError>
    ensures { IfOk result (λ replacement. IsReplacementIf is_deprecated catalogue.now
        (shown_extras extras.now) name.now (option_map string_bytes replacement)) }
{
    if is_deprecated {
        replacement_of(alloc, catalogue, extras, name)
    } else {
        Ok(None)
    }
}
