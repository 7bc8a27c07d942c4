// When SPDX released a list.

ghost use Rattle.std.specs.Prelude.{◌≡◌, IfOk, option_map, string_bytes};
ghost use Rattle.spdx_list.specs.Dates as spec;
ghost use Rattle.spdx_list.specs.Dates.{released_in};

use crate::error::File;
use crate::json::{text_at, value_of};
use spdx_requirement::failure::Failure;
use std::alloc::{AllocError, Global};

/// The day on which SPDX released the list of this `licenses.json`: what its member `releaseDate` says before the time of day.
/// None where there is no such text, or the bytes are no JSON.
pub fn release_date(alloc: Global, licenses: &[u8]) -> Result<Option<String>, AllocError>
    ensures { IfOk result (λ date. option_map string_bytes date ≡ released_in licenses.now) }
{
    let value = match value_of(alloc, File::Licenses, licenses) {
        Ok(value) => value,
        Err(Failure::Refused(_)) => return Ok(None),
        Err(Failure::Memory(error)) => return Err(error),
    };
    match text_at(&value, "releaseDate") {
        Some(moment) => Ok(Some(String::from_str(alloc, day_of(moment))?)),
        None => Ok(None),
    }
}

// What stands before the time of day, which begins with a T.
fn day_of(moment: &str) -> &str
    ensures { result.now ≡ spec.day_of moment.now }
{
    match moment.split_once('T') {
        Some((day, _)) => day,
        None => moment,
    }
}
