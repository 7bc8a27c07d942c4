// The list inside the program, and the commands below `list`.

ghost use Rattle.std.specs.Prelude.{◌≡◌};
ghost use Rattle.spdx_program.specs.Ends as spec;

pub(crate) mod diff;
pub(crate) mod make;
pub(crate) mod show;

use check_program::Inside;
use spdx_known::{EXTRAS, LINES, REPLACEMENTS, VERSION as LIST_VERSION};
use spdx_troubles::Trouble;

/// The version that logs tell.
const VERSION: &str = "0.1.0";

/// The version of the list inside the program.
pub fn known_version() -> &'static str
    ensures { result.now ≡ LIST_VERSION.now }
{
    LIST_VERSION
}

/// What the program has inside.
pub fn inside() -> Inside<'static>
    ensures list { result.list.list.now ≡ LINES.now }
    ensures extras { result.list.extras.now ≡ EXTRAS.now }
    ensures replacements { result.replacements.now ≡ REPLACEMENTS.now }
    ensures version { result.version.now ≡ VERSION.now }
{
    Inside {
        list: list_program::Inside {
            list: LINES,
            extras: EXTRAS.as_bytes(),
        },
        replacements: REPLACEMENTS.as_bytes(),
        version: VERSION,
    }
}

/// A command that answers no status ends with 0.
pub(crate) fn passed(end: Result<(), Trouble>) -> Result<u8, Trouble>
    ensures { result ≡ spec.passed end }
{
    match end {
        Ok(()) => Ok(0),
        Err(trouble) => Err(trouble),
    }
}
