// How a command ends.

ghost use Rattle.std.specs.Prelude.{◌≡◌};
ghost use Rattle.spdx_program.specs.Ends as spec;

use spdx_troubles::Trouble;

/// How a command ended.
#[derive(Drop)]
pub struct Ended {
    pub status: u8,
    /// The line of totals that is told last, where there is one.
    pub totals: Option<String>,
}

/// The end of a command without a line of totals.
pub(crate) fn alone(end: Result<u8, Trouble>) -> Result<Ended, Trouble>
    ensures { result ≡ spec.alone end }
{
    match end {
        Ok(status) => Ok(Ended {
            status,
            totals: None,
        }),
        Err(trouble) => Err(trouble),
    }
}
