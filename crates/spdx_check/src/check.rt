// How expressions are checked, and how what is wrong with one is written.

ghost use Rattle.std.specs.Prelude.{◌≡◌, ◌++◌, OnOk, OnErr};
ghost use Rattle.finding_forms.specs.Finding.{told};
ghost use Rattle.finding_forms.specs.Forms.{finding_text};
ghost use Rattle.spdx_check.specs.Checking.{spot_of, told_at};
ghost use Rattle.spdx_check.specs.Refusals.{wrong_of};

use crate::refusals::Refusal;
use finding_forms::{Finding, Format, Place, put_finding};
use spdx_catalogue::Catalogue;
use spdx_lexer::token::ParseMode;
use spdx_list::Replacement;
use std::alloc::{AllocError, Global};

/// How expressions are checked.
#[derive(Clone, Copy)]
pub struct Check<'c> {
    pub catalogue: &'c Catalogue,
    /// What to write in place of deprecated names, where there is no fix. Of rows of one name the first counts.
    pub replacements: &'c [Replacement],
    /// How they are read.
    pub mode: ParseMode,
    /// How findings are written.
    pub format: Format,
}

/// Appends what is wrong with an expression that stands there.
pub(crate) fn put_refusal<'t>(
    alloc: Global,
    format: Format,
    is_first: bool,
    place: Place<'t>,
    refusal: &'t Refusal<'_>,
    text: &mut Vec<u8>,
) -> Result<(), AllocError>
    ensures ok { OnOk result (text.new.items ≡ text.old.items ++
        finding_text format is_first (told_at (spot_of place.entry) (wrong_of refusal.now))) }
    ensures err { OnErr result (text.new.items ≡ text.old.items) }
{
    put_finding(alloc, text, format, is_first, &finding_at(place, refusal))
}

/// What is wrong with an expression, told of one that stands there.
pub(crate) fn finding_at<'t>(place: Place<'t>, refusal: &'t Refusal<'_>) -> Finding<'t>
    ensures { told result ≡ told_at (spot_of place.entry) (wrong_of refusal.now) }
{
    refusal.finding(place, None)
}
