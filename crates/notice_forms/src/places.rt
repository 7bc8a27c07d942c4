// In which groups, and below which texts, each package stands.

ghost use Rattle.std.specs.Prelude.{◌≡◌, IfOk, map};
ghost use Rattle.license_notice.specs.Notices.{bands_of};
ghost use Rattle.license_notice.specs.Places.{ArePlaces};
ghost use Rattle.notice_forms.specs.Told.{named};

use crate::pages::LicenseText;
use license_notice::{Group, Places, places_in};
use std::alloc::{AllocError, Global};

/// In which groups each package stands.
pub(crate) fn group_places<'t>(
    alloc: Global,
    groups: &[Group<'t>],
) -> Result<Places<'t>, AllocError>
    ensures { IfOk result (λ places.
        ArePlaces (map (λ b. b.lines) (bands_of groups.now)) places) }
{
    let mut lists = Vec::new(alloc);
    for group in groups {
        lists.push(group.packages.as_slice())?;
    }
    places_in(alloc, &lists)
}

/// Below which texts each package stands.
pub(crate) fn text_places<'t>(
    alloc: Global,
    texts: &[LicenseText<'_, 't>],
) -> Result<Places<'t>, AllocError>
    ensures { IfOk result (λ places.
        ArePlaces (map (λ t. t.lines) (map named texts.now)) places) }
{
    let mut lists = Vec::new(alloc);
    for text in texts {
        lists.push(text.packages)?;
    }
    places_in(alloc, &lists)
}
