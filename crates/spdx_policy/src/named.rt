// Entries that name licences.

ghost use Rattle.std.specs.Prelude.{◌≡◌};
ghost use Rattle.spdx_requirement.specs.Items.{requirement_of};
ghost use Rattle.spdx_policy.specs.Decisions as spec;
ghost use Rattle.spdx_policy.specs.Named.{named_row};

use spdx_licensee::{stands_for, stands_for_license};
use spdx_requirement::requirement::LicenseReq;

/// An entry of a list: the text of the file, and what the requirement means that it names.
#[derive(Drop)]
pub(crate) struct Named<'c> {
    pub text: String,
    pub sense: LicenseReq<'c>,
}

impl Named<'_> {
    /// Whether it stands for the licence with its addition.
    pub(crate) fn names(&self, way: &LicenseReq<'_>) -> bool
        ensures { result ≡ spec.names (requirement_of way.now) (named_row self.now) }
    {
        stands_for(&self.sense, way)
    }

    /// Whether it denies the licence with its addition: it stands for that, or, where this counts,
    /// for the licence alone.
    pub(crate) fn denies(&self, exposed: bool, way: &LicenseReq<'_>) -> bool
        ensures { result ≡ spec.entry_denies exposed (requirement_of way.now)
            (named_row self.now) }
    {
        self.names(way) || exposed && stands_for_license(&self.sense, &way.license)
    }
}
