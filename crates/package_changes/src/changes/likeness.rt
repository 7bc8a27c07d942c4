// What has to be the same of two packages that belong together.

ghost use Rattle.std.specs.Prelude.{◌≡◌};
ghost use Rattle.package_changes.specs.Rows.{row_of};
ghost use Rattle.package_changes.specs.Order.{front_cmp, rest_cmp, row_cmp};

use crate::package::Package;
use std::cmp::Ordering;

/// What has to be the same.
#[derive(Clone, Copy)]
pub(crate) enum Likeness {
    /// Name, version and license.
    Same,
    /// Name and version.
    Version,
    /// Name and license.
    License,
    Name,
}

impl Likeness {
    /// By what has to be the same.
    pub(crate) fn front(self, one: &Package<'_>, other: &Package<'_>) -> Ordering
        ensures { result ≡ front_cmp self (row_of one.now) (row_of other.now) }
    {
        let names = one.name.cmp(other.name);
        match self {
            Likeness::Same => {
                names.then(
                    one.version
                        .cmp(other.version)
                        .then(one.license.cmp(other.license)),
                )
            }
            Likeness::Version => names.then(one.version.cmp(other.version)),
            Likeness::License => names.then(one.license.cmp(other.license)),
            Likeness::Name => names,
        }
    }

    fn rest(self, one: &Package<'_>, other: &Package<'_>) -> Ordering
        ensures { result ≡ rest_cmp self (row_of one.now) (row_of other.now) }
    {
        match self {
            Likeness::Same => Ordering::Equal,
            Likeness::Version => one.license.cmp(other.license),
            Likeness::License => one.version.cmp(other.version),
            Likeness::Name => one
                .version
                .cmp(other.version)
                .then(one.license.cmp(other.license)),
        }
    }

    /// By what has to be the same, then by what else they say.
    pub(crate) fn compare(self, one: &Package<'_>, other: &Package<'_>) -> Ordering
        ensures { result ≡ row_cmp self (row_of one.now) (row_of other.now) }
    {
        self.front(one, other).then(self.rest(one, other))
    }
}
