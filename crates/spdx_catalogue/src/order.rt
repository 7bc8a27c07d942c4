// The orders of ids, which over one catalogue are those of the names.

ghost use Rattle.std.specs.Prelude.{◌≡◌};
ghost use Rattle.std.specs.Ordering.{nat_cmp};
ghost use Rattle.spdx_requirement.specs.Ids.{id_row, exception_row};
ghost use Rattle.spdx_catalogue.specs.NameOrders.{IsLicenseNameOrder, IsExceptionNameOrder};

use spdx_requirement::id::{ExceptionId, LicenseId};
use std::cmp::Ordering;

/// `cmp` of licence ids: by index, which in one catalogue is the order of the names, byte by byte.
pub fn compare_license_ids(a: LicenseId<'_>, b: LicenseId<'_>) -> Ordering
    ensures index { result ≡ nat_cmp (id_row a.entry).index (id_row b.entry).index }
    ensures names { IsLicenseNameOrder (id_row a.entry) (id_row b.entry) result }
{
    LicenseId::cmp(&a, &b)
}

/// `cmp` of exception ids: by index, which in one catalogue is the order of the names, byte by byte.
pub fn compare_exception_ids(a: ExceptionId<'_>, b: ExceptionId<'_>) -> Ordering
    ensures index { result ≡ nat_cmp (exception_row a.entry).index (exception_row b.entry).index }
    ensures names { IsExceptionNameOrder (exception_row a.entry) (exception_row b.entry) result }
{
    ExceptionId::cmp(&a, &b)
}
