// The orders of items and requirements, each as one function with its definition.

ghost use Rattle.std.specs.Prelude.{◌≡◌};
ghost use Rattle.spdx_requirement.specs.Items.{license_reference_of, addition_reference_of, license_of, addition_of, requirement_of};
ghost use Rattle.spdx_requirement.specs.Orders.{reference_cmp, license_cmp, addition_cmp, requirement_cmp};

use crate::item::{AdditionItem, LicenseItem};
use crate::reference::{AdditionRef, LicenseRef};
use crate::requirement::LicenseReq;
use std::cmp::Ordering;

/// `cmp` of licence references: by document, none first, then by name.
pub fn compare_license_refs(a: &LicenseRef, b: &LicenseRef) -> Ordering
    ensures { result ≡ reference_cmp (license_reference_of a.now) (license_reference_of b.now) }
{
    LicenseRef::cmp(a, b)
}

/// `cmp` of addition references: by document, none first, then by name.
pub fn compare_addition_refs(a: &AdditionRef, b: &AdditionRef) -> Ordering
    ensures { result ≡ reference_cmp (addition_reference_of a.now) (addition_reference_of b.now) }
{
    AdditionRef::cmp(a, b)
}

/// `cmp` of licence items.
pub fn compare_licenses(a: &LicenseItem<'_>, b: &LicenseItem<'_>) -> Ordering
    ensures { result ≡ license_cmp (license_of a.now) (license_of b.now) }
{
    LicenseItem::cmp(a, b)
}

/// `cmp` of addition items.
pub fn compare_additions(a: &AdditionItem<'_>, b: &AdditionItem<'_>) -> Ordering
    ensures { result ≡ addition_cmp (addition_of a.now) (addition_of b.now) }
{
    AdditionItem::cmp(a, b)
}

/// `cmp` of requirements.
pub fn compare_requirements(a: &LicenseReq<'_>, b: &LicenseReq<'_>) -> Ordering
    ensures { result ≡ requirement_cmp (requirement_of a.now) (requirement_of b.now) }
{
    LicenseReq::cmp(a, b)
}
