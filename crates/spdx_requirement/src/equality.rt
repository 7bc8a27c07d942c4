// Equality of items and requirements, each as one function with its key.

ghost use Rattle.std.specs.Prelude.{◌≡◌, ◌↔◌, IsTrue, option_map};
ghost use Rattle.std.specs.Option.{option_eq};
ghost use Rattle.spdx_requirement.specs.Equality.{same_addition, same_requirement};
ghost use Rattle.spdx_requirement.specs.Items.{license_reference_of, addition_reference_of, license_of, addition_of, requirement_of};
ghost use Rattle.spdx_requirement.specs.Keys.{license_key, addition_key, requirement_key};

use crate::item::{AdditionItem, LicenseItem};
use crate::reference::{AdditionRef, LicenseRef};
use crate::requirement::LicenseReq;

/// `==` of licence references: of the same document and name.
pub fn are_same_license_ref(a: &LicenseRef, b: &LicenseRef) -> bool
    ensures { IsTrue result ↔ (license_reference_of a.now ≡ license_reference_of b.now) }
{
    LicenseRef::eq(a, b)
}

/// `==` of addition references: of the same document and name.
pub fn are_same_addition_ref(a: &AdditionRef, b: &AdditionRef) -> bool
    ensures { IsTrue result ↔ (addition_reference_of a.now ≡ addition_reference_of b.now) }
{
    AdditionRef::eq(a, b)
}

/// `==` of licence items.
pub fn are_same_license(a: &LicenseItem<'_>, b: &LicenseItem<'_>) -> bool
    ensures { IsTrue result ↔ (license_key (license_of a.now) ≡ license_key (license_of b.now)) }
{
    LicenseItem::eq(a, b)
}

/// `==` of addition items.
pub fn are_same_addition(a: &AdditionItem<'_>, b: &AdditionItem<'_>) -> bool
    ensures { IsTrue result ↔ (addition_key (addition_of a.now)
        ≡ addition_key (addition_of b.now)) }
{
    AdditionItem::eq(a, b)
}

/// `==` of additions, or of none.
pub fn are_same_additions(one: &Option<AdditionItem<'_>>, other: &Option<AdditionItem<'_>>) -> bool
    ensures test { result ≡ option_eq same_addition
        (option_map addition_of one.now) (option_map addition_of other.now) }
    ensures same { IsTrue result
        ↔ (option_map addition_key (option_map addition_of one.now)
        ≡ option_map addition_key (option_map addition_of other.now)) }
{
    one == other
}

/// `==` of requirements.
pub fn are_same_requirement(a: &LicenseReq<'_>, b: &LicenseReq<'_>) -> bool
    ensures test { result ≡ same_requirement (requirement_of a.now) (requirement_of b.now) }
    ensures same { IsTrue result ↔ (requirement_key (requirement_of a.now)
        ≡ requirement_key (requirement_of b.now)) }
{
    LicenseReq::eq(a, b)
}
