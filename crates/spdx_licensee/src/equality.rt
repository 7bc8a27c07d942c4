//! Equality of licensees.

ghost use Rattle.std.specs.Prelude.{◌≡◌, ◌↔◌, IsTrue};
ghost use Rattle.std.specs.Cmp.{partial_equiv_from_equiv};
ghost use Rattle.spdx_requirement.specs.Keys.{requirement_key};
ghost use Rattle.spdx_requirement.specs.Equality.{same_requirement};
ghost use Rattle.spdx_requirement.specs.EqualityLaws.{same_requirement_laws};

use crate::licensee::Licensee;

// Of their requirements, of whose rows the index alone is compared.
impl<'c> PartialEq for Licensee<'c> {
    ghost eq = { same_requirement };

    ghost laws = { partial_equiv_from_equiv same_requirement_laws };

    fn eq(&self, other: &Self) -> bool
        ensures value { result ≡ same_requirement self.now other.now }
        ensures by_key { IsTrue result ↔ (requirement_key self.now ≡ requirement_key other.now) }
    {
        self.req() == other.req()
    }
}

impl<'c> Eq for Licensee<'c> {
    ghost laws = { same_requirement_laws };
}
