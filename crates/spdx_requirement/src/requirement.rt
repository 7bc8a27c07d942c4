// A licence, and the addition that it has, if any.

ghost use Rattle.std.specs.Prelude.{◌≡◌, Some, None, false, IfOk, IsOk};
ghost use Rattle.spdx_requirement.specs.Items.{requirement_of};
ghost use Rattle.spdx_requirement.specs.References.{HasNoReference};
ghost use Rattle.spdx_requirement.specs.Texts.{requirement_text};

use crate::id::LicenseId;
use crate::item::{AdditionItem, LicenseItem};
use std::alloc::{AllocError, Global};
use std::fmt;

/// A licence, and the addition that it has, if any.
///
/// By licence, then by addition, none first.
#[derive(Debug, PartialEq, Eq, PartialOrd, Ord, Drop)]
pub struct LicenseReq<'c> {
    /// The licence.
    pub license: LicenseItem<'c>,
    /// What follows `WITH`, if anything does.
    pub addition: Option<AdditionItem<'c>>,
}

impl fmt::Display for LicenseReq<'_> {
    ghost output = { λ r. Some (requirement_text (requirement_of r)) };

    fn fmt<W: fmt::Write>(&self, f: &mut fmt::Formatter<W>) -> fmt::Result {
        write!(f, "{}", self.license)?;
        if let Some(addition) = &self.addition {
            write!(f, " WITH {addition}")?;
        }
        Ok(())
    }
}

impl<'c> LicenseReq<'c> {
    /// An equal requirement.
    ///
    /// # Errors
    ///
    /// Memory was refused; listed names take none.
    pub fn try_clone(&self, alloc: Global) -> Result<LicenseReq<'c>, AllocError>
        ensures copy { IfOk result (λ c. requirement_of c ≡ requirement_of self.now) }
        ensures no_memory { HasNoReference (requirement_of self.now) → IsOk result }
    {
        let addition = match &self.addition {
            Some(addition) => Some(addition.try_clone(alloc)?),
            None => None,
        };
        Ok(LicenseReq {
            license: self.license.try_clone(alloc)?,
            addition,
        })
    }
}

impl<'c> From<LicenseId<'c>> for LicenseReq<'c> {
    ghost use Rattle.spdx_requirement.specs.declared.item.LicenseItem.TheVariants.{Spdx};

    ghost from_gives = { λ id r. r ≡ record { license = Spdx id false; addition = None } };

    // No mark, no addition.
    fn from(id: LicenseId<'c>) -> LicenseReq<'c> {
        LicenseReq {
            license: LicenseItem::Spdx {
                id,
                or_later: false,
            },
            addition: None,
        }
    }
}
