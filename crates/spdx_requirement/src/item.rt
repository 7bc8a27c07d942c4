// Licences and additions, each listed or a reference.

ghost use Rattle.std.specs.Prelude.{◌≡◌, Some, IfOk, IsOk, IsSome, option_map};
ghost use Rattle.std.specs.Option.{option_copied};
ghost use Rattle.spdx_requirement.specs.Ids.{id_row, exception_row};
ghost use Rattle.spdx_requirement.specs.Items.{license_of, addition_of, listed_row, addition_row, referred, added};
ghost use Rattle.spdx_requirement.specs.Texts.{license_text, addition_text};

use crate::id::{ExceptionId, LicenseId};
use crate::reference::{AdditionRef, LicenseRef};
use std::alloc::{AllocError, Global};
use std::fmt;

/// A licence: listed, perhaps marked "or later", or a reference.
///
/// Listed ones come before references; listed ones stand by index, then unmarked before marked;
/// references by document, none first, then by name.
#[derive(Debug, PartialEq, Eq, PartialOrd, Ord, Drop)]
pub enum LicenseItem<'c> {
    /// A listed licence.
    Spdx {
        /// The licence.
        id: LicenseId<'c>,
        /// Whether later versions will do too.
        or_later: bool,
    },
    /// A licence that is not listed.
    Other(Box<LicenseRef>),
}

/// What follows `WITH`: a listed exception, or a reference.
///
/// Listed ones come before references; listed ones stand by index; references by document, none
/// first, then by name.
#[derive(Debug, PartialEq, Eq, PartialOrd, Ord, Drop)]
pub enum AdditionItem<'c> {
    /// A listed exception.
    Spdx(ExceptionId<'c>),
    /// An addition that is not listed.
    Other(Box<AdditionRef>),
}

impl fmt::Display for LicenseItem<'_> {
    ghost output = { λ i. Some (license_text (license_of i)) };

    fn fmt<W: fmt::Write>(&self, f: &mut fmt::Formatter<W>) -> fmt::Result {
        match self {
            LicenseItem::Spdx { id, or_later } => {
                write!(f, "{}", id.license().name)?;
                if !*or_later {
                    return Ok(());
                }
                if !id.is_gnu() {
                    return write!(f, "+");
                }
                if id.is_deprecated() {
                    return write!(f, "-or-later");
                }
                Ok(())
            }
            LicenseItem::Other(reference) => write!(f, "{reference}"),
        }
    }
}

impl fmt::Display for AdditionItem<'_> {
    ghost output = { λ i. Some (addition_text (addition_of i)) };

    fn fmt<W: fmt::Write>(&self, f: &mut fmt::Formatter<W>) -> fmt::Result {
        match self {
            AdditionItem::Spdx(id) => write!(f, "{}", id.exception().name),
            AdditionItem::Other(reference) => write!(f, "{reference}"),
        }
    }
}

impl<'c> LicenseItem<'c> {
    /// The licence that is not listed, of these texts: the document, if there is one, and the name.
    ///
    /// # Errors
    ///
    /// Memory was refused.
    pub fn referred(
        alloc: Global,
        document: Option<&str>,
        name: &str,
    ) -> Result<LicenseItem<'c>, AllocError>
        ensures { IfOk result (λ item. license_of item
            ≡ referred (record { document = option_copied document.entry; name = name.now })) }
    {
        let reference = LicenseRef::of_texts(alloc, document, name)?;
        Ok(LicenseItem::Other(Box::new(alloc, reference)?))
    }

    /// The id of a listed licence.
    pub fn id(&self) -> Option<LicenseId<'c>>
        ensures { option_map id_row result ≡ listed_row (license_of self.now) }
    {
        match self {
            LicenseItem::Spdx { id, .. } => Some(*id),
            LicenseItem::Other(_) => None,
        }
    }

    /// An equal item.
    ///
    /// # Errors
    ///
    /// Memory was refused; a listed licence takes none.
    pub fn try_clone(&self, alloc: Global) -> Result<LicenseItem<'c>, AllocError>
        ensures copy { IfOk result (λ c. license_of c ≡ license_of self.now) }
        ensures no_memory { IsSome (listed_row (license_of self.now)) → IsOk result }
    {
        match self {
            LicenseItem::Spdx { id, or_later } => Ok(LicenseItem::Spdx {
                id: *id,
                or_later: *or_later,
            }),
            LicenseItem::Other(reference) => {
                Ok(LicenseItem::Other(Box::new(alloc, reference.try_clone(alloc)?)?))
            }
        }
    }
}

impl<'c> AdditionItem<'c> {
    /// The addition that is not listed, of these texts: the document, if there is one, and the name.
    ///
    /// # Errors
    ///
    /// Memory was refused.
    pub fn referred(
        alloc: Global,
        document: Option<&str>,
        name: &str,
    ) -> Result<AdditionItem<'c>, AllocError>
        ensures { IfOk result (λ item. addition_of item
            ≡ added (record { document = option_copied document.entry; name = name.now })) }
    {
        let reference = AdditionRef::of_texts(alloc, document, name)?;
        Ok(AdditionItem::Other(Box::new(alloc, reference)?))
    }

    /// The id of a listed exception.
    pub fn id(&self) -> Option<ExceptionId<'c>>
        ensures { option_map exception_row result ≡ addition_row (addition_of self.now) }
    {
        match self {
            AdditionItem::Spdx(id) => Some(*id),
            AdditionItem::Other(_) => None,
        }
    }

    /// An equal item.
    ///
    /// # Errors
    ///
    /// Memory was refused; a listed exception takes none.
    pub fn try_clone(&self, alloc: Global) -> Result<AdditionItem<'c>, AllocError>
        ensures copy { IfOk result (λ c. addition_of c ≡ addition_of self.now) }
        ensures no_memory { IsSome (addition_row (addition_of self.now)) → IsOk result }
    {
        match self {
            AdditionItem::Spdx(id) => Ok(AdditionItem::Spdx(*id)),
            AdditionItem::Other(reference) => {
                Ok(AdditionItem::Other(Box::new(alloc, reference.try_clone(alloc)?)?))
            }
        }
    }
}
