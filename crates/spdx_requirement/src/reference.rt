// References to what is not listed.

ghost use Rattle.std.specs.Prelude.{◌≡◌, Some, IfOk, codes, option_map, string_bytes};
ghost use Rattle.std.specs.Option.{option_copied};
ghost use Rattle.spdx_requirement.specs.Items.{license_reference_of, addition_reference_of};
ghost use Rattle.spdx_requirement.specs.Texts.{reference_text};

use std::alloc::{AllocError, Global};
use std::fmt;

/// A licence that is not listed, as `LicenseRef-y` or `DocumentRef-x:LicenseRef-y`.
#[derive(Debug, PartialEq, Eq, PartialOrd, Ord, Drop)]
pub struct LicenseRef {
    /// The document that holds the licence, what follows `DocumentRef-`.
    pub doc_ref: Option<String>,
    /// What follows `LicenseRef-`.
    pub lic_ref: String,
}

/// An addition that is not listed, as `AdditionRef-y` or `DocumentRef-x:AdditionRef-y`.
#[derive(Debug, PartialEq, Eq, PartialOrd, Ord, Drop)]
pub struct AdditionRef {
    /// The document that holds the addition, what follows `DocumentRef-`.
    pub doc_ref: Option<String>,
    /// What follows `AdditionRef-`.
    pub add_ref: String,
}

impl fmt::Display for LicenseRef {
    ghost output = { λ r. Some (reference_text (codes "LicenseRef-")
        (option_map string_bytes r.doc_ref) (string_bytes r.lic_ref)) };

    fn fmt<W: fmt::Write>(&self, f: &mut fmt::Formatter<W>) -> fmt::Result {
        if let Some(doc) = &self.doc_ref {
            write!(f, "DocumentRef-{doc}:")?;
        }
        write!(f, "LicenseRef-{}", self.lic_ref)
    }
}

impl fmt::Display for AdditionRef {
    ghost output = { λ r. Some (reference_text (codes "AdditionRef-")
        (option_map string_bytes r.doc_ref) (string_bytes r.add_ref)) };

    fn fmt<W: fmt::Write>(&self, f: &mut fmt::Formatter<W>) -> fmt::Result {
        if let Some(doc) = &self.doc_ref {
            write!(f, "DocumentRef-{doc}:")?;
        }
        write!(f, "AdditionRef-{}", self.add_ref)
    }
}

impl LicenseRef {
    /// The reference of these texts: the document, if there is one, and the name.
    ///
    /// # Errors
    ///
    /// Memory was refused.
    pub(crate) fn of_texts(
        alloc: Global,
        document: Option<&str>,
        name: &str,
    ) -> Result<LicenseRef, AllocError>
        ensures { IfOk result (λ r. license_reference_of r
            ≡ record { document = option_copied document.entry; name = name.now }) }
    {
        Ok(LicenseRef {
            doc_ref: owned(alloc, document)?,
            lic_ref: String::from_str(alloc, name)?,
        })
    }

    /// An equal reference.
    ///
    /// # Errors
    ///
    /// Memory was refused.
    pub fn try_clone(&self, alloc: Global) -> Result<LicenseRef, AllocError>
        ensures { IfOk result (λ c. license_reference_of c ≡ license_reference_of self.now) }
    {
        Ok(LicenseRef {
            doc_ref: self.doc_ref.clone()?,
            lic_ref: self.lic_ref.clone()?,
        })
    }
}

impl AdditionRef {
    /// The reference of these texts: the document, if there is one, and the name.
    ///
    /// # Errors
    ///
    /// Memory was refused.
    pub(crate) fn of_texts(
        alloc: Global,
        document: Option<&str>,
        name: &str,
    ) -> Result<AdditionRef, AllocError>
        ensures { IfOk result (λ r. addition_reference_of r
            ≡ record { document = option_copied document.entry; name = name.now }) }
    {
        Ok(AdditionRef {
            doc_ref: owned(alloc, document)?,
            add_ref: String::from_str(alloc, name)?,
        })
    }

    /// An equal reference.
    ///
    /// # Errors
    ///
    /// Memory was refused.
    pub fn try_clone(&self, alloc: Global) -> Result<AdditionRef, AllocError>
        ensures { IfOk result (λ c. addition_reference_of c ≡ addition_reference_of self.now) }
    {
        Ok(AdditionRef {
            doc_ref: self.doc_ref.clone()?,
            add_ref: self.add_ref.clone()?,
        })
    }
}

// A copy of the text, if there is one.
fn owned(alloc: Global, text: Option<&str>) -> Result<Option<String>, AllocError>
    ensures { IfOk result (λ copy. option_map string_bytes copy ≡ option_copied text.entry) }
{
    match text {
        Some(text) => Ok(Some(String::from_str(alloc, text)?)),
        None => Ok(None),
    }
}
