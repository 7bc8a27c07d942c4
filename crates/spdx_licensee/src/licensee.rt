//! Licensees, and which requirements they satisfy.

ghost use Rattle.std.specs.Prelude.{◌≡◌, IsOk, IfOk, IfErr, false};
ghost use Rattle.spdx_requirement.specs.Ids.{id_row};
ghost use Rattle.spdx_requirement.specs.Items.{license_of, requirement_of};
ghost use Rattle.spdx_requirement.specs.References.{HasNoReference};
ghost use Rattle.spdx_requirement.specs.Versions as parted;
ghost use Rattle.spdx_lexer.specs.Faults.{fault_of};
ghost use Rattle.spdx_lexer.specs.Code.{span_of};
ghost use Rattle.spdx_lexer.specs.Layout.{IsPlace};
ghost use Rattle.spdx_licensee.specs.LicenseeText.{Names, NamesNone, IsLicenseeFault, has_reference};
ghost use Rattle.spdx_requirement.specs.Failures.{IfRefused};
ghost use Rattle.spdx_licensee.specs.Answers.{TellsAFault};
ghost use Rattle.spdx_licensee.specs.Satisfies as spec;

use crate::reading::read_requirement;
use crate::version::{begin_apart, is_older, same_family, version};
use spdx_catalogue::{Catalogue, LicenseId, LicenseItem, LicenseReq};
use spdx_lexer::{Failure, Lexer, ParseError};
use spdx_requirement::endings::without;
use spdx_requirement::equality::are_same_additions;
use std::alloc::{AllocError, Global};
use std::marker::Model;

/// A licence that is held, perhaps with an addition, against which requirements are measured. Two
/// licensees are equal exactly if their requirements are.
#[derive(Debug, Drop)]
pub struct Licensee<'c> {
    req: LicenseReq<'c>,
}

impl<'c> Model for Licensee<'c> {
    ghost use Rattle.spdx_requirement.specs.Items.{Requirement, requirement_of};

    ghost Value = { Requirement };

    ghost view = { λ i. requirement_of i.req };
}

impl<'c> Licensee<'c> {
    /// The licensee that a text names, in the strict form of `docs/EXPRESSIONS.md`: a listed licence
    /// that is not deprecated, or a reference, and perhaps WITH and an exception or a reference. It
    /// has no mark. Memory is taken for references alone.
    ///
    /// # Errors
    ///
    /// The fault of the first token with which no licensee goes on; where there is none, of the
    /// first place that is no token; where there is none, of the end. Its span is in bytes of the
    /// text, on boundaries of characters. Or want of memory.
    pub fn parse<'t>(
        alloc: Global,
        catalogue: &'c Catalogue,
        text: &'t str,
    ) -> Result<Licensee<'c>, Failure<ParseError<'t>>>
        ensures ok { IfOk result (λ licensee. Names catalogue.now text.now licensee) }
        ensures err { IfErr result (IfRefused (λ e.
            IsLicenseeFault catalogue.now text.now (fault_of e.reason) (span_of e.span))) }
        ensures none { IfErr result (IfRefused (λ _. NamesNone catalogue.now text.now)) }
        ensures original { IfErr result (IfRefused (λ e. e.original.now ≡ text.now)) }
        ensures place { IfErr result (IfRefused (λ e. IsPlace text.now (span_of e.span))) }
        ensures memory { has_reference catalogue.now text.now ≡ false → IfErr result TellsAFault }
    {
        let mut lexer = Lexer::new(catalogue, text);
        Ok(Licensee {
            req: read_requirement(alloc, text, &mut lexer)?,
        })
    }

    /// The requirement that the licensee was read as.
    pub fn req(&self) -> &LicenseReq<'c>
        ensures { requirement_of result.now ≡ self.now }
    {
        &self.req
    }

    /// The requirement that the licensee was read as, without a copy.
    pub fn into_req(self) -> LicenseReq<'c>
        ensures { requirement_of result ≡ self.entry }
    {
        self.req
    }

    /// A licensee that is equal in every part.
    ///
    /// # Errors
    ///
    /// Want of memory, which references alone take.
    pub fn try_clone(&self, alloc: Global) -> Result<Licensee<'c>, AllocError>
        ensures copy { IfOk result (λ copy. copy ≡ self.now) }
        ensures no_memory { HasNoReference self.now → IsOk result }
    {
        Ok(Licensee {
            req: self.req.try_clone(alloc)?,
        })
    }

    /// Whether the licensee satisfies the requirement: their additions are equal, and so are their
    /// licences, the mark aside, or their references; or the requirement allows later versions, by
    /// its mark or as a GNU licence that ends in `-or-later`, and the licensee's licence is of the
    /// same family and not older. Takes no memory, and time linear in the texts.
    ///
    /// `MPL-1.1+` is satisfied by `MPL-2.0`, and `GPL-2.0-only` is not by `GPL-3.0-only`. A version's
    /// parts between dots are whole numbers of any length, and a missing one is 0.
    pub fn satisfies(&self, req: &LicenseReq<'_>) -> bool
        ensures { result ≡ spec.satisfies self.now (requirement_of req.now) }
    {
        are_same_additions(&self.req.addition, &req.addition)
            && covers(&self.req.license, &req.license)
    }
}

// The name that tells family and version.
fn versioned_name(id: LicenseId<'_>) -> &[u8]
    ensures { result.now ≡ parted.versioned_name (id_row id.entry) }
{
    let name = id.license().name.as_bytes();
    if !id.is_gnu() {
        return name;
    }
    match without(b"-only", name) {
        Some(front) => front,
        None => match without(b"-or-later", name) {
            Some(front) => front,
            None => name,
        },
    }
}

/// Whether versions later than the licence's own are meant too: by the mark, or by the ending
/// `-or-later` of a GNU licence.
pub fn allows_later(id: LicenseId<'_>, or_later: bool) -> bool
    ensures { result ≡ spec.allows_later (id_row id.entry) or_later }
{
    or_later || id.is_gnu() && id.license().name.as_bytes().ends_with(b"-or-later")
}

/// Whether the licence that is held is of the other's family and not older: their names differ in
/// their version alone, and both have one. Takes no memory, and time linear in the names.
pub fn is_as_late(held: LicenseId<'_>, required: LicenseId<'_>) -> bool
    ensures { result ≡ spec.is_as_late (id_row held.entry) (id_row required.entry) }
{
    let held = versioned_name(held);
    let required = versioned_name(required);
    if begin_apart(held, required) || !same_family(held, required) {
        return false;
    }
    match (version(held), version(required)) {
        (Some(held), Some(required)) => !is_older(held, required),
        _ => false,
    }
}

// Whether the licence that is held is the required one, or as late as it asks for.
fn covers(held: &LicenseItem<'_>, required: &LicenseItem<'_>) -> bool
    ensures { result ≡ spec.covers (license_of held.now) (license_of required.now) }
{
    match (held, required) {
        (
            LicenseItem::Spdx { id: held, .. },
            LicenseItem::Spdx {
                id: required,
                or_later,
            },
        ) => {
            held == required || allows_later(*required, *or_later) && is_as_late(*held, *required)
        }
        (LicenseItem::Other(held), LicenseItem::Other(required)) => held == required,
        _ => false,
    }
}
