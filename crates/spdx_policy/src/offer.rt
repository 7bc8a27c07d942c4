//! Entries that a policy could have besides.

ghost use Rattle.std.specs.Prelude.{◌≡◌, true, not, IfOk, IfSome, IfNone, List, Contains, map};
ghost use Rattle.spdx_requirement.specs.Items.{requirement_of};
ghost use Rattle.spdx_requirement.specs.Texts.{requirement_text};
ghost use Rattle.spdx_policy.specs.Blame.{IsNoEntry};
ghost use Rattle.spdx_policy.specs.Decisions as spec;
ghost use Rattle.spdx_policy.specs.Growing.{with_allowed};
ghost use Rattle.spdx_policy.specs.Meant.{IsNamed};
ghost use Rattle.spdx_policy.specs.Rules.{NamedRow};

use crate::error::{Key, Place, Section};
use crate::named::Named;
use crate::policy::Policy;
use crate::reading::name_of;
use spdx_licensee::{sense, ways};
use spdx_requirement::failure::Failure;
use spdx_requirement::requirement::LicenseReq;
use std::alloc::{AllocError, Global};
use std::marker::Model;

/// An entry that `allow` could have besides.
#[derive(Drop)]
pub struct Offer<'c> {
    pub(crate) named: Named<'c>,
}

impl<'c> Model for Offer<'c> {
    ghost use Rattle.spdx_policy.specs.Rules.{NamedRow};
    ghost use Rattle.spdx_policy.specs.OfferModel.{offer_shown};

    ghost Value = { NamedRow };

    ghost view = { offer_shown };
}

impl Offer<'_> {
    /// Its text, as it would stand in the policy.
    pub fn text(&self) -> &str
        ensures { result.now ≡ self.now.text }
    {
        self.named.text.as_str()
    }
}

impl<'c> Policy<'c> {
    /// The licences under which a requirement may be had, by the policy's list, each with its
    /// addition: what the requirement means, or with a mark that licence and its listed later versions.
    ///
    /// # Errors
    ///
    /// Memory was refused.
    pub fn ways(
        &self,
        alloc: Global,
        req: &LicenseReq<'c>,
    ) -> Result<Vec<LicenseReq<'c>>, AllocError>
        ensures { IfOk result (λ found. map requirement_of found.items
            ≡ spec.ways_of self.now (requirement_of req.now)) }
    {
        let sense = sense(alloc, self.catalogue, &self.replacements, req)?;
        ways(alloc, self.catalogue, &sense)
    }

    /// Whether nothing denies a licence with its addition, where these exceptions hold.
    pub fn is_free(&self, exceptions: &[usize], way: &LicenseReq<'_>) -> bool
        ensures { result ≡ not (spec.is_denied_way self.now exceptions.now
            (requirement_of way.now)) }
    {
        !self.is_denied_way(exceptions, way)
    }

    /// The entry whose text is that of a licence with its addition, if that is an entry.
    ///
    /// # Errors
    ///
    /// Memory was refused.
    pub fn offer(
        &self,
        alloc: Global,
        way: &LicenseReq<'_>,
    ) -> Result<Option<Offer<'c>>, AllocError>
        ensures some { IfOk result (λ found. IfSome found (λ offer. IsNamed self.now.list
            self.now.replacements (requirement_text (requirement_of way.now)) offer)) }
        ensures none { IfOk result (λ found. IfNone found (IsNoEntry self.now.list
            (requirement_text (requirement_of way.now)))) }
    {
        let text = format!(in alloc; "{way}")?;
        let place = Place::one(Section::Policy, Key::Allow, 0);
        match name_of(
            alloc,
            self.catalogue,
            &self.replacements,
            place,
            text.as_str(),
        ) {
            Ok(named) => Ok(Some(Offer { named })),
            Err(Failure::Refused(_)) => Ok(None),
            Err(Failure::Memory(error)) => Err(error),
        }
    }

    /// Whether a requirement that may be had under these licences would be allowed with the entry in
    /// `allow`: the entry stands for one of them that nothing denies.
    pub fn would_allow(
        &self,
        exceptions: &[usize],
        ways: &[LicenseReq<'_>],
        offer: &Offer<'_>,
    ) -> bool
        ensures exact { result ≡ spec.frees self.now exceptions.now (map requirement_of ways.now)
            offer.now }
        ensures allowed { result ≡ true → (more : List NamedRow) → Contains more offer.now
            → spec.is_allowed (spec.decision_among (with_allowed self.now more) exceptions.now
            (map requirement_of ways.now)) ≡ true }
    {
        self.frees(exceptions, ways, &offer.named)
    }
}
