// What a policy says of a requirement, and which of its entries says so.

ghost use Rattle.std.specs.Prelude.{◌≡◌, option_map};
ghost use Rattle.spdx_requirement.specs.Items.{requirement_of, license_of, addition_of};
ghost use Rattle.spdx_policy.specs.Decisions as spec;
ghost use Rattle.spdx_policy.specs.Rules.{flag_word};

use spdx_requirement::item::{AdditionItem, LicenseItem};
use spdx_requirement::requirement::LicenseReq;

/// What a list says of a licence, or of an exception that is deprecated.
#[derive(Clone, Copy, Debug, PartialEq, Eq)]
pub enum Flag {
    /// The Open Source Initiative has approved the licence.
    OsiApproved,
    /// The Free Software Foundation lists the licence as free.
    FsfLibre,
    /// The licence is copyleft.
    Copyleft,
    /// The licence or the exception is deprecated.
    Deprecated,
}

/// An entry of a policy: which list it stands in, and its place there, counted from 0.
#[derive(Clone, Copy, Debug, PartialEq, Eq, PartialOrd, Ord)]
pub enum Entry {
    /// Of `allow`.
    Allow(usize),
    /// Of `allow-if`.
    AllowIf(usize),
    /// Of `deny`.
    Deny(usize),
    /// Of `deny-if`.
    DenyIf(usize),
    /// Of the list `allow` of an exception: which exception, counted from 0, and the place there.
    Exception(usize, usize),
}

/// What a policy says of a requirement.
#[derive(Clone, Copy, Debug, PartialEq, Eq)]
pub enum Decision {
    /// The entry allows it.
    Allowed(Entry),
    /// The entry denies it.
    Denied(Entry),
    /// No entry says anything.
    Open,
}

impl Flag {
    /// The flag's word in a policy.
    pub fn word(self) -> &'static str
        ensures { result.now ≡ flag_word self }
    {
        match self {
            Flag::OsiApproved => "osi-approved",
            Flag::FsfLibre => "fsf-libre",
            Flag::Copyleft => "copyleft",
            Flag::Deprecated => "deprecated",
        }
    }

    fn is_of_license(self, license: &LicenseItem<'_>) -> bool
        ensures { result ≡ spec.license_has self (license_of license.now) }
    {
        let Some(id) = license.id() else {
            return false;
        };
        match self {
            Flag::OsiApproved => id.is_osi_approved(),
            Flag::FsfLibre => id.is_fsf_free_libre(),
            Flag::Copyleft => id.is_copyleft(),
            Flag::Deprecated => id.is_deprecated(),
        }
    }

    // Whether the addition has the flag: a listed exception that is deprecated.
    fn is_of_addition(self, addition: &Option<AdditionItem<'_>>) -> bool
        ensures { result ≡ spec.addition_has self (option_map addition_of addition.now) }
    {
        match (self, addition) {
            (Flag::Deprecated, Some(AdditionItem::Spdx(id))) => id.is_deprecated(),
            _ => false,
        }
    }

    /// Whether the flag denies a licence with its addition: its listed exception has it, if
    /// deprecated is meant, or, where this counts, its licence. A reference has no flag.
    pub(crate) fn denies(self, exposed: bool, way: &LicenseReq<'_>) -> bool
        ensures { result ≡ spec.flag_denies exposed (requirement_of way.now) self }
    {
        self.is_of_addition(&way.addition) || exposed && self.is_of_license(&way.license)
    }

    /// Whether the flag allows a licence with its addition: one of them has it, and both are listed,
    /// since nothing is known of a reference.
    pub(crate) fn allows(self, way: &LicenseReq<'_>) -> bool
        ensures { result ≡ spec.flag_allows (requirement_of way.now) self }
    {
        is_listed(way) && (self.is_of_license(&way.license) || self.is_of_addition(&way.addition))
    }
}

fn is_listed(req: &LicenseReq<'_>) -> bool
    ensures { result ≡ spec.is_listed (requirement_of req.now) }
{
    match (&req.license, &req.addition) {
        (LicenseItem::Spdx { .. }, None) => true,
        (LicenseItem::Spdx { .. }, Some(AdditionItem::Spdx(_))) => true,
        _ => false,
    }
}
