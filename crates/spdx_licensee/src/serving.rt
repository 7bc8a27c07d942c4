//! The licences under which a requirement may be had.

ghost use Rattle.std.specs.Prelude.{◌≡◌, IfOk, map, true, option_map, [], ◌∷◌};
ghost use Rattle.std.specs.List.{filter};
ghost use Rattle.spdx_requirement.specs.Ids.{id_row};
ghost use Rattle.spdx_requirement.specs.Items.{requirement_of, license_of, addition_of};
ghost use Rattle.spdx_licensee.specs.Ways as spec;

use crate::licensee::is_as_late;
use crate::meaning::copy_of;
use spdx_catalogue::{AdditionItem, Catalogue, LicenseId, LicenseItem, LicenseReq};
use spdx_requirement::equality::are_same_additions;
use std::alloc::{AllocError, Global};

/// Whether a licence with its addition is among those that a requirement stands for: the same
/// licence with the same addition, or a listed later version of it where the requirement has a mark.
/// The requirement is one that `sense` gives, in which `-or-later` is a mark. Takes no memory.
pub fn stands_for(asked: &LicenseReq<'_>, way: &LicenseReq<'_>) -> bool
    ensures { result ≡ spec.stands_for (requirement_of asked.now) (requirement_of way.now) }
{
    are_same_additions(&asked.addition, &way.addition) && serves_term(&asked.license, &way.license)
}

// Whether the licence is one under which the asked one may be had.
fn serves_term(asked: &LicenseItem<'_>, license: &LicenseItem<'_>) -> bool
    ensures { result ≡ spec.serves_term (license_of asked.now) (license_of license.now) }
{
    match (asked, license) {
        (LicenseItem::Spdx { id, or_later }, LicenseItem::Spdx { id: other, .. }) => {
            serves(*id, *or_later, *other)
        }
        (LicenseItem::Other(asked), LicenseItem::Other(license)) => asked == license,
        _ => false,
    }
}

// Whether it is the licence that is asked for, or a listed later version where those are meant.
fn serves(asked: LicenseId<'_>, later: bool, id: LicenseId<'_>) -> bool
    ensures { result ≡ spec.serves (id_row asked.entry) later (id_row id.entry) }
{
    id == asked || later && is_one_version(id) && is_as_late(id, asked)
}

// Whether the name is no deprecated one, and means one version.
fn is_one_version(id: LicenseId<'_>) -> bool
    ensures { result ≡ spec.is_one_version (id_row id.entry) }
{
    !id.is_deprecated() && !(id.is_gnu() && id.license().name.as_bytes().ends_with(b"-or-later"))
}

/// The licences that a requirement stands for, each with its addition: one, or where it has a mark
/// that one and its later versions, in the order of the list. The requirement is one that `sense`
/// gives. A mark takes time by the length of the list, anything else none.
pub fn ways<'c>(
    alloc: Global,
    catalogue: &'c Catalogue,
    req: &LicenseReq<'c>,
) -> Result<Vec<LicenseReq<'c>>, AllocError>
    ensures { IfOk result (λ found. map requirement_of found.items
        ≡ spec.ways catalogue.now (requirement_of req.now)) }
{
    match &req.license {
        LicenseItem::Spdx { id, or_later: true } => {
            versions_of(alloc, catalogue, *id, &req.addition)
        }
        _ => one_way(alloc, req),
    }
}

// The requirement alone, without a mark.
fn one_way<'c>(alloc: Global, req: &LicenseReq<'c>) -> Result<Vec<LicenseReq<'c>>, AllocError>
    ensures { IfOk result (λ found. map requirement_of found.items
        ≡ requirement_of req.now ∷ []) }
{
    let mut found = Vec::new(alloc);
    found.push(req.try_clone(alloc)?)?;
    Ok(found)
}

// The licence and its listed later versions, each with the addition.
fn versions_of<'c>(
    alloc: Global,
    catalogue: &'c Catalogue,
    id: LicenseId<'c>,
    addition: &Option<AdditionItem<'c>>,
) -> Result<Vec<LicenseReq<'c>>, AllocError>
    ensures { IfOk result (λ found. map requirement_of found.items
        ≡ map (spec.way_of (option_map addition_of addition.now))
        (filter (spec.serves (id_row id.entry) true) catalogue.now.licenses)) }
{
    let mut found = Vec::new(alloc);
    for row in catalogue.licenses() {
        let other = LicenseId::new(row);
        if serves(id, true, other) {
            found.push(way_of(alloc, other, addition)?)?;
        }
    }
    Ok(found)
}

// A licence with the addition.
fn way_of<'c>(
    alloc: Global,
    id: LicenseId<'c>,
    addition: &Option<AdditionItem<'c>>,
) -> Result<LicenseReq<'c>, AllocError>
    ensures { IfOk result (λ way. requirement_of way
        ≡ spec.way_of (option_map addition_of addition.now) (id_row id.entry)) }
{
    let addition = copy_of(alloc, addition)?;
    Ok(LicenseReq {
        license: LicenseItem::Spdx {
            id,
            or_later: false,
        },
        addition,
    })
}

/// Whether a licence without an addition is among those that a requirement stands for. As
/// `stands_for` of that licence alone. Takes no memory.
pub fn stands_for_license(asked: &LicenseReq<'_>, license: &LicenseItem<'_>) -> bool
    ensures { result ≡ spec.stands_for (requirement_of asked.now)
        (record { license = license_of license.now; addition = None }) }
{
    asked.addition.is_none() && serves_term(&asked.license, license)
}
