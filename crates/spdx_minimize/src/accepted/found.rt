//! Where the licensees stand that satisfy a requirement, as it was found before.

ghost use Rattle.std.specs.Prelude.{◌≡◌, true, List, IfSome, IfOk};
ghost use Rattle.spdx_requirement.specs.Items.{LicenseTerm, Requirement, license_of, requirement_of};
ghost use Rattle.spdx_requirement.specs.Ids.{id_row};
ghost use Rattle.spdx_licensee.specs.Satisfies as spec;
ghost use Rattle.spdx_minimize.specs.FirstPlaces.{places_for, IsFound, AreFound};

use spdx_catalogue::{AdditionItem, LicenseId, LicenseItem, LicenseReq};
use spdx_requirement::equality::are_same_additions;
use std::alloc::{AllocError, Global};

// More than the real list has rows without and with a mark.
const SLOTS: usize = 2048;

/// A requirement, and the places of the distinct licensees that satisfy it.
#[derive(Drop)]
pub(crate) struct Found<'c> {
    requirement: LicenseReq<'c>,
    places: Vec<usize>,
}

/// Requirements with their places, one in each slot: a requirement takes the place of the one that was there.
#[derive(Drop)]
pub(crate) struct FoundPlaces<'c> {
    pub(crate) slots: Vec<Option<Found<'c>>>,
}

// The slot of a requirement without references. Others are not remembered.
fn slot_of(requirement: &LicenseReq<'_>) -> Option<usize> {
    let LicenseItem::Spdx { id, or_later } = &requirement.license else {
        return None;
    };
    let row = id.license().index.wrapping_mul(2);
    let marked = row.wrapping_add(usize::from(*or_later));
    match &requirement.addition {
        None => Some(marked % SLOTS),
        Some(AdditionItem::Spdx(exception)) => {
            // The exceptions of a licence lie far apart from it.
            let apart = exception.exception().index.wrapping_mul(37);
            Some(marked.wrapping_add(apart).wrapping_add(1021) % SLOTS)
        }
        Some(AdditionItem::Other(_)) => None,
    }
}

// Whether the rows are alike in all that is asked of a licence; they may be of different lists.
fn are_alike(one: LicenseId<'_>, other: LicenseId<'_>) -> bool
    ensures index { result ≡ true → (id_row one.entry).index ≡ (id_row other.entry).index }
    ensures flags { result ≡ true → (id_row one.entry).flags ≡ (id_row other.entry).flags }
    ensures name { result ≡ true → (id_row one.entry).name ≡ (id_row other.entry).name }
{
    let (one, other) = (one.license(), other.license());
    one.index == other.index && one.flags == other.flags && one.name == other.name
}

// Whether these are listed licences that the same licences cover.
fn are_covered_alike(one: &LicenseItem<'_>, other: &LicenseItem<'_>) -> bool
    ensures { result ≡ true → (held : LicenseTerm) →
        spec.covers held (license_of one.now) ≡ spec.covers held (license_of other.now) }
{
    match (one, other) {
        (
            LicenseItem::Spdx { id: one, or_later },
            LicenseItem::Spdx {
                id: other,
                or_later: other_mark,
            },
        ) => *or_later == *other_mark && are_alike(*one, *other),
        _ => false,
    }
}

// Whether these are requirements of a listed licence that the same licensees satisfy.
fn are_satisfied_alike(one: &LicenseReq<'_>, other: &LicenseReq<'_>) -> bool
    ensures { result ≡ true → (held : Requirement) →
        spec.satisfies held (requirement_of one.now)
        ≡ spec.satisfies held (requirement_of other.now) }
{
    are_same_additions(&one.addition, &other.addition)
        && are_covered_alike(&one.license, &other.license)
}

fn empty_slots<'c>(alloc: Global) -> Result<Vec<Option<Found<'c>>>, AllocError>
    ensures { IfOk result (λ slots. (licensees : List Requirement) →
        AreFound licensees slots.items) }
{
    let mut slots = Vec::with_capacity(alloc, SLOTS)?;
    for _ in 0..SLOTS {
        slots.push(None)?;
    }
    Ok(slots)
}

impl<'c> FoundPlaces<'c> {
    pub(crate) fn new(alloc: Global) -> FoundPlaces<'c>
        ensures { (licensees : List Requirement) → AreFound licensees result.slots.items }
    {
        FoundPlaces {
            slots: Vec::new(alloc),
        }
    }

    /// The places for this requirement, if they are remembered.
    pub(crate) fn find(&self, requirement: &LicenseReq<'_>) -> Option<&[usize]>
        ensures { IfSome result (λ places. (licensees : List Requirement) →
            AreFound licensees self.now.slots.items →
            places.now ≡ places_for licensees (requirement_of requirement.now)) }
    {
        let slot = self.slots.get(slot_of(requirement)?)?;
        match slot {
            Some(found) => {
                if are_satisfied_alike(&found.requirement, requirement) {
                    Some(&found.places)
                } else {
                    None
                }
            }
            None => None,
        }
    }

    /// Remembers the places for this requirement, if it has no reference and memory is there.
    pub(crate) fn keep(&mut self, alloc: Global, requirement: &LicenseReq<'c>, places: Vec<usize>)
        ensures { (licensees : List Requirement) → AreFound licensees self.old.slots.items →
            places.items ≡ places_for licensees (requirement_of requirement.now) →
            AreFound licensees self.new.slots.items }
    {
        let Some(slot) = slot_of(requirement) else {
            return;
        };
        if self.slots.is_empty() {
            match empty_slots(alloc) {
                Ok(slots) => self.slots = slots,
                Err(AllocError) => return,
            }
        }
        let Ok(requirement) = requirement.try_clone(alloc) else {
            return;
        };
        if let Some(held) = self.slots.get_mut(slot) {
            *held = Some(Found {
                requirement,
                places,
            });
        }
    }
}
