// In which of some lists each package stands.

ghost use Rattle.std.specs.Prelude.{◌≡◌, ◌++◌, ℕ, List, OnOk, IfOk, map};
ghost use Rattle.std.specs.Borrow.{Bor};
ghost use Rattle.license_notice.specs.declared.packages.Release.{Release};
ghost use Rattle.license_notice.specs.Notices.{line_of};
ghost use Rattle.license_notice.specs.Rows.{Line};
ghost use Rattle.license_notice.specs.Places.{ArePlaces, numbers_from, place, places_from};

use crate::packages::Release;
use std::alloc::{AllocError, Global};

/// A package in one of some lists.
#[derive(Clone, Copy, PartialEq, Eq, PartialOrd, Ord, Debug)]
pub struct Place<'t> {
    pub release: Release<'t>,
    /// Which of the lists it is, counted from 0.
    pub number: usize,
}

/// In which of some lists each package stands.
#[derive(Debug, Drop)]
pub struct Places<'t> {
    rows: Vec<Place<'t>>,
}

/// In which of these lists each of their packages stands.
///
/// Takes `n log n` comparisons of texts, for `n` packages of all lists together.
///
/// # Errors
///
/// Memory was refused.
pub fn places_in<'t>(alloc: Global, lists: &[&[Release<'t>]]) -> Result<Places<'t>, AllocError>
    ensures { IfOk result (λ places.
        ArePlaces (map (λ (rs : Bor (List Release)). map line_of rs.now) lists.now) places) }
{
    let mut rows = all_places(alloc, lists)?;
    rows.sort_unstable();
    rows.dedup();
    Ok(Places { rows })
}

fn all_places<'t>(alloc: Global, lists: &[&[Release<'t>]]) -> Result<Vec<Place<'t>>, AllocError>
    ensures { IfOk result (λ rows.
        rows.items ≡ places_from 0 (map (λ (rs : Bor (List Release)). rs.now) lists.now)) }
{
    let mut rows = Vec::new(alloc);
    for (number, list) in lists.iter().enumerate() {
        put_places(&mut rows, number, list)?;
    }
    Ok(rows)
}

fn put_places<'t>(
    rows: &mut Vec<Place<'t>>,
    number: usize,
    list: &[Release<'t>],
) -> Result<(), AllocError>
    ensures { OnOk result (rows.new.items ≡ rows.old.items ++ map (place number) list.now) }
{
    for release in list {
        rows.push(Place {
            release: *release,
            number,
        })?;
    }
    Ok(())
}

impl<'t> Places<'t> {
    /// The package in each list that holds it, in the order of the lists.
    ///
    /// Takes `log n` comparisons of texts, for `n` packages of all lists together.
    pub fn of(&self, release: &Release<'t>) -> &[Place<'t>]
        ensures { (lists : List (List Line)) → ArePlaces lists self.now
            → map (λ p. p.number) result.now ≡ numbers_from 0 lists (line_of release.now) }
    {
        let before = self
            .rows
            .partition_point(|place| place.release.cmp(release).is_lt());
        let rest = &self.rows[before..];
        let len = rest.partition_point(|place| place.release.cmp(release).is_le());
        &rest[..len]
    }
}
