// Packages that belong together.

ghost use Rattle.std.specs.Prelude.{◌≡◌, ◌≤◌, IfOk, length, map};
ghost use Rattle.std.specs.List.Sorted.{IsPermutation};
ghost use Rattle.package_changes.specs.Rows.{row_of};
ghost use Rattle.package_changes.specs.Order.{front_cmp, row_cmp, in_order};
ghost use Rattle.package_changes.specs.Pairing.{is_like, pair_all, step};
ghost use Rattle.package_changes.specs.Steps.{Rises, paired_of, pair_of};

use crate::changes::likeness::Likeness;
use crate::package::Package;
use std::alloc::{AllocError, Global};
use std::cmp::Ordering;

/// A package as the older and as the newer list has it.
#[derive(Clone, Copy)]
pub(crate) struct Pair<'p> {
    pub(crate) old: Package<'p>,
    pub(crate) new: Package<'p>,
}

/// What belongs together, and what is left of either list.
#[derive(Drop)]
pub(crate) struct Pairing<'p> {
    pub(crate) pairs: Vec<Pair<'p>>,
    pub(crate) old: Vec<Package<'p>>,
    pub(crate) new: Vec<Package<'p>>,
}

impl<'p> Pairing<'p> {
    /// Pairs of what is left those that are so alike.
    pub(crate) fn step(self, alloc: Global, likeness: Likeness) -> Result<Pairing<'p>, AllocError>
        ensures { IfOk result (λ after. paired_of after ≡ step likeness (paired_of self.entry)) }
    {
        let Pairing {
            mut pairs,
            old,
            new,
        } = self;
        let old = sorted(likeness, old);
        let new = sorted(likeness, new);
        let found = pair_in_order(alloc, likeness, old.as_slice(), new.as_slice())?;
        pairs.extend_from_slice(found.pairs.as_slice())?;
        Ok(Pairing {
            pairs,
            old: found.old,
            new: found.new,
        })
    }
}

fn sorted<'p>(likeness: Likeness, mut packages: Vec<Package<'p>>) -> Vec<Package<'p>>
    ensures is { map row_of result.items
        ≡ in_order (row_cmp likeness) (map row_of packages.entry.items) }
    ensures rises { Rises (front_cmp likeness) (map row_of result.items) }
{
    packages.sort_unstable_by(|one, other| likeness.compare(one, other));
    packages
}

// Both lists rise, so that of two packages that aren't alike the lesser one has no partner.
fn pair_in_order<'p>(
    alloc: Global,
    likeness: Likeness,
    old: &[Package<'p>],
    new: &[Package<'p>],
) -> Result<Pairing<'p>, AllocError>
    requires old { Rises (front_cmp likeness) (map row_of old.now) }
    requires new { Rises (front_cmp likeness) (map row_of new.now) }
    ensures { IfOk result (λ found. paired_of found
        ≡ pair_all (is_like likeness) (map row_of old.now) (map row_of new.now)) }
{
    let mut found = Pairing {
        pairs: Vec::new(alloc),
        old: Vec::new(alloc),
        new: Vec::new(alloc),
    };
    let mut in_old: usize = 0;
    let mut in_new: usize = 0;
    while in_old < old.len() && in_new < new.len() {
        let one = old[in_old];
        let other = new[in_new];
        match likeness.front(&one, &other) {
            Ordering::Less => {
                found.old.push(one)?;
                in_old += 1;
            }
            Ordering::Greater => {
                found.new.push(other)?;
                in_new += 1;
            }
            Ordering::Equal => {
                found.pairs.push(Pair {
                    old: one,
                    new: other,
                })?;
                in_old += 1;
                in_new += 1;
            }
        }
    }
    found.old.extend_from_slice(&old[in_old..])?;
    found.new.extend_from_slice(&new[in_new..])?;
    Ok(found)
}
