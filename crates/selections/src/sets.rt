//! Sets of numbers, and lists of sets of which none includes another.

ghost use Rattle.std.specs.Prelude.{◌≡◌, ◌++◌, ◌&&◌, ◌||◌, ℕ, Bool, map, fold, vec_len, OnOk, IfOk};
ghost use Rattle.selections.specs.Sets.{includes, includes_some, without, either, with_set, both, set_of, sets_in, met_by, AreApart};

use std::alloc::{AllocError, Global};

// Whether the set has each number of the other one.
fn includes(set: &[usize], other: &[usize]) -> bool
    ensures { result ≡ includes set.now other.now }
{
    other.iter().all(|number| set.contains(number))
}

// Whether the set includes one of some.
fn includes_some(set: &[usize], sets: &[Vec<usize>]) -> bool
    ensures { result ≡ includes_some (sets_in sets.now) set.now }
{
    sets.iter().any(|other| includes(set, other.as_slice()))
}

// Leaves those that include none of some.
fn keep_without(sets: &mut Vec<Vec<usize>>, others: &[Vec<usize>])
    ensures { sets_in sets.new.items ≡ without (sets_in others.now) (sets_in sets.old.items) }
{
    sets.retain(|set| !includes_some(set.as_slice(), others));
}

/// The least of the sets of two sides: those that include none of the other side, and one of equal ones.
///
/// Each set of the one side is compared with each of the other.
pub fn either(
    mut left: Vec<Vec<usize>>,
    mut right: Vec<Vec<usize>>,
) -> Result<Vec<Vec<usize>>, AllocError>
    ensures exact { IfOk result (λ sets.
        sets_in sets.items ≡ either (sets_in left.items) (sets_in right.items)) }
    ensures means { IfOk result (λ sets. (p : ℕ → Bool) → met_by p (sets_in sets.items)
        ≡ (met_by p (sets_in left.items) || met_by p (sets_in right.items))) }
    ensures apart { IfOk result (λ sets. AreApart (sets_in left.items)
        → AreApart (sets_in right.items) → AreApart (sets_in sets.items)) }
{
    keep_without(&mut left, right.as_slice());
    keep_without(&mut right, left.as_slice());
    left.append(&mut right)?;
    Ok(left)
}

// Adds a set, unless it includes one that is there; those that include it go.
fn add(sets: &mut Vec<Vec<usize>>, set: Vec<usize>) -> Result<(), AllocError>
    ensures { OnOk result (sets_in sets.new.items ≡ with_set (sets_in sets.old.items) set.items) }
{
    if includes_some(set.as_slice(), sets.as_slice()) {
        return Ok(());
    }
    sets.retain(|other| !includes(other.as_slice(), set.as_slice()));
    sets.push(set)?;
    Ok(())
}

// The numbers of two sets, one behind the other.
fn union(alloc: Global, set: &[usize], other: &[usize]) -> Result<Vec<usize>, AllocError>
    ensures { IfOk result (λ union. union.items ≡ set.now ++ other.now) }
{
    let mut union = Vec::new(alloc);
    union.extend_from_slice(set)?;
    union.extend_from_slice(other)?;
    Ok(union)
}

// Adds the union of each set with the left one.
fn add_unions(
    alloc: Global,
    sets: &mut Vec<Vec<usize>>,
    left: &[usize],
    right: &[Vec<usize>],
) -> Result<(), AllocError>
    ensures { OnOk result (sets_in sets.new.items ≡ fold with_set (sets_in sets.old.items)
        (map (λ r. r ++ left.now) (sets_in right.now))) }
{
    for set in right {
        let union = union(alloc, set.as_slice(), left)?;
        add(sets, union)?;
    }
    Ok(())
}

// Each union is compared with each one that is kept.
fn least_unions(
    alloc: Global,
    left: &[Vec<usize>],
    right: &[Vec<usize>],
) -> Result<Vec<Vec<usize>>, AllocError>
    ensures { IfOk result (λ sets.
        sets_in sets.items ≡ both (sets_in left.now) (sets_in right.now)) }
{
    let mut sets = Vec::new(alloc);
    for set in left {
        add_unions(alloc, &mut sets, set.as_slice(), right)?;
    }
    Ok(sets)
}

// The union of the only set of each side. The left one's numbers go behind the right one's, which aren't copied: an `AND` of
// many leans right.
fn only_union(
    mut left: Vec<Vec<usize>>,
    mut right: Vec<Vec<usize>>,
) -> Result<Vec<Vec<usize>>, AllocError>
    requires left_one { vec_len left ≡ 1 }
    requires right_one { vec_len right ≡ 1 }
    ensures { IfOk result (λ sets.
        sets_in sets.items ≡ both (sets_in left.items) (sets_in right.items)) }
{
    right[0].append(&mut left[0])?;
    Ok(right)
}

// The least unions, at the cost of the left side alone where each side has one set.
fn unions_of(
    alloc: Global,
    left: Vec<Vec<usize>>,
    right: Vec<Vec<usize>>,
) -> Result<Vec<Vec<usize>>, AllocError>
    ensures { IfOk result (λ sets.
        sets_in sets.items ≡ both (sets_in left.items) (sets_in right.items)) }
{
    if left.len() == 1 && right.len() == 1 {
        return only_union(left, right);
    }
    least_unions(alloc, left.as_slice(), right.as_slice())
}

/// The least unions of a set of each side.
///
/// Where each side has one set, that takes time for the length of the left one alone. Else each union is compared with each
/// one that is kept.
pub fn both(
    alloc: Global,
    left: Vec<Vec<usize>>,
    right: Vec<Vec<usize>>,
) -> Result<Vec<Vec<usize>>, AllocError>
    ensures exact { IfOk result (λ sets.
        sets_in sets.items ≡ both (sets_in left.items) (sets_in right.items)) }
    ensures means { IfOk result (λ sets. (p : ℕ → Bool) → met_by p (sets_in sets.items)
        ≡ (met_by p (sets_in left.items) && met_by p (sets_in right.items))) }
    ensures apart { IfOk result (λ sets. AreApart (sets_in sets.items)) }
{
    let sets = unions_of(alloc, left, right)?;
    Ok(sets)
}
