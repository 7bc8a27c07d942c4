//! Lists of sets in order.

ghost use Rattle.std.specs.Prelude.{◌≡◌, ℕ, Bool, IfOk, All};
ghost use Rattle.std.specs.List.{list_all};
ghost use Rattle.std.specs.List.Sorted.{IsStrictlyIncreasing};
ghost use Rattle.selections.specs.Sets.{sets_in, met_by, AreApart};
ghost use Rattle.selections.specs.Order.{set_cmp, AreInOrder};

use std::alloc::{AllocError, Global};
use std::cmp::Ordering;

/// The sets in order: of each its numbers, ascending, each once; and the sets by size, then by their first number that
/// differs.
pub fn in_order(alloc: Global, sets: Vec<Vec<usize>>) -> Result<Vec<Vec<usize>>, AllocError>
    ensures means { IfOk result (λ ordered. (p : ℕ → Bool) →
        met_by p (sets_in ordered.items) ≡ met_by p (sets_in sets.items)) }
    ensures apart { IfOk result (λ ordered. AreApart (sets_in sets.items)
        → AreApart (sets_in ordered.items)) }
    ensures rise { IfOk result (λ ordered. All IsStrictlyIncreasing (sets_in ordered.items)) }
    ensures ordered { IfOk result (λ ordered. AreApart (sets_in sets.items)
        → AreInOrder (sets_in ordered.items)) }
{
    let mut ordered = Vec::new(alloc);
    for set in sets {
        ordered.push(ascending(set))?;
    }
    ordered.sort_unstable_by(|one, other| compare(one.as_slice(), other.as_slice()));
    Ok(ordered)
}

// The numbers of the set, ascending, each once.
fn ascending(mut set: Vec<usize>) -> Vec<usize>
    ensures same { (p : ℕ → Bool) → list_all p result.items ≡ list_all p set.items }
    ensures rises { IsStrictlyIncreasing result.items }
{
    set.sort_unstable();
    set.dedup();
    set
}

// By size, then by the first number that differs.
fn compare(one: &[usize], other: &[usize]) -> Ordering
    ensures { result ≡ set_cmp one.now other.now }
{
    one.len().cmp(&other.len()).then(one.cmp(other))
}
