//! Whether one expression asks at least what another one asks, and whether two are equivalent.

ghost use Rattle.std.specs.Prelude.{◌≡◌, ◌<◌, ◌≤◌, ◌↔◌, ◌⊎◌, IsTrue, All, not, length, map, option_map, IfOk, IfErr, Err};
ghost use Rattle.std.specs.List.{find};
ghost use Rattle.spdx_requirement.specs.Failures.{IfRefused};
ghost use Rattle.spdx_parser.specs.Tree.{leaves, node_of};
ghost use Rattle.spdx_evaluation.specs.Postfix.{IsPostfix, tree_in};
ghost use Rattle.spdx_evaluation.specs.Truth.{truth_of};
ghost use Rattle.selections.specs.Sets.{is_in, sets_in};
ghost use Rattle.spdx_meaning.specs.Made.{made_in};
ghost use Rattle.spdx_meaning.specs.Meaning.{AsksAtLeast, IsEquivalent};
ghost use Rattle.spdx_meaning.specs.Minimal.{is_unmet};
ghost use Rattle.spdx_meaning.specs.Marks.{has_mark, HasNoMark, AreMarked};

use crate::error::TooManySets;
use crate::made::sets_of;
use crate::places::places_among;
use selections::Truths;
use spdx_catalogue::Failure;
use spdx_parser::node::{ExprNode, Operator};
use std::alloc::{AllocError, Global};

/// Whether the one expression asks at least what the other one asks: whatever requirements are accepted, where the one holds
/// the other one does.
///
/// The requirements of the one are sorted, and each of both is sought among them by binary search. The least sets of the one are
/// made, and the other one is read once for each of them until one doesn't make it hold.
///
/// # Errors
///
/// Memory was refused, or the one makes too many sets.
pub fn asks_at_least<'c>(
    alloc: Global,
    one: &[ExprNode<'c>],
    other: &[ExprNode<'c>],
) -> Result<bool, Failure<TooManySets>>
    requires tree { IsPostfix (map node_of one.now) }
    requires other { IsPostfix (map node_of other.now) }
    ensures ok { IfOk result (λ asks.
        IsTrue asks ↔ AsksAtLeast (tree_in one.now) (tree_in other.now)) }
    ensures err { IfErr result (IfRefused (λ e. made_in (tree_in one.now) ≡ Err e.0)) }
{
    let numbers = places_among(alloc, one, one)?;
    let sets = sets_of(alloc, one, numbers.as_slice())?;
    let unmet = first_unmet(alloc, one, other, sets.as_slice())?;
    Ok(unmet.is_none())
}

/// The first of some sets of the one's requirements, each by its places, with which alone the other one doesn't hold.
///
/// The requirements of the one are sorted, and the other one's are sought among them by binary search. The other one is read
/// once for each set up to the one that is found.
///
/// # Errors
///
/// Memory was refused.
pub fn first_unmet<'s, 'c>(
    alloc: Global,
    one: &[ExprNode<'c>],
    other: &[ExprNode<'c>],
    sets: &'s [Vec<usize>],
) -> Result<Option<&'s [usize]>, AllocError>
    requires tree { IsPostfix (map node_of one.now) }
    requires other { IsPostfix (map node_of other.now) }
    ensures { IfOk result (λ found. option_map (λ s. s.now) found
        ≡ find (is_unmet (tree_in one.now) (tree_in other.now)) (sets_in sets.now)) }
{
    let places = places_among(alloc, one, other)?;
    let mut truths = Truths::with_room(alloc, other.len())?;
    let mut marks = vec![in alloc; 0; one.len() + 1]?;
    let marks = marks.as_mut_slice();
    let found = first_failing(&mut truths, marks, other, places.as_slice(), sets);
    Ok(found)
}

/// Whether two expressions are equivalent: whatever requirements are accepted, both hold or none does. They are exactly if
/// each asks at least what the other one asks.
///
/// # Errors
///
/// Memory was refused, or one of them makes too many sets; the other one's are made only where the one asks at least as
/// much.
pub fn is_equivalent<'c>(
    alloc: Global,
    one: &[ExprNode<'c>],
    other: &[ExprNode<'c>],
) -> Result<bool, Failure<TooManySets>>
    requires tree { IsPostfix (map node_of one.now) }
    requires other { IsPostfix (map node_of other.now) }
    ensures ok { IfOk result (λ same.
        IsTrue same ↔ IsEquivalent (tree_in one.now) (tree_in other.now)) }
    ensures err { IfErr result (IfRefused (λ e.
        (made_in (tree_in one.now) ≡ Err e.0) ⊎ (made_in (tree_in other.now) ≡ Err e.0))) }
{
    if !asks_at_least(alloc, one, other)? {
        return Ok(false);
    }
    asks_at_least(alloc, other, one)
}

// The first of the sets with whose numbers alone the expression doesn't hold. The numbers of each set get a mark of its own, so
// that those of the sets before it need not be taken away.
fn first_failing<'s>(
    truths: &mut Truths,
    marks: &mut [usize],
    nodes: &[ExprNode<'_>],
    numbers: &[usize],
    sets: &'s [Vec<usize>],
) -> Option<&'s [usize]>
    requires tree { IsPostfix (map node_of nodes.now) }
    requires each { length numbers.now ≡ length (leaves (tree_in nodes.now)) }
    requires room { length nodes.now ≤ truths.old.room }
    requires within { All (λ k. k < length marks.old) numbers.now }
    requires unmarked { HasNoMark marks.old }
    ensures { option_map (λ s. s.now) result ≡ find
        (λ s. not (truth_of (tree_in nodes.now) (map (is_in s) numbers.now))) (sets_in sets.now) }
{
    for (index, set) in sets.iter().enumerate() {
        mark_each(marks, set.as_slice(), index + 1);
        if !holds_with(truths, nodes, numbers, marks, index + 1) {
            return Some(set.as_slice());
        }
    }
    None
}

// Marks each of the numbers; those that are beyond the marks are left out.
fn mark_each(marks: &mut [usize], numbers: &[usize], mark: usize)
    ensures { AreMarked marks.old numbers.now mark marks.new }
{
    for number in numbers {
        if *number < marks.len() {
            marks[*number] = mark;
        }
    }
}

// Whether the expression holds where the requirements of the numbers with this mark are accepted.
fn holds_with(
    truths: &mut Truths,
    nodes: &[ExprNode<'_>],
    numbers: &[usize],
    marks: &[usize],
    mark: usize,
) -> bool
    requires tree { IsPostfix (map node_of nodes.now) }
    requires each { length numbers.now ≡ length (leaves (tree_in nodes.now)) }
    requires room { length nodes.now ≤ truths.old.room }
    requires within { All (λ k. k < length marks.now) numbers.now }
    ensures answer { result
        ≡ truth_of (tree_in nodes.now) (map (has_mark marks.now mark) numbers.now) }
    ensures room { truths.new.room ≡ truths.old.room }
{
    let mut number = 0;
    truths.clear();
    for node in nodes {
        match node {
            ExprNode::Req(_) => {
                truths.push(marks[numbers[number]] == mark);
                number += 1;
            }
            ExprNode::Op(Operator::And) => truths.both(),
            ExprNode::Op(Operator::Or) => truths.either(),
        }
    }
    truths.take()
}
