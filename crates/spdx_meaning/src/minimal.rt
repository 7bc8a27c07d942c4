//! The minimal sets of an expression.

ghost use Rattle.std.specs.Prelude.{◌≡◌, map, IfOk, IfErr, IsOk, Err};
ghost use Rattle.spdx_requirement.specs.Failures.{IfRefused};
ghost use Rattle.spdx_parser.specs.Tree.{node_of};
ghost use Rattle.spdx_evaluation.specs.Postfix.{IsPostfix, tree_in};
ghost use Rattle.selections.specs.Sets.{sets_in};
ghost use Rattle.spdx_meaning.specs.Made.{made_in};
ghost use Rattle.spdx_meaning.specs.Minimal.{AreMinimalSets};

use crate::error::TooManySets;
use crate::made::sets_of;
use crate::places::places_among;
use selections::order::in_order;
use spdx_catalogue::Failure;
use spdx_parser::node::ExprNode;
use std::alloc::Global;

/// The least sets of requirements that make the expression hold: whatever requirements are accepted, it holds exactly if
/// all of one of these sets are.
///
/// A requirement is the place where it first stands among the requirements, from 0. Of each set the places ascend; the
/// sets are ordered by size, then by their first place that differs.
///
/// For the places the requirements are sorted, and each is sought by binary search. [`selections::sets`] says what it takes to
/// make the sets.
///
/// # Errors
///
/// Memory was refused, or too many sets are made for a part of the expression: for an `OR` as many as its two sides have
/// together, for an `AND` as many as one of each side can be joined. No memory is taken for them.
pub fn minimal_sets(
    alloc: Global,
    nodes: &[ExprNode<'_>],
) -> Result<Vec<Vec<usize>>, Failure<TooManySets>>
    requires { IsPostfix (map node_of nodes.now) }
    ensures ok { IfOk result (λ sets. AreMinimalSets (tree_in nodes.now) (sets_in sets.items)) }
    ensures few { IfOk result (λ sets. IsOk (made_in (tree_in nodes.now))) }
    ensures err { IfErr result (IfRefused (λ e. made_in (tree_in nodes.now) ≡ Err e.0)) }
{
    let numbers = places_among(alloc, nodes, nodes)?;
    let sets = sets_of(alloc, nodes, numbers.as_slice())?;
    Ok(in_order(alloc, sets)?)
}
