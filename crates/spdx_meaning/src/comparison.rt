//! How what two expressions ask compares, and what tells them apart.

ghost use Rattle.std.specs.Prelude.{◌≡◌, ◌⊎◌, IfOk, IfErr, Err, map};
ghost use Rattle.spdx_requirement.specs.Failures.{IfRefused};
ghost use Rattle.spdx_parser.specs.Tree.{node_of};
ghost use Rattle.spdx_evaluation.specs.Postfix.{IsPostfix, tree_in};
ghost use Rattle.selections.specs.Sets.{sets_in};
ghost use Rattle.spdx_meaning.specs.Made.{made_in};
ghost use Rattle.spdx_meaning.specs.Minimal.{AreMinimalSets};
ghost use Rattle.spdx_meaning.specs.Comparing.{IsComparisonOf};

pub(crate) mod apart;

use crate::comparison::apart::fewest_apart;
use crate::error::TooManySets;
use crate::minimal::minimal_sets;
use crate::relation::{Relation, relation_of};
use spdx_catalogue::Failure;
use spdx_parser::node::ExprNode;
use std::alloc::{AllocError, Global};

/// How what two expressions ask compares, and what tells them apart.
#[derive(Drop)]
pub struct Comparison {
    pub relation: Relation,
    /// Requirements with which alone the first holds and the second doesn't, as few as there are; none where the first asks
    /// at least what the second one asks.
    pub first_alone: Option<Vec<String>>,
    /// The same the other way round.
    pub second_alone: Option<Vec<String>>,
}

/// How what the one expression asks compares with what the other one asks.
///
/// # Errors
///
/// Too many sets are made of one, or memory was refused; the first one's are made first.
pub fn compare_nodes<'c>(
    alloc: Global,
    one: &[ExprNode<'c>],
    other: &[ExprNode<'c>],
) -> Result<Comparison, Failure<TooManySets>>
    requires tree { IsPostfix (map node_of one.now) }
    requires other { IsPostfix (map node_of other.now) }
    ensures ok { IfOk result (IsComparisonOf (tree_in one.now) (tree_in other.now)) }
    ensures err { IfErr result (IfRefused (λ e.
        (made_in (tree_in one.now) ≡ Err e.0) ⊎ (made_in (tree_in other.now) ≡ Err e.0))) }
{
    let of_one = minimal_sets(alloc, one)?;
    let of_other = minimal_sets(alloc, other)?;
    Ok(compare_sets(alloc, one, &of_one, other, &of_other)?)
}

/// The same of expressions whose minimal sets are known. Each is read once for each set of the other one up to the first that
/// tells them apart.
///
/// # Errors
///
/// Memory was refused.
pub fn compare_sets<'c>(
    alloc: Global,
    one: &[ExprNode<'c>],
    of_one: &[Vec<usize>],
    other: &[ExprNode<'c>],
    of_other: &[Vec<usize>],
) -> Result<Comparison, AllocError>
    requires tree { IsPostfix (map node_of one.now) }
    requires other { IsPostfix (map node_of other.now) }
    requires minimal { AreMinimalSets (tree_in one.now) (sets_in of_one.now) }
    requires minimal_other { AreMinimalSets (tree_in other.now) (sets_in of_other.now) }
    ensures { IfOk result (IsComparisonOf (tree_in one.now) (tree_in other.now)) }
{
    let first_alone = fewest_apart(alloc, one, other, of_one)?;
    let second_alone = fewest_apart(alloc, other, one, of_other)?;
    Ok(Comparison {
        relation: relation_of(first_alone.is_none(), second_alone.is_none()),
        first_alone,
        second_alone,
    })
}
