//! The least sets of numbers that make an expression hold, from its nodes in postfix order.

ghost use Rattle.std.specs.Prelude.{◌≡◌, ◌≤◌, ◌++◌, ◌∷◌, [], ℕ, length, map, vec_len, IfOk, IfErr, OnOk, Ok, Err};
ghost use Rattle.spdx_requirement.specs.Failures.{IfRefused};
ghost use Rattle.spdx_requirement.specs.Items.{Requirement};
ghost use Rattle.spdx_parser.specs.Tree.{leaves, node_of};
ghost use Rattle.spdx_evaluation.specs.Postfix.{IsPostfix, tree_in};
ghost use Rattle.selections.specs.Sets.{sets_in};
ghost use Rattle.spdx_meaning.specs.Made.{count_made, made_of, made_by};
ghost use Rattle.spdx_meaning.specs.Stack.{stack_in, AreFew, join_top};

use crate::error::TooManySets;
use selections::sets::{both, either};
use spdx_catalogue::Failure;
use spdx_parser::node::{ExprNode, Operator};
use std::alloc::{AllocError, Global};

// So many sets are made at most.
const MOST_SETS: usize = 4096;

/// The least sets of numbers that make the expression hold, where its requirements, from left to right, have these numbers.
/// None includes another; they stand in the order in which they were made.
///
/// # Errors
///
/// Memory was refused, or too many sets are made, as [`crate::minimal_sets`] says.
pub fn sets_of(
    alloc: Global,
    nodes: &[ExprNode<'_>],
    numbers: &[usize],
) -> Result<Vec<Vec<usize>>, Failure<TooManySets>>
    requires tree { IsPostfix (map node_of nodes.now) }
    requires each { length numbers.now ≡ length (leaves (tree_in nodes.now)) }
    ensures ok { IfOk result (λ sets. (f : Requirement → ℕ) →
        numbers.now ≡ map f (leaves (tree_in nodes.now)) →
        made_by f (tree_in nodes.now) ≡ Ok (sets_in sets.items)) }
    ensures err { IfErr result (IfRefused (λ e. (f : Requirement → ℕ) →
        numbers.now ≡ map f (leaves (tree_in nodes.now)) →
        made_by f (tree_in nodes.now) ≡ Err e.0)) }
{
    let mut stack = Vec::new(alloc);
    let mut number = 0;
    for node in nodes {
        match node {
            ExprNode::Req(_) => {
                push_one(alloc, &mut stack, numbers[number])?;
                number += 1;
            }
            ExprNode::Op(operator) => join_newest(alloc, &mut stack, *operator)?,
        }
    }
    Ok(stack.pop().unwrap())
}

// Pushes the set of one number.
fn push_one(
    alloc: Global,
    stack: &mut Vec<Vec<Vec<usize>>>,
    number: usize,
) -> Result<(), AllocError>
    ensures { OnOk result (stack_in stack.new.items
        ≡ ((number ∷ []) ∷ []) ∷ stack_in stack.old.items) }
{
    let mut set = Vec::new(alloc);
    set.push(number)?;
    let mut sets = Vec::new(alloc);
    sets.push(set)?;
    stack.push(sets)?;
    Ok(())
}

// Makes one of the two newest.
fn join_newest(
    alloc: Global,
    stack: &mut Vec<Vec<Vec<usize>>>,
    operator: Operator,
) -> Result<(), Failure<TooManySets>>
    requires two { 2 ≤ vec_len stack.old }
    requires few { AreFew (stack_in stack.old.items) }
    ensures ok { OnOk result (join_top operator (stack_in stack.old.items)
        ≡ Ok (stack_in stack.new.items)) }
    ensures err { IfErr result (IfRefused (λ e.
        join_top operator (stack_in stack.old.items) ≡ Err e.0)) }
{
    let right = stack.pop().unwrap();
    let left = stack.pop().unwrap();
    let joined = join(alloc, operator, left, right)?;
    stack.push(joined)?;
    Ok(())
}

// The least sets of the operator, unless too many are made.
fn join(
    alloc: Global,
    operator: Operator,
    left: Vec<Vec<usize>>,
    right: Vec<Vec<usize>>,
) -> Result<Vec<Vec<usize>>, Failure<TooManySets>>
    requires left_few { vec_len left ≤ 4096 }
    requires right_few { vec_len right ≤ 4096 }
    ensures ok { IfOk result (λ sets.
        made_of operator (sets_in left.items) (sets_in right.items) ≡ Ok (sets_in sets.items)) }
    ensures err { IfErr result (IfRefused (λ e.
        made_of operator (sets_in left.items) (sets_in right.items) ≡ Err e.0)) }
{
    let count = count_made(operator, left.len(), right.len());
    if count > MOST_SETS {
        return Err(Failure::Refused(TooManySets(count)));
    }
    match operator {
        Operator::And => Ok(both(alloc, left, right)?),
        Operator::Or => Ok(either(left, right)?),
    }
}

// How many sets the operator makes of so many.
fn count_made(operator: Operator, left: usize, right: usize) -> usize
    requires left_few { left ≤ 4096 }
    requires right_few { right ≤ 4096 }
    ensures { result ≡ count_made operator left right }
{
    match operator {
        Operator::And => left * right,
        Operator::Or => left + right,
    }
}
