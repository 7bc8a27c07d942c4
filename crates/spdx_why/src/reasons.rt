//! The requirements that a refusal hangs on.

ghost use Rattle.std.specs.Prelude.{◌≡◌, ◌≤◌, ◌++◌, ◌∷◌, [], Bool, cond, length, map, take, true, IfOk, List};
ghost use Rattle.spdx_parser.specs.Tree.{leaves, node_of};
ghost use Rattle.spdx_evaluation.specs.Postfix.{IsPostfix, tree_in};
ghost use Rattle.spdx_evaluation.specs.Truth.{joined, truth_of};
ghost use Rattle.spdx_why.specs.Marks.{allows};
ghost use Rattle.spdx_why.specs.Missing.{missing_of, Cures, Binds};
ghost use Rattle.spdx_why.specs.declared.parts.Part.{Part};

use crate::marks::Mark;
use crate::parts::Part;
use spdx_parser::node::{ExprNode, Operator};
use std::alloc::{AllocError, Global};

/// Whether the expression passes where each requirement has its mark. Linear.
pub fn is_accepted(
    alloc: Global,
    nodes: &[ExprNode<'_>],
    marks: &[Mark],
) -> Result<bool, AllocError>
    requires tree { IsPostfix (map node_of nodes.now) }
    requires each { length marks.now ≡ length (leaves (tree_in nodes.now)) }
    ensures { IfOk result (λ b. b ≡ truth_of (tree_in nodes.now) (map allows marks.now)) }
{
    Ok(missing(alloc, nodes, marks)?.as_slice().is_empty())
}

/// The numbers of the requirements that the refusal hangs on, ascending: those of the parts that are
/// refused, and of nothing inside a part that is accepted. None, where the expression passes.
/// Linear.
///
/// Accept them all beside what is allowed, and the expression passes; while none of them is accepted
/// it is refused, whatever else is.
pub fn missing(
    alloc: Global,
    nodes: &[ExprNode<'_>],
    marks: &[Mark],
) -> Result<Vec<usize>, AllocError>
    requires tree { IsPostfix (map node_of nodes.now) }
    requires each { length marks.now ≡ length (leaves (tree_in nodes.now)) }
    ensures exact { IfOk result (λ missing.
        missing.items ≡ missing_of (tree_in nodes.now) (map allows marks.now)) }
    ensures cures { IfOk result (λ missing.
        Cures (tree_in nodes.now) (map allows marks.now) missing.items) }
    ensures binds { IfOk result (λ missing.
        Binds (tree_in nodes.now) (map allows marks.now) missing.items) }
{
    let mut missing = Vec::new(alloc);
    let mut parts = Vec::new(alloc);
    let mut number = 0;
    for node in nodes {
        match node {
            ExprNode::Req(_) => {
                let is_allowed = marks[number].is_allowed();
                put_requirement(&mut missing, &mut parts, number, is_allowed)?;
                number += 1;
            }
            ExprNode::Op(operator) => put_join(&mut missing, &mut parts, *operator)?,
        }
    }
    Ok(missing)
}

// One requirement more, which is missing where it isn't allowed.
fn put_requirement(
    missing: &mut Vec<usize>,
    parts: &mut Vec<Part>,
    number: usize,
    is_allowed: bool,
) -> Result<(), AllocError>
    ensures missing { IfOk result (λ _.
        missing.new.items ≡ missing.old.items ++ cond is_allowed [] (number ∷ [])) }
    ensures parts { IfOk result (λ _. parts.new.items ≡ parts.old.items ++
        record { truth = is_allowed; from = length missing.old.items } ∷ []) }
{
    let from = missing.len();
    if !is_allowed {
        missing.push(number)?;
    }
    parts.push(Part {
        truth: is_allowed,
        from,
    })?;
    Ok(())
}

// The two newest parts become one, inside of which nothing is missing where it is accepted.
fn put_join(
    missing: &mut Vec<usize>,
    parts: &mut Vec<Part>,
    operator: Operator,
) -> Result<(), AllocError>
    requires { 2 ≤ length parts.old.items }
    ensures missing { IfOk result (λ _. (rest : List Part) → (left right : Part) →
        parts.old.items ≡ (rest ++ left ∷ []) ++ right ∷ [] → missing.new.items ≡
        cond (joined operator left.truth right.truth) (take left.from missing.old.items)
        missing.old.items) }
    ensures parts { IfOk result (λ _. (rest : List Part) → (left right : Part) →
        parts.old.items ≡ (rest ++ left ∷ []) ++ right ∷ [] → parts.new.items ≡ rest ++
        record { truth = joined operator left.truth right.truth; from = left.from } ∷ []) }
{
    let Some(right) = parts.pop() else {
        unreachable!()
    };
    let Some(left) = parts.pop() else {
        unreachable!()
    };
    let truth = match operator {
        Operator::And => left.truth && right.truth,
        Operator::Or => left.truth || right.truth,
    };
    if truth {
        missing.truncate(left.from);
    }
    parts.push(Part {
        truth,
        from: left.from,
    })?;
    Ok(())
}
