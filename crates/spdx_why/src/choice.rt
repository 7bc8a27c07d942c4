//! The fewest requirements that make an expression pass.

ghost use Rattle.std.specs.Prelude.{◌≡◌, IfOk, length, map};
ghost use Rattle.spdx_parser.specs.Tree.{leaves, node_of};
ghost use Rattle.spdx_evaluation.specs.Postfix.{IsPostfix, tree_in};
ghost use Rattle.spdx_why.specs.Marks.{allows, leaves_open, none_of};
ghost use Rattle.spdx_why.specs.Least.{suffices_in, choice_of, advised, IsLeastRemedy, AdvisesOnly};

use crate::firsts::first_candidates;
use crate::marks::Mark;
use crate::serving::least_serving;
use spdx_parser::node::ExprNode;
use std::alloc::{AllocError, Global};

/// What would make an expression pass.
#[derive(Debug, Drop)]
pub enum Remedy {
    /// To accept the requirements of these numbers, ascending: the least choice. None, where the
    /// expression passes already.
    Accept(Vec<usize>),
    /// Nothing: not even all that may be accepted suffice.
    Unmet,
    /// It wasn't sought: the expression has so many requirements, more than 1,024.
    TooMany(usize),
}

/// The least choice among the open requirements that makes the expression pass beside the allowed
/// ones; a denied one is never advised. As [`least`] of both.
pub fn advice(alloc: Global, nodes: &[ExprNode<'_>], marks: &[Mark]) -> Result<Remedy, AllocError>
    requires tree { IsPostfix (map node_of nodes.now) }
    requires each { length marks.now ≡ length (leaves (tree_in nodes.now)) }
    ensures exact { IfOk result (λ advice. advised advice ≡
        choice_of (tree_in nodes.now) (map allows marks.now) (map leaves_open marks.now)) }
    ensures least { IfOk result (λ advice. IsLeastRemedy
        (suffices_in (tree_in nodes.now) (map allows marks.now) (map leaves_open marks.now))
        (length marks.now) advice) }
    ensures open { IfOk result (λ advice. AdvisesOnly (map leaves_open marks.now) advice) }
{
    let accepted = allowed_among(alloc, marks)?;
    let candidates = open_among(alloc, marks)?;
    least(alloc, nodes, accepted.as_slice(), candidates.as_slice())
}

/// The least choice among the allowed requirements, where nothing was accepted before: what is used of an expression that
/// passes. As [`least`] of none and these.
pub fn least_allowed(
    alloc: Global,
    nodes: &[ExprNode<'_>],
    marks: &[Mark],
) -> Result<Remedy, AllocError>
    requires tree { IsPostfix (map node_of nodes.now) }
    requires each { length marks.now ≡ length (leaves (tree_in nodes.now)) }
    ensures exact { IfOk result (λ choice. advised choice ≡
        choice_of (tree_in nodes.now) (none_of marks.now) (map allows marks.now)) }
    ensures least { IfOk result (λ choice. IsLeastRemedy
        (suffices_in (tree_in nodes.now) (none_of marks.now) (map allows marks.now))
        (length marks.now) choice) }
    ensures allowed { IfOk result (λ choice. AdvisesOnly (map allows marks.now) choice) }
{
    let nothing = none_among(alloc, marks)?;
    let candidates = allowed_among(alloc, marks)?;
    least(alloc, nodes, nothing.as_slice(), candidates.as_slice())
}

/// The least choice among the candidates that makes the expression pass beside what is accepted.
///
/// A requirement is met if it is accepted, or if the first candidate that is the same requirement is
/// chosen. Of the sufficient choices it is the one that, against each other one, leaves out the last
/// requirement on which the two differ; so it holds first places alone, and none of it can be left
/// out with the rest sufficient.
///
/// Each requirement is compared with each other, and at most one question more than there are
/// requirements is asked, each a walk over the nodes; so more than 1,024 are not judged.
pub fn least(
    alloc: Global,
    nodes: &[ExprNode<'_>],
    accepted: &[bool],
    candidates: &[bool],
) -> Result<Remedy, AllocError>
    requires tree { IsPostfix (map node_of nodes.now) }
    requires each { length accepted.now ≡ length (leaves (tree_in nodes.now)) }
    requires candidates { length candidates.now ≡ length (leaves (tree_in nodes.now)) }
    ensures exact { IfOk result (λ advice. advised advice ≡
        choice_of (tree_in nodes.now) accepted.now candidates.now) }
    ensures least { IfOk result (λ advice. IsLeastRemedy
        (suffices_in (tree_in nodes.now) accepted.now candidates.now)
        (length accepted.now) advice) }
    ensures only { IfOk result (λ advice. AdvisesOnly candidates.now advice) }
{
    let count = accepted.len();
    if count > 1024 {
        return Ok(Remedy::TooMany(count));
    }
    let serving = first_candidates(alloc, nodes, candidates)?;
    least_serving(alloc, nodes, accepted, serving.as_slice(), count)
}

// Whether each mark allows.
fn allowed_among(alloc: Global, marks: &[Mark]) -> Result<Vec<bool>, AllocError>
    ensures { IfOk result (λ answers. answers.items ≡ map allows marks.now) }
{
    marks.iter().map(|mark| mark.is_allowed()).collect(alloc)
}

// Nothing is accepted, for each mark.
fn none_among(alloc: Global, marks: &[Mark]) -> Result<Vec<bool>, AllocError>
    ensures { IfOk result (λ answers. answers.items ≡ none_of marks.now) }
{
    marks.iter().map(|_| false).collect(alloc)
}

// Whether each mark leaves open.
fn open_among(alloc: Global, marks: &[Mark]) -> Result<Vec<bool>, AllocError>
    ensures { IfOk result (λ answers. answers.items ≡ map leaves_open marks.now) }
{
    marks.iter().map(|mark| mark.is_open()).collect(alloc)
}
