//! The fewest candidates that make an expression pass, where each serves some of its requirements.

ghost use Rattle.std.specs.Prelude.{◌≡◌, IfOk, length, map};
ghost use Rattle.spdx_parser.specs.Tree.{leaves, node_of};
ghost use Rattle.spdx_evaluation.specs.Postfix.{IsPostfix, tree_in};
ghost use Rattle.spdx_why.specs.Least.{numbers_of, advised, IsLeastRemedy};
ghost use Rattle.spdx_why.specs.Serving.{lists_in, serves_in, choice_among, ChoosesBelow, ChoiceCures, NoChoiceCures};

use crate::choice::Remedy;
use crate::judge::ChoiceJudge;
use selections::least_selection;
use spdx_parser::node::ExprNode;
use std::alloc::{AllocError, Global};

/// The least choice among so many candidates, numbered from 0, that makes the expression pass beside
/// what is accepted. For each requirement, in the order of the text, `serving` lists the numbers of
/// the candidates that serve it; a number that no candidate has counts for nothing.
///
/// A requirement is met if it is accepted, or if a chosen candidate serves it. Of the sufficient
/// choices it is the one that, against each other one, leaves out the last candidate on which the
/// two differ; so none of it can be left out with the rest sufficient.
///
/// At most one question more than there are candidates is asked, each a walk over the nodes and the
/// lists; so of more than 1,024 candidates none are judged.
pub fn least_serving(
    alloc: Global,
    nodes: &[ExprNode<'_>],
    accepted: &[bool],
    serving: &[Vec<usize>],
    count: usize,
) -> Result<Remedy, AllocError>
    requires tree { IsPostfix (map node_of nodes.now) }
    requires each { length accepted.now ≡ length (leaves (tree_in nodes.now)) }
    requires served { length serving.now ≡ length (leaves (tree_in nodes.now)) }
    ensures exact { IfOk result (λ choice. advised choice ≡
        choice_among (tree_in nodes.now) accepted.now (lists_in serving.now) count) }
    ensures least { IfOk result (λ choice. IsLeastRemedy
        (serves_in (tree_in nodes.now) accepted.now (lists_in serving.now)) count choice) }
    ensures within { IfOk result (λ choice. ChoosesBelow count choice) }
    ensures cures { IfOk result (λ choice.
        ChoiceCures (tree_in nodes.now) accepted.now (lists_in serving.now) choice) }
    ensures unmet { IfOk result (λ choice.
        NoChoiceCures (tree_in nodes.now) accepted.now (lists_in serving.now) count choice) }
{
    if count > 1024 {
        return Ok(Remedy::TooMany(count));
    }
    let mut judge = ChoiceJudge::new(alloc, nodes, accepted, serving, count)?;
    let mut selection = Vec::from_elem(alloc, false, count)?;
    let chosen = selection.as_mut_slice();
    if !least_selection(&mut judge, chosen) {
        return Ok(Remedy::Unmet);
    }
    Ok(Remedy::Accept(chosen_numbers(alloc, chosen)?))
}

// The numbers of the chosen.
fn chosen_numbers(alloc: Global, selection: &[bool]) -> Result<Vec<usize>, AllocError>
    ensures { IfOk result (λ numbers. numbers.items ≡ numbers_of selection.now) }
{
    let mut numbers = Vec::new(alloc);
    for number in 0..selection.len() {
        if selection[number] {
            numbers.push(number)?;
        }
    }
    Ok(numbers)
}
