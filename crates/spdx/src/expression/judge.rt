//! Judging selections of licensees.

ghost use Rattle.std.specs.Prelude.{◌≡◌, [], ◌∷◌, IfOk, length};
ghost use Rattle.spdx_evaluation.specs.Requirements.{nows};
ghost use Rattle.spdx_minimize.specs.Trees.{trees_in};
ghost use Rattle.spdx.specs.Value.{trees_of};

use crate::expression::Expression;
use selections::Sufficiency;
use spdx_licensee::Licensee;
use spdx_minimize::{NodesJudge, TreeNodes};
use std::alloc::{AllocError, Global};
use std::slice;

/// Judges selections of some members: one suffices if it makes every one of some expressions true,
/// where a requirement is met if a chosen member satisfies it.
///
/// Which members satisfy which requirement is found once, when the judge is made, and so is the
/// memory for the truths taken. A question then costs one walk over the nodes of the expressions up
/// to the first that is false, and at each requirement over the places of the members that satisfy
/// it up to the first that is chosen.
#[derive(Drop)]
pub struct ExpressionJudge<'a, 'c: 'a> {
    of_nodes: NodesJudge<'a, 'c>,
}

impl<'a, 'c: 'a> ExpressionJudge<'a, 'c> {
    ghost use Rattle.spdx.specs.JudgeModel.{judged_trees, judged_members, judged_count, questions_asked};

    /// The judge of one expression over these members.
    pub fn new(
        alloc: Global,
        expr: &'a Expression<'c>,
        members: &[&'a Licensee<'c>],
    ) -> Result<Self, AllocError>
        ensures tree { IfOk result (λ judge. judged_trees judge ≡ expr.now.tree ∷ []) }
        ensures members { IfOk result (λ judge. judged_members judge ≡ nows members.now) }
        ensures count { IfOk result (λ judge. judged_count judge ≡ length members.now) }
        ensures asked { IfOk result (λ judge. questions_asked judge ≡ 0) }
    {
        let list = TreeNodes::new(expr.nodes());
        let of_nodes = NodesJudge::new(alloc, slice::from_ref(&list), members)?;
        Ok(ExpressionJudge { of_nodes })
    }

    /// The judge of these expressions over these members. Each member is compared with each
    /// requirement once. While it is made, a list of the expressions takes memory.
    pub fn new_all(
        alloc: Global,
        exprs: &[&'a Expression<'c>],
        members: &[&'a Licensee<'c>],
    ) -> Result<Self, AllocError>
        ensures trees { IfOk result (λ judge. judged_trees judge ≡ trees_of exprs.now) }
        ensures members { IfOk result (λ judge. judged_members judge ≡ nows members.now) }
        ensures count { IfOk result (λ judge. judged_count judge ≡ length members.now) }
        ensures asked { IfOk result (λ judge. questions_asked judge ≡ 0) }
    {
        let lists = nodes_of_all(alloc, exprs)?;
        let of_nodes = NodesJudge::new(alloc, lists.as_slice(), members)?;
        Ok(ExpressionJudge { of_nodes })
    }

    /// How many questions were asked; at most `u64::MAX` are counted.
    pub fn asked(&self) -> u64
        ensures { result ≡ questions_asked self.now }
    {
        self.of_nodes.asked()
    }
}

impl<'a, 'c: 'a> Sufficiency for ExpressionJudge<'a, 'c> {
    ghost use Rattle.spdx.specs.JudgeModel.{judged_trees, judged_members, judged_count, questions_asked};
    ghost use Rattle.spdx_minimize.specs.Choice.{suffices_for};
    ghost use Rattle.spdx_minimize.specs.GrowthLaws.{suffices_grows};

    ghost count = { λ judge. judged_count judge };

    ghost suffices = { λ judge selection.
        suffices_for (judged_trees judge) (judged_members judge) selection };

    ghost asked = { λ judge. questions_asked judge };

    fn members(&self) -> usize {
        self.of_nodes.members()
    }

    fn judge(&mut self, selection: &[bool]) -> bool {
        self.of_nodes.judge(selection)
    }

    ghost grows = { λ judge some more e h f.
        suffices_grows (judged_trees judge) (judged_members judge) some more h f };
}

/// The nodes of each of the expressions.
pub(crate) fn nodes_of_all<'a, 'c>(
    alloc: Global,
    exprs: &[&'a Expression<'c>],
) -> Result<Vec<TreeNodes<'a, 'c>>, AllocError>
    ensures { IfOk result (λ lists. trees_in lists.items ≡ trees_of exprs.now) }
{
    let mut lists = Vec::with_capacity(alloc, exprs.len())?;
    for expr in exprs {
        lists.push(TreeNodes::new(expr.nodes()))?;
    }
    Ok(lists)
}
