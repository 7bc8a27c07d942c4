// What a policy says of an expression's requirements, as it is told.

ghost use Rattle.std.specs.Prelude.{◌≡◌, [], ◌∷◌, IfOk, map, string_bytes, unwrap_or, slice_get};
ghost use Rattle.spdx_policy.specs.declared.decision.Decision.TheVariants as decision;
ghost use Rattle.gate_told.specs.Moved.{moved};
ghost use Rattle.gate_told.specs.Told as spec;
ghost use Rattle.gate_told.specs.Told.{decider_text, decision_at, told_leaf, told_leaves};
ghost use Rattle.gate_told.specs.Texts.{IsShown, owned_leaf};

use crate::entries::entry_text;
use crate::unread::told_reason;
use gate_forms::{Leaf, Mark};
use spdx_catalogue::Catalogue;
use spdx_gate::{Judged, Judgement, Outcome};
use spdx_parser::node::{ExprNode, ExpressionReq};
use spdx_policy::{Decision, Policy};
use std::alloc::{AllocError, Global};

/// A requirement, with its texts.
#[derive(Drop)]
pub(crate) struct Requirement {
    pub(crate) text: String,
    pub(crate) start: usize,
    pub(crate) end: usize,
    pub(crate) mark: Mark,
    pub(crate) by: String,
}

/// The texts that are told of a judgement: those of its expression's requirements, or the reason why it has none.
#[derive(Drop)]
pub struct JudgedTexts {
    pub(crate) requirements: Vec<Requirement>,
    pub(crate) reason: String,
}

impl JudgedTexts {
    /// Those of what the policy made of a text.
    ///
    /// # Errors
    ///
    /// Memory was refused.
    pub fn of(
        alloc: Global,
        catalogue: &Catalogue,
        policy: &Policy<'_>,
        judgement: &Judgement<'_>,
    ) -> Result<JudgedTexts, AllocError>
        ensures { IfOk result (λ shown.
            IsShown catalogue.now policy.now judgement.now shown) }
    {
        match &judgement.outcome {
            Outcome::Judged(judged) => Ok(JudgedTexts {
                requirements: requirements(alloc, policy, judged)?,
                reason: String::new(alloc),
            }),
            Outcome::Unreadable(fault) => Ok(JudgedTexts {
                requirements: Vec::new(alloc),
                reason: told_reason(
                    alloc,
                    catalogue,
                    policy.is_lax(),
                    judgement.text.as_str(),
                    fault,
                )?,
            }),
        }
    }

    /// The requirements as leaves, from left to right.
    pub(crate) fn leaves(&self, alloc: Global) -> Result<Vec<Leaf<'_>>, AllocError>
        ensures { IfOk result (λ leaves.
            map moved leaves.items ≡ map owned_leaf self.now.requirements.items) }
    {
        let mut leaves = Vec::new(alloc);
        let requirements = self.requirements.as_slice();
        for requirement in requirements {
            leaves.push(requirement.leaf())?;
        }
        Ok(leaves)
    }
}

impl Requirement {
    fn leaf(&self) -> Leaf<'_>
        ensures { moved result ≡ owned_leaf self.now }
    {
        Leaf {
            text: self.text.as_str(),
            start: self.start,
            end: self.end,
            mark: self.mark,
            by: self.by.as_str(),
        }
    }
}

fn requirements(
    alloc: Global,
    policy: &Policy<'_>,
    judged: &Judged<'_>,
) -> Result<Vec<Requirement>, AllocError>
    ensures { IfOk result (λ told. map owned_leaf told.items ≡ told_leaves policy.now judged.now) }
{
    let mut told = Vec::new(alloc);
    let decisions = judged.decisions.as_slice();
    let nodes = judged.nodes.as_slice();
    for node in nodes {
        if let ExprNode::Req(requirement) = node {
            let decision = decision_at(decisions, told.len());
            told.push(told_requirement(alloc, policy, requirement, decision)?)?;
        }
    }
    Ok(told)
}

fn told_requirement(
    alloc: Global,
    policy: &Policy<'_>,
    requirement: &ExpressionReq<'_>,
    decision: Decision,
) -> Result<Requirement, AllocError>
    ensures { IfOk result (λ told.
        owned_leaf told ≡ told_leaf policy.now requirement.now decision) }
{
    let req = &requirement.req;
    Ok(Requirement {
        text: format!(in alloc; "{req}")?,
        start: requirement.span.start,
        end: requirement.span.end,
        mark: told_mark(decision),
        by: decider(alloc, policy, decision)?,
    })
}

fn decision_at(decisions: &[Decision], number: usize) -> Decision
    ensures { result ≡ decision_at decisions.now number }
{
    match decisions.get(number) {
        Some(decision) => *decision,
        None => Decision::Open,
    }
}

fn told_mark(decision: Decision) -> Mark
    ensures { result ≡ spec.told_mark decision }
{
    match decision {
        Decision::Allowed(_) => Mark::Accepted,
        Decision::Denied(_) => Mark::Denied,
        Decision::Open => Mark::Open,
    }
}

fn decider(alloc: Global, policy: &Policy<'_>, decision: Decision) -> Result<String, AllocError>
    ensures { IfOk result (λ text. string_bytes text ≡ decider_text policy.now decision) }
{
    match decision {
        Decision::Allowed(entry) => entry_text(alloc, policy, entry),
        Decision::Denied(entry) => entry_text(alloc, policy, entry),
        Decision::Open => Ok(String::new(alloc)),
    }
}
