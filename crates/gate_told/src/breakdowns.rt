// What is told of a judgement, but for the packages that it is of.

ghost use Rattle.std.specs.Prelude.{◌≡◌, ◌++◌, IfOk, OnOk, map, string_bytes};
ghost use Rattle.spdx_policy.specs.Rules.{Rules};
ghost use Rattle.gate_told.specs.Moved.{moved_advice, moved_why};
ghost use Rattle.gate_told.specs.Told as spec;
ghost use Rattle.gate_told.specs.Told.{leaf_at, leaves_at, telling_of, told_why};
ghost use Rattle.gate_told.specs.Texts.{Agrees, advice_of, leaves_in, owned_leaf, telling_in};

use crate::judged_texts::JudgedTexts;
use crate::tree::parts;
use crate::unused::names_of;
use gate_forms::{Advice, Leaf, Node, Verdict as ToldVerdict, Why};
use spdx_gate::{Advice as Given, Judgement, Outcome, Verdict};
use std::alloc::{AllocError, Global};

/// What would make an expression pass.
#[derive(Drop)]
pub(crate) enum Help<'s> {
    /// Nothing that may be allowed.
    Unmet,
    /// These entries in `allow`.
    Allow(Vec<&'s str>),
    /// It wasn't sought among so many entries.
    NotSought(usize),
}

/// The parts of an expression, and what its refusal hangs on; or where its fault is.
#[derive(Drop)]
pub struct Breakdown<'s> {
    /// The text.
    pub expression: &'s str,
    /// The parts, as they are shown; none where it is no expression.
    pub nodes: Vec<Node<'s>>,
    pub(crate) missing: Vec<Leaf<'s>>,
    pub(crate) help: Help<'s>,
    // The reason, and the bytes that it speaks of.
    pub(crate) fault: Option<(&'s str, usize, usize)>,
}

impl<'s> Breakdown<'s> {
    /// That of a judgement with these texts. The first part is accepted exactly where the verdict is that the expression
    /// passes.
    ///
    /// # Errors
    ///
    /// Memory was refused.
    pub fn of(
        alloc: Global,
        judgement: &'s Judgement<'_>,
        shown: &'s JudgedTexts,
    ) -> Result<Breakdown<'s>, AllocError>
        ensures exact { IfOk result (λ breakdown. (p : Rules) →
            map owned_leaf shown.now.requirements.items ≡ leaves_in p judgement.now.outcome →
            telling_in breakdown ≡ telling_of p (string_bytes shown.now.reason) judgement.now) }
        ensures agrees { IfOk result (λ breakdown. Agrees judgement.now shown.now breakdown) }
    {
        let expression = judgement.text.as_str();
        match &judgement.outcome {
            Outcome::Judged(judged) => {
                let leaves = shown.leaves(alloc)?;
                Ok(Breakdown {
                    expression,
                    nodes: parts(alloc, judged.nodes.as_slice(), &leaves)?,
                    missing: leaves_at(alloc, &leaves, &judged.missing)?,
                    help: help_by(alloc, &judged.advice)?,
                    fault: None,
                })
            }
            Outcome::Unreadable(fault) => Ok(Breakdown {
                expression,
                nodes: Vec::new(alloc),
                missing: Vec::new(alloc),
                help: Help::Unmet,
                fault: Some((shown.reason.as_str(), fault.span.start, fault.span.end)),
            }),
        }
    }

    /// Why a package with this verdict is refused; nothing where it isn't, or states no licence.
    pub fn why(&self, verdict: Verdict) -> Why<'_>
        ensures { moved_why result ≡ told_why (telling_in self.now) verdict }
    {
        match verdict {
            Verdict::Unreadable => self.fault_why(),
            Verdict::Refused => Why::Missing {
                leaves: self.missing.as_slice(),
                advice: self.help.advice(),
            },
            Verdict::Allowed | Verdict::ByException | Verdict::Unstated(_) => Why::Nothing,
        }
    }

    fn fault_why(&self) -> Why<'_>
        ensures { moved_why result ≡ spec.fault_why (telling_in self.now).fault }
    {
        match self.fault {
            Some((reason, start, end)) => Why::Fault { reason, start, end },
            None => Why::Nothing,
        }
    }
}

impl<'s> Help<'s> {
    fn advice(&self) -> Advice<'_>
        ensures { moved_advice result ≡ advice_of self.now }
    {
        match self {
            Help::Unmet => Advice::Unmet,
            Help::Allow(names) => Advice::Allow(names.as_slice()),
            Help::NotSought(entries) => Advice::NotSought { entries: *entries },
        }
    }
}

fn help_by<'s>(alloc: Global, advice: &'s Given) -> Result<Help<'s>, AllocError>
    ensures { IfOk result (λ help. advice_of help ≡ spec.told_advice advice.now) }
{
    match advice {
        Given::Allow(texts) => Ok(Help::Allow(names_of(alloc, texts)?)),
        Given::Unmet => Ok(Help::Unmet),
        Given::TooMany(entries) => Ok(Help::NotSought(*entries)),
    }
}

// Those of the leaves that have these numbers.
fn leaves_at<'s>(
    alloc: Global,
    leaves: &[Leaf<'s>],
    numbers: &[usize],
) -> Result<Vec<Leaf<'s>>, AllocError>
    ensures { IfOk result (λ those. those.items ≡ leaves_at leaves.now numbers.now) }
{
    let mut those = Vec::new(alloc);
    for number in numbers {
        add_at(&mut those, leaves, *number)?;
    }
    Ok(those)
}

fn add_at<'s>(
    those: &mut Vec<Leaf<'s>>,
    leaves: &[Leaf<'s>],
    number: usize,
) -> Result<(), AllocError>
    ensures { OnOk result (those.new.items ≡ those.old.items ++ leaf_at leaves.now number) }
{
    match leaves.get(number) {
        Some(leaf) => {
            those.push(*leaf)?;
            Ok(())
        }
        None => Ok(()),
    }
}

/// The verdict, as it is told.
pub fn told_verdict(verdict: Verdict) -> ToldVerdict
    ensures { result ≡ spec.told_verdict verdict }
{
    match verdict {
        Verdict::Allowed => ToldVerdict::Allowed,
        Verdict::ByException => ToldVerdict::ByException,
        Verdict::Unstated(allowed) => ToldVerdict::Unstated { allowed },
        Verdict::Unreadable | Verdict::Refused => ToldVerdict::Refused,
    }
}
