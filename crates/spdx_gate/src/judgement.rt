//! What a policy says of one text.

ghost use Rattle.std.specs.Prelude.{◌≡◌, [], IfOk, map};
ghost use Rattle.spdx_parser.specs.Tree.{leaves, node_of};
ghost use Rattle.spdx_evaluation.specs.Postfix.{IsPostfix, tree_in};
ghost use Rattle.spdx_evaluation.specs.Truth.{holds};
ghost use Rattle.spdx_policy.specs.Decisions.{decision_of};
ghost use Rattle.spdx_gate.specs.Judging as spec;
ghost use Rattle.spdx_gate.specs.Allowing.{mark_of, allowed_in};
ghost use Rattle.spdx_gate.specs.Advising.{IsAdvised};
ghost use Rattle.spdx_gate.specs.Judging.{mode_of, IsOutcome};
ghost use Rattle.spdx_gate.specs.Spelling.{NoSpellingMatters};
ghost use Rattle.spdx_gate.specs.Normal.{NormalTextAgrees};
ghost use Rattle.spdx_gate.specs.Rearranged.{NoOrderMatters};
ghost use Rattle.spdx_why.specs.Marks.{allows};

use crate::advice::{Advice, advise};
use crate::judged::Judged;
use crate::package::Verdict;
use spdx_catalogue::{Catalogue, Failure};
use spdx_lexer::error::Reason;
use spdx_lexer::token::ParseMode;
use spdx_parser::node::{ExprNode, NodeList};
use spdx_parser::parse_nodes;
use spdx_policy::{Decision, Policy};
use spdx_why::{Mark, Remedy, is_accepted, least_allowed, missing};
use std::alloc::{AllocError, Global};
use std::ops::Range;

/// Why a text is no expression, and the bytes that the reason speaks of.
#[derive(Clone, Debug, Drop)]
pub struct Fault {
    pub reason: Reason,
    pub span: Range<usize>,
}

/// What comes out of a text.
#[derive(Drop)]
pub enum Outcome<'c> {
    Judged(Judged<'c>),
    Unreadable(Fault),
}

/// A text under some exceptions, and what came out of it.
#[derive(Drop)]
pub struct Judgement<'c> {
    pub text: String,
    /// The exceptions that held, ascending.
    pub exceptions: Vec<usize>,
    pub outcome: Outcome<'c>,
}

impl Judgement<'_> {
    ghost use Rattle.std.specs.Prelude.{◌≡◌, true};
    ghost use Rattle.spdx_gate.specs.Reports.{outcome_verdict, IsOf};
    ghost use Rattle.std.specs.Option.{option_copied};
    ghost use Rattle.spdx_gate.specs.Needs.{advice_of};

    /// Whether it is of this text under these exceptions.
    pub fn is_of(&self, exceptions: &[usize], text: &str) -> bool
        ensures told { result ≡ true → IsOf exceptions.now text.now self.now }
        ensures found { IsOf exceptions.now text.now self.now → result ≡ true }
    {
        self.text.as_str() == text && *self.exceptions.as_slice() == *exceptions
    }

    /// The verdict of a package with this text and these exceptions.
    pub fn verdict(&self) -> Verdict
        ensures { result ≡ outcome_verdict self.now.outcome }
    {
        match &self.outcome {
            Outcome::Judged(judged) => judged.verdict,
            Outcome::Unreadable(_) => Verdict::Unreadable,
        }
    }

    // What would make it pass; none where the text is no expression.
    pub(crate) fn advice(&self) -> Option<&Advice>
        ensures { option_copied result ≡ advice_of self.now.outcome }
    {
        match &self.outcome {
            Outcome::Judged(judged) => Some(&judged.advice),
            Outcome::Unreadable(_) => None,
        }
    }
}

/// What the policy says of a text, of a package under these exceptions. The text is read strictly or
/// lax, as the policy says.
pub fn judge_text<'c>(
    alloc: Global,
    catalogue: &'c Catalogue,
    policy: &Policy<'c>,
    exceptions: &[usize],
    text: &str,
) -> Result<Outcome<'c>, AllocError>
    ensures exact { IfOk result (λ outcome.
        IsOutcome catalogue.now policy.now exceptions.now text.now outcome) }
    ensures spelling { IfOk result (λ outcome.
        NoSpellingMatters catalogue.now policy.now exceptions.now text.now outcome) }
    ensures normal { IfOk result (λ outcome.
        NormalTextAgrees catalogue.now policy.now exceptions.now text.now outcome) }
    ensures order { IfOk result (λ outcome.
        NoOrderMatters catalogue.now policy.now exceptions.now text.now outcome) }
{
    let outcome = outcome_of(alloc, catalogue, policy, exceptions, text)?;
    catalogue.is_well_formed();
    Ok(outcome)
}

// The same, by its definition alone.
fn outcome_of<'c>(
    alloc: Global,
    catalogue: &'c Catalogue,
    policy: &Policy<'c>,
    exceptions: &[usize],
    text: &str,
) -> Result<Outcome<'c>, AllocError>
    ensures { IfOk result (λ outcome.
        IsOutcome catalogue.now policy.now exceptions.now text.now outcome) }
{
    match parse_nodes(alloc, catalogue, text, mode(policy)) {
        Ok(nodes) => Ok(Outcome::Judged(judge_nodes(alloc, policy, exceptions, nodes)?)),
        Err(Failure::Refused(error)) => Ok(Outcome::Unreadable(Fault {
            reason: error.reason,
            span: error.span,
        })),
        Err(Failure::Memory(error)) => Err(error),
    }
}

// How the policy has texts read.
fn mode(policy: &Policy<'_>) -> ParseMode
    ensures { result ≡ mode_of policy.now }
{
    if policy.is_lax() {
        ParseMode::LAX
    } else {
        ParseMode::STRICT
    }
}

// What the policy says of an expression under these exceptions.
fn judge_nodes<'c>(
    alloc: Global,
    policy: &Policy<'c>,
    exceptions: &[usize],
    nodes: NodeList<'c>,
) -> Result<Judged<'c>, AllocError>
    requires { IsPostfix (map node_of nodes.items) }
    ensures nodes { IfOk result (λ judged. judged.nodes.items ≡ nodes.entry.items) }
    ensures judged { IfOk result (λ judged.
        spec.IsDecided policy.now exceptions.now (tree_in nodes.entry.items) judged) }
{
    let decisions = decisions_of(alloc, policy, exceptions, nodes.as_slice())?;
    let marks = marks_of(alloc, decisions.as_slice())?;
    let missing = missing(alloc, nodes.as_slice(), marks.as_slice())?;
    let advice = advice_by(
        alloc,
        policy,
        exceptions,
        nodes.as_slice(),
        marks.as_slice(),
    )?;
    let choice = least_allowed(alloc, nodes.as_slice(), marks.as_slice())?;
    let with_exceptions = is_passing(alloc, policy, exceptions, nodes.as_slice())?;
    let without = is_passing(alloc, policy, &[], nodes.as_slice())?;
    Ok(Judged {
        nodes,
        decisions,
        missing,
        advice,
        choice,
        verdict: Verdict::of(with_exceptions, without),
    })
}

// What would make an expression pass, by the marks of its requirements.
fn advice_by<'c>(
    alloc: Global,
    policy: &Policy<'c>,
    exceptions: &[usize],
    nodes: &[ExprNode<'c>],
    marks: &[Mark],
) -> Result<Advice, AllocError>
    requires tree { IsPostfix (map node_of nodes.now) }
    requires marks { marks.now ≡ map mark_of
        (map (decision_of policy.now exceptions.now) (leaves (tree_in nodes.now))) }
    ensures { IfOk result (λ advice.
        IsAdvised policy.now exceptions.now (tree_in nodes.now) advice) }
{
    let accepted = accepted_among(alloc, marks)?;
    advise(alloc, policy, exceptions, nodes, accepted.as_slice())
}

// Which of the marks allow.
fn accepted_among(alloc: Global, marks: &[Mark]) -> Result<Vec<bool>, AllocError>
    ensures { IfOk result (λ accepted. accepted.items ≡ map allows marks.now) }
{
    marks.iter().map(|mark| mark.is_allowed()).collect(alloc)
}

// Whether the expression passes under these exceptions.
fn is_passing<'c>(
    alloc: Global,
    policy: &Policy<'c>,
    exceptions: &[usize],
    nodes: &[ExprNode<'c>],
) -> Result<bool, AllocError>
    requires { IsPostfix (map node_of nodes.now) }
    ensures { IfOk result (λ b.
        b ≡ holds (allowed_in policy.now exceptions.now) (tree_in nodes.now)) }
{
    let decisions = decisions_of(alloc, policy, exceptions, nodes)?;
    let marks = marks_of(alloc, decisions.as_slice())?;
    is_accepted(alloc, nodes, marks.as_slice())
}

// What the policy says of each requirement, from left to right.
fn decisions_of<'c>(
    alloc: Global,
    policy: &Policy<'c>,
    exceptions: &[usize],
    nodes: &[ExprNode<'c>],
) -> Result<Vec<Decision>, AllocError>
    requires { IsPostfix (map node_of nodes.now) }
    ensures { IfOk result (λ decisions. decisions.items ≡
        map (decision_of policy.now exceptions.now) (leaves (tree_in nodes.now))) }
{
    let mut decisions = Vec::new(alloc);
    for node in nodes {
        if let ExprNode::Req(requirement) = node {
            decisions.push(policy.decide(alloc, exceptions, &requirement.req)?)?;
        }
    }
    Ok(decisions)
}

// The marks of decisions.
fn marks_of(alloc: Global, decisions: &[Decision]) -> Result<Vec<Mark>, AllocError>
    ensures { IfOk result (λ marks. marks.items ≡ map mark_of decisions.now) }
{
    decisions.iter().map(|d| mark_of(*d)).collect(alloc)
}

// The mark of a decision.
fn mark_of(decision: Decision) -> Mark
    ensures { result ≡ mark_of decision }
{
    match decision {
        Decision::Allowed(_) => Mark::Allowed,
        Decision::Denied(_) => Mark::Denied,
        Decision::Open => Mark::Open,
    }
}
