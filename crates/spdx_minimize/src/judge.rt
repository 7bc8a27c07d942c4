//! Judging selections of licensees.

ghost use Rattle.std.specs.Prelude.{◌≡◌, ◌≤◌, ◌++◌, IfOk, OnOk, length, map};
ghost use Rattle.std.specs.List.{All, flat_map};
ghost use Rattle.spdx_requirement.specs.Items.{requirement_of};
ghost use Rattle.spdx_parser.specs.Tree.{leaves, node_of};
ghost use Rattle.spdx_evaluation.specs.Postfix.{IsPostfix, tree_in};
ghost use Rattle.spdx_evaluation.specs.Requirements.{nows};
ghost use Rattle.spdx_minimize.specs.Trees.{trees_in};
ghost use Rattle.spdx_minimize.specs.Places.{places, part_of, met_by, leaf_places, any_at, IsOver, answered, all_true, longest};

pub(crate) mod held;

use crate::nodes::TreeNodes;
use crate::question::{Meeting, Part, PartList, PlaceList, Question};
use crate::useful::satisfies;
use selections::{Sufficiency, Truths, WordTruths};
use spdx_catalogue::LicenseReq;
use spdx_licensee::Licensee;
use spdx_parser::node::{ExprNode, Operator};
use std::alloc::{AllocError, Global};

/// Judges selections of some members: one suffices if it makes every one of some expressions true,
/// where a requirement is met if a chosen member satisfies it.
///
/// Which members satisfy which requirement is found once, when the judge is made, and so is the
/// memory for the truths taken. A question then costs one walk over the nodes of the expressions up
/// to the first that is false, and at each requirement over the places of the members that satisfy
/// it up to the first that is chosen.
#[derive(Drop)]
pub struct NodesJudge<'a, 'c: 'a> {
    lists: Vec<TreeNodes<'a, 'c>>,
    meeting: Meeting,
    members: Vec<&'a Licensee<'c>>,
    truths: Truths,
    asked: u64,
    ghost over: { IsOver (nows members.items) (trees_in lists.items) meeting },
    ghost room: { longest lists.items ≤ truths.room },
}

impl<'a, 'c: 'a> NodesJudge<'a, 'c> {
    ghost use Rattle.spdx_minimize.specs.JudgeModel.{judged_trees, judged_members, judged_count, questions_asked};

    /// The judge of these expressions over these members. Each member is compared with each
    /// requirement once.
    pub fn new(
        alloc: Global,
        lists: &[TreeNodes<'a, 'c>],
        members: &[&'a Licensee<'c>],
    ) -> Result<Self, AllocError>
        ensures trees { IfOk result (λ judge. judged_trees judge ≡ trees_in lists.now) }
        ensures members { IfOk result (λ judge. judged_members judge ≡ nows members.now) }
        ensures count { IfOk result (λ judge. judged_count judge ≡ length members.now) }
        ensures asked { IfOk result (λ judge. questions_asked judge ≡ 0) }
    {
        let meeting = meeting_of(alloc, lists, members)?;
        let lists = copies_of(alloc, lists)?;
        let members = Vec::from_slice(alloc, members)?;
        let truths = Truths::with_room(alloc, longest_of(lists.as_slice()))?;
        Ok(NodesJudge {
            lists,
            meeting,
            members,
            truths,
            asked: 0,
        })
    }

    /// How many questions were asked; at most `u64::MAX` are counted.
    pub fn asked(&self) -> u64
        ensures { result ≡ questions_asked self.now }
    {
        self.asked
    }
}

impl<'a, 'c: 'a> Sufficiency for NodesJudge<'a, 'c> {
    ghost use Rattle.spdx_minimize.specs.JudgeModel.{judged_trees, judged_members, judged_count, questions_asked};
    ghost use Rattle.spdx_minimize.specs.Choice.{suffices_for};
    ghost use Rattle.spdx_minimize.specs.GrowthLaws.{suffices_grows};

    ghost count = { λ judge. judged_count judge };

    ghost suffices = { λ judge selection.
        suffices_for (judged_trees judge) (judged_members judge) selection };

    ghost asked = { λ judge. questions_asked judge };

    fn members(&self) -> usize {
        self.members.len()
    }

    fn judge(&mut self, selection: &[bool]) -> bool {
        self.asked = self.asked.saturating_add(1);
        are_all_true(
            &mut self.truths,
            self.lists.as_slice(),
            &self.meeting,
            selection,
        )
    }

    ghost grows = { λ judge some more e h f.
        suffices_grows (judged_trees judge) (judged_members judge) some more h f };
}

// The same lists once more.
fn copies_of<'a, 'c>(
    alloc: Global,
    lists: &[TreeNodes<'a, 'c>],
) -> Result<Vec<TreeNodes<'a, 'c>>, AllocError>
    ensures { IfOk result (λ copies. trees_in copies.items ≡ trees_in lists.now) }
{
    let mut copies = Vec::with_capacity(alloc, lists.len())?;
    for list in lists {
        copies.push(TreeNodes::new(list.nodes))?;
    }
    Ok(copies)
}

// Which of these members satisfy the requirements of these expressions.
pub(crate) fn meeting_of(
    alloc: Global,
    lists: &[TreeNodes<'_, '_>],
    members: &[&Licensee<'_>],
) -> Result<Meeting, AllocError>
    ensures { IfOk result (λ meeting. IsOver (nows members.now) (trees_in lists.now) meeting) }
{
    let mut places = PlaceList::new(alloc);
    let mut parts = PartList::new(alloc);
    for list in lists {
        push_parts(&mut places, &mut parts, list.nodes, members)?;
    }
    Ok(Meeting { places, parts })
}

// Appends a part for each requirement of the expression.
fn push_parts(
    places: &mut PlaceList,
    parts: &mut PartList,
    nodes: &[ExprNode<'_>],
    members: &[&Licensee<'_>],
) -> Result<(), AllocError>
    requires postfix { IsPostfix (map node_of nodes.now) }
    requires within { All (λ p. (p.start ≤ p.end) × (p.end ≤ length places.old.items))
        parts.old.items }
    ensures met { OnOk result (map (part_of places.new.items) parts.new.items
        ≡ map (part_of places.old.items) parts.old.items
        ++ leaf_places (nows members.now) (tree_in nodes.now)) }
    ensures within { OnOk result (All (λ p. (p.start ≤ p.end) × (p.end ≤ length places.new.items))
        parts.new.items) }
{
    for node in nodes {
        if let ExprNode::Req(requirement) = node {
            let start = places.len();
            push_places(places, members, &requirement.req)?;
            let end = places.len();
            parts.push(Part { start, end })?;
        }
    }
    Ok(())
}

// Appends the places of the members that satisfy the requirement.
fn push_places(
    found: &mut PlaceList,
    members: &[&Licensee<'_>],
    requirement: &LicenseReq<'_>,
) -> Result<(), AllocError>
    ensures { OnOk result (found.new.items
        ≡ found.old.items ++ places (nows members.now) (requirement_of requirement.now)) }
{
    for place in 0..members.len() {
        if satisfies(members[place], requirement) {
            found.push(place)?;
        }
    }
    Ok(())
}

// The nodes of the longest.
pub(crate) fn longest_of(lists: &[TreeNodes<'_, '_>]) -> usize
    ensures { result ≡ longest lists.now }
{
    let mut most = 0;
    for list in lists {
        most = most.max(list.nodes.len());
    }
    most
}

// Whether the selection makes every expression true.
pub(crate) fn are_all_true(
    truths: &mut Truths,
    lists: &[TreeNodes<'_, '_>],
    meeting: &Meeting,
    selection: &[bool],
) -> bool
    requires room { longest lists.now ≤ truths.old.room }
    requires each { length meeting.now.parts.items
        ≡ length (flat_map leaves (trees_in lists.now)) }
    ensures answer { result ≡ all_true (trees_in lists.now)
        (map (any_at selection.now) (met_by meeting.now)) }
    ensures room { truths.new.room ≡ truths.old.room }
{
    let places = meeting.places.as_slice();
    let all_parts = meeting.parts.as_slice();
    let mut first = 0;
    for list in lists {
        let nodes = list.nodes;
        // Half of the nodes and one more are requirements.
        let next = first + (nodes.len() / 2 + 1);
        let parts = &all_parts[first..next];
        let question = Question {
            nodes,
            places,
            parts,
        };
        if !is_true(truths, &question, selection) {
            return false;
        }
        first = next;
    }
    true
}

// Whether the selection makes the expression true; for few nodes over a word.
fn is_true(truths: &mut Truths, question: &Question<'_, '_>, selection: &[bool]) -> bool
    requires { length question.now.nodes.now ≤ truths.old.room }
    ensures answer { result ≡ answered selection.now question.now }
    ensures room { truths.new.room ≡ truths.old.room }
{
    if question.nodes.len() <= 64 {
        return is_true_in_word(question, selection);
    }
    is_true_over(truths, question, selection)
}

// The same of at most 64 nodes.
fn is_true_in_word(question: &Question<'_, '_>, selection: &[bool]) -> bool
    requires { length question.now.nodes.now ≤ 64 }
    ensures { result ≡ answered selection.now question.now }
{
    let nodes = question.nodes;
    let places = question.places;
    let parts = question.parts;
    let mut leaf = 0;
    let mut truths = WordTruths::new();
    for node in nodes {
        match node {
            ExprNode::Req(_) => {
                let part = &parts[leaf];
                let meeting = &places[part.start..part.end];
                truths.push(is_any_chosen(meeting, selection));
                leaf += 1;
            }
            ExprNode::Op(Operator::And) => truths.both(),
            ExprNode::Op(Operator::Or) => truths.either(),
        }
    }
    truths.take()
}

// The same over a stack that has room for the nodes.
fn is_true_over(truths: &mut Truths, question: &Question<'_, '_>, selection: &[bool]) -> bool
    requires { length question.now.nodes.now ≤ truths.old.room }
    ensures answer { result ≡ answered selection.now question.now }
    ensures room { truths.new.room ≡ truths.old.room }
{
    let nodes = question.nodes;
    let places = question.places;
    let parts = question.parts;
    let mut leaf = 0;
    truths.clear();
    for node in nodes {
        match node {
            ExprNode::Req(_) => {
                let part = &parts[leaf];
                let meeting = &places[part.start..part.end];
                truths.push(is_any_chosen(meeting, selection));
                leaf += 1;
            }
            ExprNode::Op(Operator::And) => truths.both(),
            ExprNode::Op(Operator::Or) => truths.either(),
        }
    }
    truths.take()
}

// Whether a member at one of these places is chosen.
fn is_any_chosen(places: &[usize], selection: &[bool]) -> bool
    ensures { result ≡ any_at selection.now places.now }
{
    for place in places {
        if matches!(selection.get(*place), Some(true)) {
            return true;
        }
    }
    false
}
