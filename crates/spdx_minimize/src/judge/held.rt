//! Judging selections of licensees over expressions and members that the caller keeps.

ghost use Rattle.std.specs.Prelude.{◌≡◌, ◌≤◌, IfOk, length};
ghost use Rattle.spdx_evaluation.specs.Requirements.{nows};
ghost use Rattle.spdx_minimize.specs.Places.{IsOver, longest};
ghost use Rattle.spdx_minimize.specs.Trees.{trees_in};

use crate::judge::{are_all_true, longest_of, meeting_of};
use crate::nodes::TreeNodes;
use crate::question::Meeting;
use selections::{Sufficiency, Truths};
use spdx_licensee::Licensee;
use std::alloc::{AllocError, Global};

/// Judges selections as [`crate::NodesJudge`] does, and keeps neither expressions nor members: for
/// few nodes it takes no memory.
#[derive(Drop)]
pub(crate) struct HeldJudge<'j, 'a, 'c: 'a> {
    lists: &'j [TreeNodes<'a, 'c>],
    meeting: Meeting,
    members: &'j [&'a Licensee<'c>],
    truths: Truths,
    asked: u64,
    ghost over: { IsOver (nows members.now) (trees_in lists.now) meeting },
    ghost room: { longest lists.now ≤ truths.room },
}

impl<'j, 'a, 'c: 'a> HeldJudge<'j, 'a, 'c> {
    /// The judge of these expressions over these members.
    pub(crate) fn new(
        alloc: Global,
        lists: &'j [TreeNodes<'a, 'c>],
        members: &'j [&'a Licensee<'c>],
    ) -> Result<Self, AllocError>
        ensures lists { IfOk result (λ judge. judge.lists.now ≡ lists.now) }
        ensures members { IfOk result (λ judge. judge.members.now ≡ members.now) }
    {
        let meeting = meeting_of(alloc, lists, members)?;
        let truths = Truths::with_room(alloc, longest_of(lists))?;
        Ok(HeldJudge {
            lists,
            meeting,
            members,
            truths,
            asked: 0,
        })
    }
}

impl<'j, 'a, 'c: 'a> Sufficiency for HeldJudge<'j, 'a, 'c> {
    ghost use Rattle.spdx_minimize.specs.Choice.{suffices_for};
    ghost use Rattle.spdx_minimize.specs.GrowthLaws.{suffices_grows};

    ghost count = { λ judge. length judge.members.now };

    ghost suffices = { λ judge selection.
        suffices_for (trees_in judge.lists.now) (nows judge.members.now) selection };

    ghost asked = { λ judge. judge.asked };

    fn members(&self) -> usize {
        self.members.len()
    }

    fn judge(&mut self, selection: &[bool]) -> bool {
        self.asked = self.asked.saturating_add(1);
        are_all_true(&mut self.truths, self.lists, &self.meeting, selection)
    }

    ghost grows = { λ judge some more e h f.
        suffices_grows (trees_in judge.lists.now) (nows judge.members.now) some more h f };
}
