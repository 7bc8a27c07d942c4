//! Members with weights: a selection suffices if the chosen weights add up to at least the goal.

ghost use Rattle.std.specs.Prelude.{◌≡◌, ◌+◌, ◌*◌, ◌≤◌, ◌<◌, ◌^◌, ℕ, Bool, List, length, true, false, nat_le};
ghost use Rattle.selections.specs.Weights.{chosen_sum};

use crate::selection::{Sufficiency, least_selection};
use std::test::Fail;

/// Weights, the goal of their sum, and the number of questions so far.
#[derive(Drop)]
struct Weights<'a> {
    weights: &'a [u8],
    goal: u64,
    asked: u64,
    ghost few: { length weights.now ≤ 65536 },
}

impl Sufficiency for Weights<'_> {
    ghost count = { λ w. length w.weights.now };

    ghost suffices = { λ w selection. nat_le w.goal (chosen_sum w.weights.now selection) };

    ghost asked = { λ w. w.asked };

    fn members(&self) -> usize {
        self.weights.len()
    }

    fn judge(&mut self, selection: &[bool]) -> bool {
        self.asked = self.asked.saturating_add(1);
        self.goal <= sum_of(self.weights, selection)
    }

    ghost use Rattle.selections.specs.Weights.{enough_grows};

    ghost grows = { λ w some more e h f. enough_grows w.goal w.weights.now some more h f };
}

// The sum of the chosen weights.
fn sum_of(weights: &[u8], selection: &[bool]) -> u64
    requires few { length weights.now ≤ 65536 }
    requires each { length selection.now ≡ length weights.now }
    ensures { result ≡ chosen_sum weights.now selection.now }
{
    let mut sum = 0;
    for i in 0..weights.len() {
        if selection[i] {
            sum += weights[i] as u64;
        }
    }
    sum
}

// Whether the least selection is the answer, after at most one question more than there are members.
fn chooses(weights: &[u8], goal: u64, answer: bool, chosen: &[bool]) -> bool
    requires few { length weights.now ≤ 65536 }
{
    let mut places = [false, true, false];
    if weights.len() > places.len() {
        return false;
    }
    let selection = &mut places[..weights.len()];
    let mut judge = Weights {
        weights,
        goal,
        asked: 0,
    };
    least_selection(&mut judge, selection) == answer
        && *selection == *chosen
        && judge.asked <= weights.len() as u64 + 1
}

#[test]
fn least_weights(rt: HostRuntime) -> Result<(), Fail> {
    assert!(rt; chooses(&[3, 2, 2], 4, true, &[true, true, false]));
    assert!(rt; chooses(&[3, 2, 2], 8, false, &[true, true, true]));
    assert!(rt; chooses(&[3, 2, 2], 0, true, &[false, false, false]));
    assert!(rt; chooses(&[], 0, true, &[]));
    assert!(rt; chooses(&[], 1, false, &[]));
    Ok(())
}
