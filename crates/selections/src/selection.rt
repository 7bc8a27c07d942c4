//! The least selection of members that suffices, by dropping members from the last to the first.

ghost use Rattle.std.specs.Prelude.{◌≡◌, ◌+◌, ◌≤◌, ℕ, Bool, List, length, true, false};
ghost use Rattle.selections.specs.Selection.{IsWithin, IsLeast, IsOnlyLeast, NeedsEach, NoneSuffices, everything, one_more};

/// Which selections of some members suffice. A selection has a truth for each member, true where
/// the member is chosen.
///
/// The law, which each implementation proves: a selection that contains a sufficient one suffices.
pub trait Sufficiency {
    ghost count: { Self → ℕ };

    ghost suffices: { Self → List Bool → Bool };

    ghost asked: { Self → ℕ };

    /// The number of members.
    fn members(&self) -> usize
        ensures { result ≡ count self.now };

    /// Whether the selection suffices. Each question is counted, up to `u64::MAX`; nothing else
    /// changes.
    fn judge(&mut self, selection: &[bool]) -> bool
        requires { length selection.now ≡ count self.old }
        ensures answer { result ≡ suffices self.old selection.now }
        ensures same_members { count self.new ≡ count self.old }
        ensures same_meaning { suffices self.new ≡ suffices self.old }
        ensures question { asked self.new ≡ one_more (asked self.old) };

    ghost grows: { (judge : Self) (some more : List Bool) →
        length some ≡ count judge → IsWithin some more →
        suffices judge some ≡ true → suffices judge more ≡ true };
}

/// Writes the least selection that suffices into the slice, whose items on entry don't count.
///
/// Of the sufficient selections it is the one that, against each other one, leaves out the last
/// member on which the two differ; none of its members can be left out with the rest sufficient.
/// The answer is false exactly if not even all members together suffice, and then the slice holds
/// all of them. For n members at most n + 1 questions are asked.
pub fn least_selection<S: Sufficiency>(judge: &mut S, selection: &mut [bool]) -> bool
    requires { length selection.old ≡ S.count judge.old }
    ensures answer { result ≡ S.suffices judge.old (everything (S.count judge.old)) }
    ensures none { result ≡ false → selection.new ≡ everything (S.count judge.old) }
    ensures none_suffices { result ≡ false →
        NoneSuffices (S.suffices judge.old) (S.count judge.old) }
    ensures least { result ≡ true →
        IsLeast (S.suffices judge.old) (S.count judge.old) selection.new }
    ensures only { result ≡ true →
        IsOnlyLeast (S.suffices judge.old) (S.count judge.old) selection.new }
    ensures needed { result ≡ true → NeedsEach (S.suffices judge.old) selection.new }
    ensures same_members { S.count judge.new ≡ S.count judge.old }
    ensures same_meaning { S.suffices judge.new ≡ S.suffices judge.old }
    ensures questions { S.asked judge.new ≤ S.asked judge.old + (S.count judge.old + 1) }
{
    selection.fill(true);
    if !judge.judge(selection) {
        return false;
    }
    for i in (0..selection.len()).rev() {
        selection[i] = false;
        if !judge.judge(selection) {
            selection[i] = true;
        }
    }
    true
}
