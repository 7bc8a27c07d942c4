//! Laws of what expressions mean.

ghost use Rattle.std.specs.Prelude.{◌≡◌, ◌↔◌, ℕ, List};
ghost use Rattle.spdx_parser.specs.Tree.{Tree};
ghost use Rattle.spdx_meaning.specs.Meaning.{AsksAtLeast, IsEquivalent};
ghost use Rattle.spdx_meaning.specs.Minimal.{AreMinimalSets};

/// Each expression asks at least what it asks itself; what is asked is passed on; and two expressions are equivalent exactly
/// if each asks at least what the other one asks. Does nothing.
pub fn asking_is_an_order()
    ensures itself { (t : Tree) → AsksAtLeast t t }
    ensures passed_on { (t u v : Tree) →
        AsksAtLeast t u → AsksAtLeast u v → AsksAtLeast t v }
    ensures both { (t u : Tree) →
        IsEquivalent t u ↔ (AsksAtLeast t u × AsksAtLeast u t) }
{}

/// Each expression is equivalent to itself, and what is equivalent to a second one the second one is to it, and whatever
/// else the second one is. Does nothing.
pub fn equivalence_is_one()
    ensures itself { (t : Tree) → IsEquivalent t t }
    ensures turned { (t u : Tree) → IsEquivalent t u → IsEquivalent u t }
    ensures passed_on { (t u v : Tree) →
        IsEquivalent t u → IsEquivalent u v → IsEquivalent t v }
{}

/// An expression has no other minimal sets, and they have no other order. Does nothing.
pub fn minimal_sets_are_one()
    ensures { (t : Tree) (sets others : List (List ℕ)) →
        AreMinimalSets t sets → AreMinimalSets t others → sets ≡ others }
{}
