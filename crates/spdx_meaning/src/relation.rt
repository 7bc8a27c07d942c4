//! What is said of what two expressions ask.

ghost use Rattle.std.specs.Prelude.{◌≡◌};
ghost use Rattle.spdx_meaning.specs.Relations.{relation_of};

/// How what the first of two expressions asks compares with what the second one asks.
#[derive(Clone, Copy, Debug, PartialEq, Eq)]
pub enum Relation {
    /// They are equivalent.
    Same,
    /// The first asks at least what the second one asks, and they aren't equivalent.
    More,
    /// The second asks at least what the first one asks, and they aren't equivalent.
    Less,
    /// Neither asks at least what the other one asks.
    Neither,
}

/// How they compare, from whether the first asks at least what the second one asks, and the other way round.
pub fn relation_of(forth: bool, back: bool) -> Relation
    ensures { result ≡ relation_of forth back }
{
    if forth {
        if back { Relation::Same } else { Relation::More }
    } else if back {
        Relation::Less
    } else {
        Relation::Neither
    }
}
