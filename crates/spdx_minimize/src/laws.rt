//! Laws of the truth of expressions and of the least choice.

ghost use Rattle.spdx_parser.specs.Tree.{Tree};
ghost use Rattle.spdx_minimize.specs.GrowthLaws.{TruthGrows};
ghost use Rattle.spdx_minimize.specs.Doubles.{DoublesChangeNoChoice};
ghost use Rattle.spdx_minimize.specs.Laws.{IsFirstLeast};

/// Answers that turn from false to true turn no tree from true to false. Does nothing.
pub fn truth_grows()
    ensures { (t : Tree) → TruthGrows t }
{}

/// The first sufficient selection is the one that, against each other sufficient one, leaves out
/// the last member on which they differ. Does nothing.
pub fn first_is_least()
    ensures { IsFirstLeast }
{}

/// Two lists of expressions with the same members have the same least choice, however often each
/// stands in them and in whatever order. Does nothing.
pub fn doubles_change_no_choice()
    ensures { DoublesChangeNoChoice }
{}
