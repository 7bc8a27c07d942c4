//! Laws of meaning texts.

ghost use Rattle.std.specs.Prelude.{◌≡◌, ◌↔◌, ℕ, List};
ghost use Rattle.std.specs.List.{AllByRecursion};
ghost use Rattle.spdx_requirement.specs.Rows.{Rows};
ghost use Rattle.spdx_requirement.specs.Items.{Requirement};
ghost use Rattle.spdx_parser.specs.Tree.{Tree};
ghost use Rattle.spdx_canonical.specs.NormalLaw.{IsStrict, ReadsAs, HasFewestParens};
ghost use Rattle.spdx_meaning.specs.Meaning.{IsEquivalent};
ghost use Rattle.spdx_meaning.specs.LeastSets.{AreLeastSets, NeedsAll, any_of};
ghost use Rattle.spdx_meaning.specs.MeaningText.{IsMeaningText};

/// Two expressions that strict parsing gave over one catalogue have the same meaning text exactly if they are equivalent.
/// Does nothing.
pub fn meaning_texts_tell()
    ensures { (c : Rows) (t u : Tree) (a b : List ℕ) → IsStrict c t → IsStrict c u →
        IsMeaningText t a → IsMeaningText u b → (a ≡ b) ↔ IsEquivalent t u }
{}

/// The meaning text of an expression that strict parsing gave is read strictly, as the tree of its least sets and no other,
/// which no text says with fewer parentheses. That tree is equivalent to the expression, and the text is its own meaning
/// text. Does nothing.
pub fn meaning_text_is_read()
    ensures { (c : Rows) (t : Tree) (text : List ℕ) → IsStrict c t → (x : IsMeaningText t text) →
        ReadsAs c text (any_of x.sets) × HasFewestParens c text (any_of x.sets)
        × IsStrict c (any_of x.sets)
        × IsEquivalent t (any_of x.sets) × IsMeaningText (any_of x.sets) text }
{}

/// Where no other requirements than those of a least set are accepted, the expression holds only if all of the set are: so none
/// of it can be left out. Does nothing.
pub fn none_can_be_left_out()
    ensures { (t : Tree) (sets : List (List Requirement)) →
        AreLeastSets t sets → AllByRecursion (NeedsAll t) sets }
{}
