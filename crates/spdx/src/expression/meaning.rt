//! What an expression means, whatever its tree.

ghost use Rattle.std.specs.Prelude.{◌≡◌, ◌↔◌, ◌⊎◌, ℕ, List, Err, IsOk, IsTrue, IfOk, IfErr, string_bytes};
ghost use Rattle.selections.specs.Sets.{sets_in};
ghost use Rattle.spdx_requirement.specs.Failures.{IfRefused};
ghost use Rattle.spdx_requirement.specs.Rows.{Rows};
ghost use Rattle.spdx_parser.specs.Tree.{Tree};
ghost use Rattle.spdx_canonical.specs.NormalLaw.{IsStrict};
ghost use Rattle.spdx_meaning.specs.Made.{made_in};
ghost use Rattle.spdx_meaning.specs.Meaning.{AsksAtLeast, IsEquivalent};
ghost use Rattle.spdx_meaning.specs.Minimal.{AreMinimalSets};
ghost use Rattle.spdx_meaning.specs.MeaningText.{made_by_rank, IsMeaningText};

use crate::expression::Expression;
use spdx_catalogue::Failure;
use spdx_meaning::TooManySets;
use spdx_meaning::text::text_laws::meaning_texts_tell;
use std::alloc::Global;

impl<'c> Expression<'c> {
    /// The minimal sets of requirements: the expression holds where all of one are accepted, and only where all of some
    /// one are; none contains another. A requirement is told by its first place among [`Expression::requirements`], from 0,
    /// and equal ones are one. The places of a set ascend, and so do the sets: by size, and then by the first place that
    /// differs.
    ///
    /// # Errors
    ///
    /// Memory was refused, or more than 4,096 sets are made for a part of the expression: for an `OR` as many as its two
    /// sides have together, for an `AND` as many as one of each side can be joined. No memory is taken for them.
    pub fn minimal_sets(&self, alloc: Global) -> Result<Vec<Vec<usize>>, Failure<TooManySets>>
        ensures ok { IfOk result (λ sets. AreMinimalSets self.now.tree (sets_in sets.items)) }
        ensures few { IfOk result (λ _. IsOk (made_in self.now.tree)) }
        ensures err { IfErr result (IfRefused (λ e. made_in self.now.tree ≡ Err e.0)) }
    {
        spdx_meaning::minimal_sets(alloc, self.nodes())
    }

    /// Whether this expression asks at least what the other one asks: whatever requirements are accepted, the other one
    /// holds where this one does. Both are over one catalogue.
    ///
    /// Looks at the other expression once for each minimal set of this one.
    ///
    /// # Errors
    ///
    /// Memory was refused, or this expression makes too many sets, as [`Expression::minimal_sets`] says.
    pub fn asks_at_least(
        &self,
        alloc: Global,
        other: &Expression<'c>,
    ) -> Result<bool, Failure<TooManySets>>
        ensures ok { IfOk result (λ asks.
            IsTrue asks ↔ AsksAtLeast self.now.tree other.now.tree) }
        ensures err { IfErr result (IfRefused (λ e. made_in self.now.tree ≡ Err e.0)) }
    {
        spdx_meaning::asks_at_least(alloc, self.nodes(), other.nodes())
    }

    /// Whether both expressions mean the same: whatever requirements are accepted, both hold or none does. Both are over
    /// one catalogue. Equal expressions are equivalent; `MIT OR (MIT AND Zlib)` and `MIT` are equivalent and not equal.
    ///
    /// # Errors
    ///
    /// Memory was refused, or one of them makes too many sets, as [`Expression::minimal_sets`] says.
    pub fn is_equivalent(
        &self,
        alloc: Global,
        other: &Expression<'c>,
    ) -> Result<bool, Failure<TooManySets>>
        ensures ok { IfOk result (λ same.
            IsTrue same ↔ IsEquivalent self.now.tree other.now.tree) }
        ensures err { IfErr result (IfRefused (λ e.
            (made_in self.now.tree ≡ Err e.0) ⊎ (made_in other.now.tree ≡ Err e.0))) }
    {
        spdx_meaning::is_equivalent(alloc, self.nodes(), other.nodes())
    }

    /// The meaning text: the minimal sets, the requirements of each joined by ` AND ` in their order, and the sets by
    /// ` OR `, by size and then in order. Of expressions that strict parsing gives over one catalogue, two have the same
    /// meaning text exactly if they are equivalent (`tells`).
    ///
    /// # Errors
    ///
    /// Memory was refused, or too many sets are made, as [`Expression::minimal_sets`] says.
    pub fn meaning_text(&self, alloc: Global) -> Result<String, Failure<TooManySets>>
        ensures text { IfOk result (λ text. IsMeaningText self.now.tree (string_bytes text)) }
        ensures few { IfOk result (λ _. IsOk (made_by_rank self.now.tree)) }
        ensures err { IfErr result (IfRefused (λ e. made_by_rank self.now.tree ≡ Err e.0)) }
        ensures tells { IfOk result (λ text. (c : Rows) (other : Tree) (others : List ℕ) →
            IsStrict c self.now.tree → IsStrict c other → IsMeaningText other others →
            (string_bytes text ≡ others) ↔ IsEquivalent self.now.tree other) }
    {
        meaning_texts_tell();
        spdx_meaning::meaning_text(alloc, self.nodes())
    }
}
