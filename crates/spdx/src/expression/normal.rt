//! The normal text of an expression.

ghost use Rattle.std.specs.Prelude.{◌≡◌, ◌↔◌, IfOk, IsTrue, string_bytes};
ghost use Rattle.spdx_requirement.specs.Rows.{Rows};
ghost use Rattle.spdx_parser.specs.Tree.{Tree};
ghost use Rattle.spdx_canonical.specs.Normal.{normal_text};
ghost use Rattle.spdx_canonical.specs.NormalLaw.{IsStrict, ReadsAs, HasFewestParens};
ghost use Rattle.spdx.specs.Equality.{same_tree};

use crate::expression::Expression;
use std::alloc::{AllocError, Global};

impl<'c> Expression<'c> {
    /// The normal text of the expression, which its tree alone decides: requirements as they print,
    /// operators in capitals, and as few parentheses as the tree allows (`docs/EXPRESSIONS.md`).
    ///
    /// Of an expression that strict parsing gives: the strict reading of the text has no fault, and
    /// its tokens mean this tree and no other (`read`); no tokens that mean this tree have fewer
    /// parentheses (`fewest`); and two such expressions over one catalogue have equal normal texts
    /// exactly if they are equal by `==` (`tells`). Of a tree that another mode found the bytes
    /// alone are claimed (`text`).
    ///
    /// Linear in the nodes and in the bytes of the text, without recursion. Each reference is
    /// copied once, into the text. Beside the text, what it is made of takes memory while it is
    /// written: for each operator up to three pieces and four tasks.
    ///
    /// # Errors
    ///
    /// Memory was refused.
    pub fn normal_text(&self, alloc: Global) -> Result<String, AllocError>
        ensures text { IfOk result (λ text. string_bytes text ≡ normal_text self.now.tree) }
        ensures read { IfOk result (λ text. (c : Rows) → IsStrict c self.now.tree →
            ReadsAs c (string_bytes text) self.now.tree) }
        ensures fewest { IfOk result (λ text. (c : Rows) → IsStrict c self.now.tree →
            HasFewestParens c (string_bytes text) self.now.tree) }
        ensures tells { IfOk result (λ text. (c : Rows) (other : Tree) →
            IsStrict c self.now.tree → IsStrict c other →
            (string_bytes text ≡ normal_text other) ↔ IsTrue (same_tree self.now.tree other)) }
    {
        spdx_canonical::normal_text(alloc, self.nodes())
    }
}
