// What is answered to lines.

ghost use Rattle.std.specs.Prelude.{◌≡◌, ℕ, ◌++◌, ◌∷◌, [], List, IfOk, OnOk};
ghost use Rattle.line_engine.specs.Rule.{Rule};

use std::alloc::{AllocError, Global};

/// Answers lines, one after the other, and may say something of them all at the end.
pub trait Verdicts {
    // What is written, and what is counted. It never changes.
    ghost rule: { Self → Rule };

    // These may be the lines that it has answered: a relation, since it need not remember them.
    ghost HasAnswered: { Self → List (List ℕ) → Type 0 };

    // What is known of it once it has closed behind these lines, as what it has counted in them.
    ghost HasClosed: { Self → List (List ℕ) → Type 0 } = { λ _ _. Unit {0} };

    /// Appends the answer to a line behind those that it has answered, and says whether the line is refused. The line has
    /// no newline in it; the answer brings its own.
    fn answer(&mut self, alloc: Global, line: &[u8], text: &mut Vec<u8>) -> Result<bool, AllocError>
        ensures text { OnOk result ((lines : List (List ℕ)) → HasAnswered self.old lines →
            text.new.items ≡ text.old.items ++ (rule self.old).text lines line.now) }
        ensures refuses { IfOk result (λ refused. refused ≡ (rule self.old).refuses line.now) }
        ensures rule { rule self.new ≡ rule self.old }
        ensures answered { OnOk result ((lines : List (List ℕ)) →
            HasAnswered self.old lines → HasAnswered self.new (lines ++ line.now ∷ [])) };

    /// Appends what stands behind all answers, if anything does.
    fn close(&mut self, alloc: Global, text: &mut Vec<u8>) -> Result<(), AllocError>
        ensures text { OnOk result ((lines : List (List ℕ)) → HasAnswered self.old lines →
            text.new.items ≡ text.old.items ++ (rule self.old).closing lines) }
        ensures rule { rule self.new ≡ rule self.old }
        ensures closed { OnOk result ((lines : List (List ℕ)) → HasAnswered self.old lines →
            HasClosed self.new lines) };
}
