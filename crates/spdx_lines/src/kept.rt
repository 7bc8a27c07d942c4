// The different expressions of many lines.

ghost use Rattle.std.specs.Prelude.{◌≡◌, [], ◌∷◌, ◌++◌, List, map, IsTrue, IfOk, OnOk, Contains};
ghost use Rattle.spdx_requirement.specs.Rows.{Rows};
ghost use Rattle.spdx_parser.specs.Meaning.{IsOfRows};
ghost use Rattle.spdx_parser.specs.Tree.{Tree};
ghost use Rattle.spdx.specs.Value.{trees_of};
ghost use Rattle.spdx_lines.specs.Answer.{AreKept};
ghost use Rattle.spdx_lines.specs.Trees.{trees_in};

use crate::hints::{Hints, LONGEST_RUN, hash_of};
use spdx::Expression;
use std::alloc::{AllocError, Global};

/// Each different expression once.
#[derive(Drop)]
pub(crate) struct Kept<'c> {
    expressions: Vec<Expression<'c>>,
    // Where an equal one may stand.
    hints: Hints,
}

impl<'c> Kept<'c> {
    pub(crate) fn new(alloc: Global) -> Kept<'c>
        ensures { trees_in result ≡ [] }
    {
        Kept {
            expressions: Vec::new(alloc),
            hints: Hints::new(alloc),
        }
    }

    /// Keeps the expression, unless an equal one is kept.
    pub(crate) fn keep(
        &mut self,
        alloc: Global,
        mut expression: Expression<'c>,
    ) -> Result<(), AllocError>
        ensures { OnOk result ((c : Rows) (trees : List Tree) →
            AreKept c (trees_in self.old) trees → IsOfRows c expression.entry.tree →
            AreKept c (trees_in self.new) (trees ++ expression.entry.tree ∷ [])) }
    {
        let hash = hash_of(&expression);
        if self.has(hash, &expression) {
            return Ok(());
        }
        self.hints.note(alloc, hash, self.expressions.len())?;
        expression.forget_text(alloc);
        expression.shrink_to_fit();
        self.expressions.push(expression)?;
        Ok(())
    }

    // Whether an equal expression stands where the hints lead.
    fn has(&self, hash: u32, expression: &Expression<'c>) -> bool
        ensures { IsTrue result → (c : Rows) (trees : List Tree) →
            AreKept c (trees_in self.now) trees → IsOfRows c expression.now.tree →
            Contains (trees_in self.now) expression.now.tree }
    {
        for step in 0..LONGEST_RUN {
            let Some(hint) = self.hints.at(hash, step) else {
                return false;
            };
            if hint.hash == hash
                && let Some(kept) = self.expressions.get(hint.place as usize)
                && *kept == *expression
            {
                return true;
            }
        }
        false
    }

    /// All of them.
    pub(crate) fn all(&self, alloc: Global) -> Result<Vec<&Expression<'c>>, AllocError>
        ensures { IfOk result (λ all. trees_of all.items ≡ trees_in self.now) }
    {
        let mut all = Vec::new(alloc);
        for expression in &self.expressions {
            all.push(expression)?;
        }
        Ok(all)
    }
}
