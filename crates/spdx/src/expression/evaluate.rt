//! The truth of an expression over a closure's answers to its requirements.

ghost use Rattle.std.specs.Prelude.{◌≡◌, ◌≤◌, Bool, length, map, true, IfOk, IfErr, OnErr, IsOk};
ghost use Rattle.std.specs.Fn.{CalledAt};
ghost use Rattle.spdx_requirement.specs.Failures.{RefusedOr, IfRefused};
ghost use Rattle.spdx_requirement.specs.Items.{Requirement};
ghost use Rattle.spdx_parser.specs.Tree.{leaves};
ghost use Rattle.spdx_evaluation.specs.Requirements.{placed_of, nows};
ghost use Rattle.spdx_evaluation.specs.Calls.{Evaluates, EvaluatesToFalse};
ghost use Rattle.spdx_evaluation.specs.ByRequirement.{AnswersBy, FailsBy};
ghost use Rattle.spdx_evaluation.specs.Truth.{holds};
ghost use Rattle.spdx.specs.Value.{placed};

use crate::expression::Expression;
use spdx_catalogue::{Failure, LicenseReq};
use spdx_parser::node::ExpressionReq;
use std::alloc::{AllocError, Global};

impl<'c> Expression<'c> {
    /// The truth of the expression over the closure's answers.
    ///
    /// The closure is called exactly once for each requirement, from left to right, whatever it
    /// answers. All memory is taken before the first call, so that where it is wanting the closure
    /// was not called. Expressions of at most eight requirements take none. Of a closure that answers
    /// by the requirement alone, `by` says the truth without its calls.
    pub fn evaluate<F: FnMut(&LicenseReq<'c>) -> bool>(
        &self,
        alloc: Global,
        f: &mut F,
    ) -> Result<bool, AllocError>
        requires { F.IsAlwaysCallable f.old }
        ensures ok { IfOk result (λ truth.
            Evaluates (CalledAt F.FnMut) f.old self.now.tree truth f.new) }
        ensures by { IfOk result (λ truth. (h : Requirement → Bool) →
            AnswersBy (CalledAt F.FnMut) f.old h → truth ≡ holds h self.now.tree) }
        ensures still_callable { F.IsAlwaysCallable f.new }
        ensures err { OnErr result (f.new ≡ f.old) }
        ensures no_memory { length (leaves self.now.tree) ≤ 8 → IsOk result }
    {
        spdx_evaluation::evaluate(alloc, self.nodes(), f)
    }

    /// Nothing where the expression is true over the closure's answers, else every requirement that
    /// the closure refused, from left to right.
    ///
    /// The closure is called as by [`Expression::evaluate`], and all memory is taken before. `ok_by`
    /// and `err_by` are for a closure that answers by the requirement alone.
    pub fn evaluate_with_failures<F: FnMut(&LicenseReq<'c>) -> bool>(
        &self,
        alloc: Global,
        f: &mut F,
    ) -> Result<(), Failure<Vec<&ExpressionReq<'c>>>>
        requires { F.IsAlwaysCallable f.old }
        ensures ok { IfOk result (λ _.
            Evaluates (CalledAt F.FnMut) f.old self.now.tree true f.new) }
        ensures ok_by { IfOk result (λ _. (h : Requirement → Bool) →
            AnswersBy (CalledAt F.FnMut) f.old h → holds h self.now.tree ≡ true) }
        ensures still_callable { F.IsAlwaysCallable f.new }
        ensures err { IfErr result (RefusedOr (f.new ≡ f.old) (λ failed.
            EvaluatesToFalse (CalledAt F.FnMut) f.old self.now.tree (placed self.now)
            (map placed_of (nows failed.items)) f.new)) }
        ensures err_by { IfErr result (IfRefused (λ failed. (h : Requirement → Bool) →
            AnswersBy (CalledAt F.FnMut) f.old h →
            FailsBy h self.now.tree (placed self.now) (map placed_of (nows failed.items)))) }
    {
        spdx_evaluation::evaluate_with_failures(alloc, self.nodes(), f)
    }
}
