//! The least choice of licensees that makes expressions true.

ghost use Rattle.std.specs.Prelude.{◌≡◌, [], ◌∷◌, IfOk, IfErr, map};
ghost use Rattle.spdx_requirement.specs.Failures.{IfRefused};
ghost use Rattle.spdx_requirement.specs.Items.{requirement_of};
ghost use Rattle.spdx_minimize.specs.Choice.{useful, chosen, choice_of, IsLeastChoice};
ghost use Rattle.spdx_minimize.specs.AcceptedModel.{licensees_of};
ghost use Rattle.spdx_minimize.specs.MinimizeFaults.{refused_choice};
ghost use Rattle.spdx.specs.Value.{trees_of};

use crate::expression::Expression;
use crate::expression::judge::nodes_of_all;
use spdx_catalogue::{Failure, LicenseReq};
use spdx_licensee::Licensee;
use spdx_minimize::{AcceptedLicensees, MinimizeError, TreeNodes, least_choice};
use std::alloc::Global;
use std::slice;

impl<'c> Expression<'c> {
    /// The requirements of the licensees in the least choice that makes the expression true:
    /// [`minimized_for_all`] of this one expression.
    ///
    /// # Errors
    ///
    /// Those of [`minimized_for_all`].
    pub fn minimized_requirements<'a>(
        &'a self,
        alloc: Global,
        accepted: &'a [Licensee<'c>],
    ) -> Result<Vec<LicenseReq<'c>>, Failure<MinimizeError>>
        ensures ok { IfOk result (λ reqs.
            choice_of (self.now.tree ∷ []) accepted.now ≡ chosen (map requirement_of reqs.items)) }
        ensures err { IfErr result (IfRefused (λ e.
            choice_of (self.now.tree ∷ []) accepted.now ≡ refused_choice e)) }
        ensures least { IfOk result (λ reqs.
            IsLeastChoice (self.now.tree ∷ []) (useful (self.now.tree ∷ []) accepted.now)
            (map requirement_of reqs.items)) }
    {
        let list = TreeNodes::new(self.nodes());
        least_choice(alloc, slice::from_ref(&list), accepted)
    }

    /// The same of the licensees of a run, which remember who satisfies which requirement.
    ///
    /// A requirement that is remembered costs what the licensees do that satisfy it, and not what all
    /// of them do; another one is compared with each licensee, and remembered if it has no reference.
    ///
    /// # Errors
    ///
    /// Those of [`minimized_for_all`]. The licensees are as before, and may be used again.
    pub fn minimized_among(
        &self,
        alloc: Global,
        accepted: &mut AcceptedLicensees<'_, 'c>,
    ) -> Result<Vec<LicenseReq<'c>>, Failure<MinimizeError>>
        ensures ok { IfOk result (λ reqs. choice_of (self.now.tree ∷ []) (licensees_of accepted.old)
            ≡ chosen (map requirement_of reqs.items)) }
        ensures err { IfErr result (IfRefused (λ e.
            choice_of (self.now.tree ∷ []) (licensees_of accepted.old) ≡ refused_choice e)) }
        ensures least { IfOk result (λ reqs. IsLeastChoice (self.now.tree ∷ [])
            (useful (self.now.tree ∷ []) (licensees_of accepted.old))
            (map requirement_of reqs.items)) }
        ensures licensees { licensees_of accepted.new ≡ licensees_of accepted.old }
    {
        let list = TreeNodes::new(self.nodes());
        accepted.least_choice(alloc, slice::from_ref(&list))
    }
}

/// The requirements of the licensees in the least choice that makes every one of the expressions
/// true, in the order of `accepted`; a requirement is met if a chosen licensee satisfies it.
///
/// The choice is among the useful licensees: the distinct ones of `accepted`, at first occurrence,
/// that satisfy a requirement of some expression. Of the sufficient choices it is the one that,
/// against each other one, leaves out the last licensee on which the two differ; so the licensees
/// that stand first are preferred, and the number of the chosen ones need not be the least. None of
/// them can be left out with the rest sufficient. Without an expression the choice is empty.
///
/// Each licensee is compared with each requirement at most twice, and each useful one with the licensees
/// before it. Then at most one question more than there are
/// useful licensees is asked, each a walk over the nodes of the expressions. A list of the
/// expressions takes memory.
///
/// # Errors
///
/// [`MinimizeError::TooManyRequirements`] with the number of the useful licensees, if there are
/// more than 1,024; else [`MinimizeError::RequirementsUnmet`], if not even all of them suffice. Or
/// memory was refused.
pub fn minimized_for_all<'a, 'c: 'a>(
    alloc: Global,
    exprs: &[&'a Expression<'c>],
    accepted: &'a [Licensee<'c>],
) -> Result<Vec<LicenseReq<'c>>, Failure<MinimizeError>>
    ensures ok { IfOk result (λ reqs.
        choice_of (trees_of exprs.now) accepted.now ≡ chosen (map requirement_of reqs.items)) }
    ensures err { IfErr result (IfRefused (λ e.
        choice_of (trees_of exprs.now) accepted.now ≡ refused_choice e)) }
    ensures least { IfOk result (λ reqs.
        IsLeastChoice (trees_of exprs.now) (useful (trees_of exprs.now) accepted.now)
        (map requirement_of reqs.items)) }
{
    let lists = nodes_of_all(alloc, exprs)?;
    least_choice(alloc, lists.as_slice(), accepted)
}
