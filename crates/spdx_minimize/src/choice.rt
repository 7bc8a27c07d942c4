//! The least choice of licensees that makes expressions true.

ghost use Rattle.std.specs.Prelude.{◌≡◌, ◌≤◌, IfOk, IfErr, length, map};
ghost use Rattle.spdx_requirement.specs.Failures.{IfRefused};
ghost use Rattle.spdx_requirement.specs.Items.{requirement_of};
ghost use Rattle.spdx_evaluation.specs.Requirements.{nows};
ghost use Rattle.spdx_minimize.specs.Choice.{useful, chosen, chosen_of, choice_of, choice_among, IsLeastChoice};
ghost use Rattle.spdx_minimize.specs.MinimizeFaults.{refused_choice};
ghost use Rattle.spdx_minimize.specs.Trees.{trees_in};

pub(crate) mod first;

use crate::choice::first::choice_for_one;
use crate::judge::held::HeldJudge;
use crate::minimize_error::MinimizeError;
use crate::nodes::TreeNodes;
use crate::useful::useful_members;
use selections::least_selection;
use smallvec::SmallVec;
use spdx_catalogue::{Failure, LicenseReq};
use spdx_licensee::Licensee;
use spdx_parser::node::ExprNode;
use std::alloc::{AllocError, Global};

// A truth for each member, true where it is chosen; so many take no memory.
type Selection = SmallVec<bool, 32>;

/// The requirements of the licensees in the least choice that makes every one of some expressions
/// true, in the order of `accepted`; a requirement is met if a chosen licensee satisfies it.
///
/// The choice is among the useful licensees: the distinct ones of `accepted`, at first occurrence,
/// that satisfy a requirement of some expression. Of the sufficient choices it is the one that,
/// against each other one, leaves out the last licensee on which the two differ. Without an
/// expression the choice is empty.
///
/// For one requirement the licensees are asked in turn up to the first that satisfies it. Else each
/// licensee is compared with each requirement at most twice, and each useful one with the licensees
/// before it. Then at most one question more than there are useful licensees is asked, each a walk over
/// the nodes of the expressions.
///
/// # Errors
///
/// [`MinimizeError::TooManyRequirements`] with the number of the useful licensees, if there are
/// more than 1,024; else [`MinimizeError::RequirementsUnmet`], if not even all of them suffice. Or
/// memory was refused.
pub fn least_choice<'a, 'c: 'a>(
    alloc: Global,
    lists: &[TreeNodes<'a, 'c>],
    accepted: &'a [Licensee<'c>],
) -> Result<Vec<LicenseReq<'c>>, Failure<MinimizeError>>
    ensures ok { IfOk result (λ reqs.
        choice_of (trees_in lists.now) accepted.now ≡ chosen (map requirement_of reqs.items)) }
    ensures err { IfErr result (IfRefused (λ e.
        choice_of (trees_in lists.now) accepted.now ≡ refused_choice e)) }
    ensures least { IfOk result (λ reqs.
        IsLeastChoice (trees_in lists.now) (useful (trees_in lists.now) accepted.now)
        (map requirement_of reqs.items)) }
{
    // Most expressions are one requirement.
    if let [list] = lists
        && let [node] = list.nodes
        && let ExprNode::Req(requirement) = node
        && accepted.len() <= 1024
    {
        return choice_for_one(alloc, &requirement.req, accepted);
    }
    let members = useful_members(alloc, lists, accepted)?;
    choice_among_members(alloc, lists, members.as_slice())
}

// The same choice among these members, which are the useful licensees.
pub(crate) fn choice_among_members<'a, 'c: 'a>(
    alloc: Global,
    lists: &[TreeNodes<'a, 'c>],
    members: &[&'a Licensee<'c>],
) -> Result<Vec<LicenseReq<'c>>, Failure<MinimizeError>>
    ensures ok { IfOk result (λ reqs.
        choice_among (trees_in lists.now) (nows members.now)
        ≡ chosen (map requirement_of reqs.items)) }
    ensures err { IfErr result (IfRefused (λ e.
        choice_among (trees_in lists.now) (nows members.now) ≡ refused_choice e)) }
    ensures least { IfOk result (λ reqs.
        IsLeastChoice (trees_in lists.now) (nows members.now) (map requirement_of reqs.items)) }
{
    let count = members.len();
    if count == 0 && !lists.is_empty() {
        return Err(Failure::Refused(MinimizeError::RequirementsUnmet));
    }
    if count > 1024 {
        return Err(Failure::Refused(MinimizeError::TooManyRequirements(count)));
    }
    choice_by_judge(alloc, lists, members)
}

// The same among at most 1,024 members.
fn choice_by_judge<'a, 'c: 'a>(
    alloc: Global,
    lists: &[TreeNodes<'a, 'c>],
    members: &[&'a Licensee<'c>],
) -> Result<Vec<LicenseReq<'c>>, Failure<MinimizeError>>
    requires { length members.now ≤ 1024 }
    ensures ok { IfOk result (λ reqs.
        choice_among (trees_in lists.now) (nows members.now)
        ≡ chosen (map requirement_of reqs.items)) }
    ensures err { IfErr result (IfRefused (λ e.
        choice_among (trees_in lists.now) (nows members.now) ≡ refused_choice e)) }
    ensures least { IfOk result (λ reqs.
        IsLeastChoice (trees_in lists.now) (nows members.now) (map requirement_of reqs.items)) }
{
    let mut selection = Selection::from_elem(alloc, false, members.len())?;
    let places = selection.as_mut_slice();
    let mut judge = HeldJudge::new(alloc, lists, members)?;
    if !least_selection(&mut judge, places) {
        return Err(Failure::Refused(MinimizeError::RequirementsUnmet));
    }
    Ok(chosen_requirements(alloc, members, places)?)
}

// The requirements of the chosen members.
fn chosen_requirements<'c>(
    alloc: Global,
    members: &[&Licensee<'c>],
    selection: &[bool],
) -> Result<Vec<LicenseReq<'c>>, AllocError>
    requires { length selection.now ≡ length members.now }
    ensures { IfOk result (λ reqs.
        map requirement_of reqs.items ≡ chosen_of (nows members.now) selection.now) }
{
    let mut requirements = Vec::new(alloc);
    for place in 0..members.len() {
        if selection[place] {
            requirements.push(members[place].req().try_clone(alloc)?)?;
        }
    }
    Ok(requirements)
}
