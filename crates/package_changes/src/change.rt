// How the license of a package changed.

ghost use Rattle.std.specs.Prelude.{◌≡◌, ◌≢◌, true, false, IfOk, IsOk, map};
ghost use Rattle.spdx_parser.specs.Tree.{node_of};
ghost use Rattle.spdx_evaluation.specs.Postfix.{IsPostfix, tree_in};
ghost use Rattle.spdx_canonical.specs.Normal.{normal_text};
ghost use Rattle.spdx_meaning.specs.Made.{made_in};
ghost use Rattle.package_changes.specs.Changing.{IsLicenseChange, Turns};
ghost use Rattle.package_changes.specs.Found.{IsSaidChange, why_of};

pub(crate) mod reading;

use crate::change::reading::{Reading, Untold, reading_of};
use spdx_canonical::normal_text;
use spdx_catalogue::{Catalogue, Failure};
use spdx_meaning::{Comparison, compare_nodes};
use spdx_parser::node::ExprNode;
use std::alloc::{AllocError, Global};

/// How a license changed from an older to a newer one.
#[derive(Drop)]
pub enum LicenseChange {
    /// It is the same text, or neither is stated.
    Kept,
    /// It is written otherwise: with other white space, parentheses or spellings. The tree is the same.
    Rewritten,
    /// It is another tree. Where the comparison tells [`spdx_meaning::Relation::Same`], it means the same all the same;
    /// `Less` says that the newer one asks for more. `first_alone` holds what was enough before and no longer is.
    Compared(Comparison),
    /// It can't be told, for a reason on one side or on both.
    Untold {
        old: Option<Untold>,
        new: Option<Untold>,
    },
}

/// How the license of a package changed. A license that isn't stated is empty. A text that strict reading refuses is
/// read as its fix, where it has one.
///
/// # Errors
///
/// Memory was refused.
pub fn license_change(
    alloc: Global,
    catalogue: &Catalogue,
    old: &str,
    new: &str,
) -> Result<LicenseChange, AllocError>
    ensures exact { IfOk result (IsLicenseChange catalogue.now old.now new.now) }
    ensures turned { Turns catalogue.now old.now new.now }
{
    if old == new {
        return Ok(LicenseChange::Kept);
    }
    let before = reading_of(alloc, catalogue, old)?;
    let after = reading_of(alloc, catalogue, new)?;
    match (&before, &after) {
        (Reading::Said(before), Reading::Said(after)) => {
            said_change(alloc, before.as_slice(), after.as_slice())
        }
        _ => {
            Ok(LicenseChange::Untold {
                old: why(&before),
                new: why(&after),
            })
        }
    }
}

// How the trees of two licenses compare.
fn said_change(
    alloc: Global,
    before: &[ExprNode<'_>],
    after: &[ExprNode<'_>],
) -> Result<LicenseChange, AllocError>
    requires one { IsPostfix (map node_of before.now) }
    requires other { IsPostfix (map node_of after.now) }
    requires few { IsOk (made_in (tree_in before.now)) }
    requires few_after { IsOk (made_in (tree_in after.now)) }
    ensures { IfOk result (IsSaidChange (tree_in before.now) (tree_in after.now)) }
{
    if are_written_alike(alloc, before, after)? {
        return Ok(LicenseChange::Rewritten);
    }
    match compare_nodes(alloc, before, after) {
        Ok(comparison) => Ok(LicenseChange::Compared(comparison)),
        // Neither makes too many sets.
        Err(Failure::Refused(_)) => Ok(LicenseChange::Kept),
        Err(Failure::Memory(error)) => Err(error),
    }
}

fn are_written_alike(
    alloc: Global,
    before: &[ExprNode<'_>],
    after: &[ExprNode<'_>],
) -> Result<bool, AllocError>
    requires one { IsPostfix (map node_of before.now) }
    requires other { IsPostfix (map node_of after.now) }
    ensures yes { IfOk result (λ are. are ≡ true →
        normal_text (tree_in before.now) ≡ normal_text (tree_in after.now)) }
    ensures no { IfOk result (λ are. are ≡ false →
        normal_text (tree_in before.now) ≢ normal_text (tree_in after.now)) }
{
    let one = normal_text(alloc, before)?;
    let other = normal_text(alloc, after)?;
    Ok(one.as_str() == other.as_str())
}

fn why(reading: &Reading<'_>) -> Option<Untold>
    ensures { result ≡ why_of reading.now }
{
    match reading {
        Reading::Said(_) => None,
        Reading::Untold(why) => Some(*why),
    }
}
