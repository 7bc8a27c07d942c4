//! Which packages stand under which licence, and which texts are needed: each package goes in with the requirements
//! of its choice, and groups of packages come out, by requirement. The order of the texts on a page is that of `notice_told`.
//!
//! Of licences it knows their names alone.
//!
//! ```rust
//! // crates/test_forms/src/notices.rt
//! let notice = notice_of(alloc, packages)?;
//! ```
//!
//! `packages_in` has the packages of the groups, each once, for a page's contents by package, and `places_in` in which of
//! some lists, as those of the groups, each of them stands. It stands on nothing but std.
#![tactic(auto)]

ghost use Rattle.std.specs.Prelude.{◌≡◌, ◌↔◌, ℕ, ◌<◌, List, IfOk, All, Contains, length, map};
ghost use Rattle.std.specs.List.Sorted.{IsStrictlySortedBy};
ghost use Rattle.license_notice.specs.Rows.{Row, Band, row_cmp, text_cmp, all_rows};
ghost use Rattle.license_notice.specs.Notices.{bands_of, names_of};
ghost use Rattle.license_notice.specs.Wanted.{chosen_rows, wanted_texts};

mod groups;
mod once;
mod packages;
mod places;
mod stands;
mod texts;

use crate::groups::groups;
pub use crate::once::{each_once, packages_in};
pub use crate::packages::{Group, Notice, Package, Release, Requirement};
pub use crate::places::{Place, Places, places_in};
use crate::stands::stands;
pub use crate::texts::text_names;
use crate::texts::texts;
use std::alloc::{AllocError, Global};

/// The packages under the requirements of their choices, and the names of the texts that these want. A package stands
/// under a requirement exactly if that is one of its choice's. Groups ascend by requirement, packages by name and then
/// by version, texts by name: each by its bytes, each once. Packages of one name and version are one line under a
/// requirement, for a reader can't tell them apart; under it stands each requirement that one of them chose.
///
/// Takes `n log n` comparisons of texts, for `n` requirements of all choices together.
///
/// # Errors
///
/// Memory was refused.
pub fn notice_of<'t>(alloc: Global, packages: &[Package<'_, 't>]) -> Result<Notice<'t>, AllocError>
    // A row is on the page exactly if it is of some package's choice.
    ensures chosen { IfOk result (λ n. (r : Row) →
        Contains (all_rows (bands_of n.groups.items)) r ↔ Contains (chosen_rows packages.now) r) }
    // No row stands twice, and within a requirement packages ascend.
    ensures ascend { IfOk result (λ n.
        IsStrictlySortedBy row_cmp (all_rows (bands_of n.groups.items))) }
    // No requirement has two groups.
    ensures groups_ascend { IfOk result (λ n.
        IsStrictlySortedBy text_cmp (names_of (bands_of n.groups.items))) }
    ensures none_empty { IfOk result (λ n.
        All (λ b. 0 < length b.lines) (bands_of n.groups.items)) }
    ensures wanted { IfOk result (λ n. (t : List ℕ) →
        Contains (map (λ t. t.now) n.texts.items) t ↔ Contains (wanted_texts packages.now) t) }
    ensures texts_ascend { IfOk result (λ n.
        IsStrictlySortedBy text_cmp (map (λ t. t.now) n.texts.items)) }
{
    let stands = stands(alloc, packages)?;
    let groups = groups(alloc, &stands)?;
    let texts = texts(alloc, packages)?;
    Ok(Notice { groups, texts })
}
