// Packages in the order of a page.

ghost use Rattle.license_notice.specs.Once.{AreOnce};
ghost use Rattle.license_notice.specs.Notices.{line_of, bands_of};
ghost use Rattle.license_notice.specs.Places.{AreByPackage, lines_in};
ghost use Rattle.std.specs.Prelude.{◌≡◌, ◌++◌, OnOk, IfOk, map};

use crate::packages::{Group, Release};
use std::alloc::{AllocError, Global};

/// These packages, ascending by name and then by version, each once, as they stand under a requirement of a notice.
///
/// Takes `n log n` comparisons of texts, for `n` packages.
pub fn each_once<'t>(releases: Vec<Release<'t>>) -> Vec<Release<'t>>
    ensures { AreOnce (map line_of releases.entry.items) (map line_of result.items) }
{
    let mut once = releases;
    once.sort_unstable();
    once.dedup();
    once
}

/// The packages of the groups, ascending by name and then by version, each once, as they stand in the contents by package.
///
/// Takes `n log n` comparisons of texts, for `n` packages of all groups together.
///
/// # Errors
///
/// Memory was refused.
pub fn packages_in<'t>(alloc: Global, groups: &[Group<'t>]) -> Result<Vec<Release<'t>>, AllocError>
    ensures { IfOk result (λ v. AreByPackage (bands_of groups.now) (map line_of v.items)) }
{
    let mut all = Vec::new(alloc);
    for group in groups {
        put_releases(&mut all, &group.packages)?;
    }
    Ok(each_once(all))
}

fn put_releases<'t>(all: &mut Vec<Release<'t>>, releases: &[Release<'t>]) -> Result<(), AllocError>
    ensures { OnOk result (map line_of all.new.items
        ≡ map line_of all.old.items ++ map line_of releases.now) }
{
    for release in releases {
        all.push(*release)?;
    }
    Ok(())
}
