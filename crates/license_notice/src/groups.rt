// Rows in groups by their requirements.

ghost use Rattle.std.specs.Prelude.{◌≡◌, ◌<◌, ◌≤◌, IfOk, length, map};
ghost use Rattle.std.specs.List.{prefix_len};
ghost use Rattle.std.specs.Str.{bytes_eq};
ghost use Rattle.license_notice.specs.Grouping.{line_in, first_name, grouped};
ghost use Rattle.license_notice.specs.Notices.{line_of, bands_of};
ghost use Rattle.license_notice.specs.Stands.{row_of};

use crate::packages::{Group, Release};
use crate::stands::Stand;
use std::alloc::{AllocError, Global};

fn first_requirement<'t>(stands: &[Stand<'t>]) -> &'t str
    ensures { result.now ≡ first_name (map row_of stands.now) }
{
    match stands {
        [first, ..] => first.requirement,
        [] => "",
    }
}

// How many of the first rows have the requirement.
fn run_len(requirement: &str, stands: &[Stand<'_>]) -> usize
    ensures value { result
        ≡ prefix_len (λ s. bytes_eq s.requirement.now requirement.now) stands.now }
    ensures within { result ≤ length stands.now }
{
    stands
        .iter()
        .take_while(|stand| stand.requirement == requirement)
        .count()
}

fn releases<'t>(alloc: Global, stands: &[Stand<'t>]) -> Result<Vec<Release<'t>>, AllocError>
    ensures { IfOk result (λ v.
        map line_of v.items ≡ map (λ s. line_in (row_of s)) stands.now) }
{
    let mut releases = Vec::new(alloc);
    for stand in stands {
        releases.push(Release {
            name: stand.name,
            version: stand.version,
        })?;
    }
    Ok(releases)
}

/// The rows in groups. Rows of one requirement that stand side by side are a group.
pub(crate) fn groups<'t>(alloc: Global, stands: &[Stand<'t>]) -> Result<Vec<Group<'t>>, AllocError>
    ensures { IfOk result (λ v. bands_of v.items ≡ grouped (map row_of stands.now)) }
{
    let mut groups = Vec::new(alloc);
    let mut rest = stands;
    while !rest.is_empty() {
        let requirement = first_requirement(rest);
        let len = run_len(requirement, rest);
        let packages = releases(alloc, &rest[..len])?;
        groups.push(Group {
            requirement,
            packages,
        })?;
        rest = &rest[len..];
    }
    Ok(groups)
}
