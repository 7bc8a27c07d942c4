// Each package under each requirement of its choice, in order.

ghost use Rattle.std.specs.Prelude.{◌≡◌, ◌++◌, OnOk, IfOk, Contains, map, flat_map};
ghost use Rattle.std.specs.List.Sorted.{IsStrictlySortedBy};
ghost use Rattle.license_notice.specs.Rows.{Row, row_cmp};
ghost use Rattle.license_notice.specs.Stands.{row_of};
ghost use Rattle.license_notice.specs.Wanted.{rows_of, chosen_rows};

use crate::packages::Package;
use std::alloc::{AllocError, Global};

/// A package under a requirement, in the order of a page.
#[derive(Clone, Copy, PartialEq, Eq, PartialOrd, Ord)]
pub(crate) struct Stand<'t> {
    pub(crate) requirement: &'t str,
    pub(crate) name: &'t str,
    pub(crate) version: &'t str,
}

/// What each package's choice says, in order, each once.
pub(crate) fn stands<'t>(
    alloc: Global,
    packages: &[Package<'_, 't>],
) -> Result<Vec<Stand<'t>>, AllocError>
    ensures ascend { IfOk result (λ v. IsStrictlySortedBy row_cmp (map row_of v.items)) }
    ensures keeps { IfOk result (λ v. (r : Row) →
        Contains (chosen_rows packages.now) r → Contains (map row_of v.items) r) }
    ensures adds_none { IfOk result (λ v. (r : Row) →
        Contains (map row_of v.items) r → Contains (chosen_rows packages.now) r) }
{
    let mut stands = every_stand(alloc, packages)?;
    stands.sort_unstable();
    stands.dedup();
    Ok(stands)
}

fn every_stand<'t>(
    alloc: Global,
    packages: &[Package<'_, 't>],
) -> Result<Vec<Stand<'t>>, AllocError>
    ensures { IfOk result (λ v. map row_of v.items ≡ chosen_rows packages.now) }
{
    let mut stands = Vec::new(alloc);
    for package in packages {
        put_stands(&mut stands, package)?;
    }
    Ok(stands)
}

fn put_stands<'t>(stands: &mut Vec<Stand<'t>>, package: &Package<'_, 't>) -> Result<(), AllocError>
    ensures { OnOk result (map row_of stands.new.items
        ≡ map row_of stands.old.items ++ rows_of «package».now) }
{
    for requirement in package.choice {
        stands.push(Stand {
            requirement: requirement.name,
            name: package.name,
            version: package.version,
        })?;
    }
    Ok(())
}
