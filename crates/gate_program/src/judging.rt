// What a policy says of the packages of some files.

ghost use Rattle.std.specs.Prelude.{◌≡◌, ◌++◌, IfOk, OnOk, flat_map, map, string_bytes};
ghost use Rattle.std.specs.Option.{option_copied};
ghost use Rattle.gate_program.specs.Files.{IsReportOf, moved_package, stated_in, view_of, views_in};

use package_files::Listed;
use package_sources::{License, Package};
use spdx_catalogue::Catalogue;
use spdx_gate::{Package as Judged, Report, judge};
use spdx_policy::Policy;
use std::alloc::{AllocError, Global};

/// What the policy says of the packages of all files, a row for each.
pub(crate) fn judged<'c>(
    alloc: Global,
    catalogue: &'c Catalogue,
    policy: &Policy<'c>,
    files: &[Listed],
) -> Result<Report<'c>, AllocError>
    ensures { IfOk result (IsReportOf catalogue.now policy.now files.now) }
{
    let packages = packages_of(alloc, files)?;
    judge(alloc, catalogue, policy, &packages)
}

fn packages_of<'l>(alloc: Global, files: &'l [Listed]) -> Result<Vec<Judged<'l>>, AllocError>
    ensures { IfOk result (λ xs. map moved_package xs.items ≡ flat_map views_in files.now) }
{
    let mut packages = Vec::new(alloc);
    for file in files {
        add_packages(&mut packages, &file.packages)?;
    }
    Ok(packages)
}

fn add_packages<'l>(packages: &mut Vec<Judged<'l>>, listed: &'l [Package]) -> Result<(), AllocError>
    ensures { OnOk result (map moved_package packages.new.items
        ≡ map moved_package packages.old.items ++ map view_of listed.now) }
{
    for one in listed {
        packages.push(view(one))?;
    }
    Ok(())
}

/// A package, as a policy judges it.
pub fn view(listed: &Package) -> Judged<'_>
    ensures { moved_package result ≡ view_of listed.now }
{
    Judged {
        name: listed.name.as_str(),
        version: match &listed.version {
            Some(version) => Some(version.as_str()),
            None => None,
        },
        license: stated(&listed.license),
    }
}

fn stated(license: &License) -> Option<&str>
    ensures { option_copied result ≡ stated_in license.now }
{
    match license {
        License::Stated(text) => Some(text.as_str()),
        License::Unstated => None,
    }
}
