// Packages, as changes have them.

ghost use Rattle.std.specs.Prelude.{◌≡◌, IfOk, map};
ghost use Rattle.package_changes.specs.Rows.{row_of};
ghost use Rattle.changes_program.specs.Packages as spec;

use gate_program::name_of;
use package_changes::Package;
use package_sources::{License, Package as Listed};
use std::alloc::{AllocError, Global};

/// The packages of a file.
pub(crate) fn packages_of(alloc: Global, listed: &[Listed]) -> Result<Vec<Package<'_>>, AllocError>
    ensures { IfOk result (λ packages. map row_of packages.items ≡ map spec.row_in listed.now) }
{
    let mut packages = Vec::new(alloc);
    for one in listed {
        packages.push(of(one))?;
    }
    Ok(packages)
}

fn of(listed: &Listed) -> Package<'_>
    ensures { row_of result ≡ spec.row_in listed.now }
{
    Package {
        name: name_of(listed),
        version: match &listed.version {
            Some(version) => version.as_str(),
            None => "",
        },
        license: stated(&listed.license),
    }
}

fn stated(license: &License) -> &str
    ensures { result.now ≡ spec.stated_in license.now }
{
    match license {
        License::Stated(text) => text.as_str(),
        License::Unstated => "",
    }
}
