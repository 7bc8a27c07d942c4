// The packages of some files, as they are told.

ghost use Rattle.std.specs.Prelude.{◌≡◌, ◌++◌, IfOk, OnOk, flat_map, map, string_bytes};
ghost use Rattle.gate_program.specs.Told.{moved_named, named_as, names_in};

use gate_told::NamedPackage;
use package_files::Listed;
use package_sources::Package;
use std::alloc::{AllocError, Global};

/// The packages of these files, each with the file that names it.
pub(crate) fn named_in(alloc: Global, files: &[Listed]) -> Result<Vec<NamedPackage<'_>>, AllocError>
    ensures { IfOk result (λ named. map moved_named named.items ≡ flat_map names_in files.now) }
{
    let mut named = Vec::new(alloc);
    for file in files {
        add_named(&mut named, file.path.as_str(), &file.packages)?;
    }
    Ok(named)
}

fn add_named<'l>(
    named: &mut Vec<NamedPackage<'l>>,
    path: &'l str,
    packages: &'l [Package],
) -> Result<(), AllocError>
    ensures { OnOk result (map moved_named named.new.items
        ≡ map moved_named named.old.items ++ map (named_as path.now) packages.now) }
{
    for one in packages {
        named.push(name_of(path, one))?;
    }
    Ok(())
}

fn name_of<'l>(path: &'l str, listed: &'l Package) -> NamedPackage<'l>
    ensures { moved_named result ≡ named_as path.now listed.now }
{
    NamedPackage {
        file: path,
        name: listed.name.as_str(),
        version: match &listed.version {
            Some(version) => Some(version.as_str()),
            None => None,
        },
    }
}
