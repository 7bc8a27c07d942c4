// The licensees of a list with commas between them.

ghost use Rattle.std.specs.Prelude.{◌≡◌, IfErr, IfOk, map};
ghost use Rattle.std.specs.List.{AllZip};
ghost use Rattle.std.specs.Str.{trim};
ghost use Rattle.spdx_licensee.specs.LicenseeText.{Names};
ghost use Rattle.choice_program.specs.Licensees.{IsNoLicensee, IsNotNamed, name_in, names_in};

use crate::choosing::ChoiceTrouble;
use spdx_catalogue::Catalogue;
use spdx_licensee::Licensee;
use spdx_requirement::failure::Failure;
use std::alloc::{AllocError, Global};

pub(crate) fn licensees_in<'c>(
    alloc: Global,
    catalogue: &'c Catalogue,
    list: &str,
) -> Result<Vec<Licensee<'c>>, ChoiceTrouble>
    ensures ok { IfOk result (λ licensees.
        AllZip (Names catalogue.now) (names_in list.now) licensees.items) }
    ensures err { IfErr result (IsNoLicensee catalogue.now (names_in list.now)) }
{
    let names = names_in(alloc, list)?;
    let licensees = licensees_of(alloc, catalogue, &names)?;
    Ok(licensees)
}

fn names_in(alloc: Global, list: &str) -> Result<Vec<&str>, AllocError>
    ensures { IfOk result (λ names. map name_in names.items ≡ names_in list.now) }
{
    list.split(',').collect(alloc)
}

#[tactic(auto, using(crate::proofs::Naming::first_unnamed))]
fn licensees_of<'c>(
    alloc: Global,
    catalogue: &'c Catalogue,
    names: &[&str],
) -> Result<Vec<Licensee<'c>>, ChoiceTrouble>
    ensures ok { IfOk result (λ licensees.
        AllZip (Names catalogue.now) (map name_in names.now) licensees.items) }
    ensures err { IfErr result (IsNoLicensee catalogue.now (map name_in names.now)) }
{
    let mut licensees = Vec::new(alloc);
    for name in names {
        let licensee = licensee_of(alloc, catalogue, *name)?;
        licensees.push(licensee)?;
    }
    Ok(licensees)
}

fn licensee_of<'c>(
    alloc: Global,
    catalogue: &'c Catalogue,
    name: &str,
) -> Result<Licensee<'c>, ChoiceTrouble>
    ensures ok { IfOk result (Names catalogue.now (trim name.now)) }
    ensures err { IfErr result (IsNotNamed catalogue.now (trim name.now)) }
{
    let name = name.trim();
    match Licensee::parse(alloc, catalogue, name) {
        Ok(licensee) => Ok(licensee),
        Err(Failure::Refused(error)) => {
            Err(ChoiceTrouble::NoLicensee(String::from_str(alloc, name)?, error.reason))
        }
        Err(Failure::Memory(_)) => Err(ChoiceTrouble::Memory),
    }
}
