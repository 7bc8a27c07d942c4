//! What is told of a name that a list hasn't.

ghost use Rattle.std.specs.Prelude.{◌≡◌, ◌++◌, IfOk, OnOk, codes, filter, flat_map, map, string_bytes};
ghost use Rattle.spdx_list.specs.Diff.{nows};
ghost use Rattle.list_told.specs.Unlisted as spec;
ghost use Rattle.list_told.specs.Unlisted.{unlisted_row};

use spdx_catalogue::Catalogue;
use spdx_hints::hints;
use std::alloc::{AllocError, Global};

/// A name that the list hasn't.
#[derive(Drop)]
pub struct Unlisted {
    pub name: String,
    /// Which names may be meant; where none may, which list it is, and how a newer one is taken.
    pub told: String,
}

// Those of the names that the list hasn't in any case, in their order.
pub(crate) fn unlisted_among(
    alloc: Global,
    catalogue: &Catalogue,
    names: &[&str],
) -> Result<Vec<Unlisted>, AllocError>
    ensures { IfOk result (λ all. map unlisted_row all.items ≡ map (spec.unlisted_by catalogue.now)
        (filter (spec.is_unlisted catalogue.now) (nows names.now))) }
{
    let mut all = Vec::new(alloc);
    for name in names {
        if is_unlisted(catalogue, *name) {
            all.push(unlisted_by(alloc, catalogue, *name)?)?;
        }
    }
    Ok(all)
}

fn is_unlisted(catalogue: &Catalogue, name: &str) -> bool
    ensures { result ≡ spec.is_unlisted catalogue.now name.now }
{
    catalogue.license_id_caseless(name).is_none() && catalogue.exception_id_caseless(name).is_none()
}

fn unlisted_by(alloc: Global, catalogue: &Catalogue, name: &str) -> Result<Unlisted, AllocError>
    ensures { IfOk result (λ one. unlisted_row one ≡ spec.unlisted_by catalogue.now name.now) }
{
    let meant = hints(alloc, catalogue, name.as_bytes())?;
    Ok(Unlisted {
        name: String::from_str(alloc, name)?,
        told: told_of(alloc, catalogue.license_version(), &meant.names)?,
    })
}

#[tactic(auto, unfolding(crate::specs::Unlisted::told_of))]
fn told_of(alloc: Global, version: &str, names: &[&str]) -> Result<String, AllocError>
    ensures { IfOk result (λ told. string_bytes told ≡ spec.told_of version.now (nows names.now)) }
{
    let mut told = String::new(alloc);
    let Some((first, others)) = names.split_first() else {
        told.push_str(", which is ")?;
        told.push_str(version)?;
        told.push_str("; --list, or SPDX_LIST, takes a newer one: 'spdx list --help'")?;
        return Ok(told);
    };
    told.push_str("; did you mean ")?;
    told.push_str(*first)?;
    put_others(&mut told, others)?;
    Ok(told)
}

fn put_others(told: &mut String, names: &[&str]) -> Result<(), AllocError>
    ensures { OnOk result (string_bytes told.new ≡ string_bytes told.old
        ++ flat_map (λ n. codes ", " ++ n) (nows names.now)) }
{
    for name in names {
        told.push_str(", ")?;
        told.push_str(*name)?;
    }
    Ok(())
}
