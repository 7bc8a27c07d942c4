// The names of the texts that choices want.

ghost use Rattle.std.specs.Prelude.{◌≡◌, ℕ, List, ◌++◌, OnOk, IfOk, Contains, map, flat_map, string_bytes};
ghost use Rattle.std.specs.List.Sorted.{IsStrictlySortedBy};
ghost use Rattle.license_notice.specs.Rows.{text_cmp};
ghost use Rattle.license_notice.specs.Wanted.{texts_of, texts_for, wanted_texts};

use crate::packages::{Package, Requirement};
use std::alloc::{AllocError, Global};

/// The names of the texts that are wanted, in order, each once.
pub(crate) fn texts<'t>(
    alloc: Global,
    packages: &[Package<'_, 't>],
) -> Result<Vec<&'t str>, AllocError>
    ensures ascend { IfOk result (λ v. IsStrictlySortedBy text_cmp (map (λ t. t.now) v.items)) }
    ensures keeps { IfOk result (λ v. (t : List ℕ) →
        Contains (wanted_texts packages.now) t → Contains (map (λ t. t.now) v.items) t) }
    ensures adds_none { IfOk result (λ v. (t : List ℕ) →
        Contains (map (λ t. t.now) v.items) t → Contains (wanted_texts packages.now) t) }
{
    let mut texts = wanted(alloc, packages)?;
    texts.sort_unstable();
    texts.dedup();
    Ok(texts)
}

fn wanted<'t>(alloc: Global, packages: &[Package<'_, 't>]) -> Result<Vec<&'t str>, AllocError>
    ensures { IfOk result (λ v. map (λ t. t.now) v.items ≡ wanted_texts packages.now) }
{
    let mut texts = Vec::new(alloc);
    for package in packages {
        put_texts(&mut texts, package.choice)?;
    }
    Ok(texts)
}

fn put_texts<'t>(texts: &mut Vec<&'t str>, choice: &[Requirement<'t>]) -> Result<(), AllocError>
    ensures { OnOk result (map (λ t. t.now) texts.new.items
        ≡ map (λ t. t.now) texts.old.items ++ flat_map texts_of choice.now) }
{
    for requirement in choice {
        put_names(texts, requirement.texts)?;
    }
    Ok(())
}

fn put_names<'t>(texts: &mut Vec<&'t str>, names: &'t [String]) -> Result<(), AllocError>
    ensures { OnOk result (map (λ t. t.now) texts.new.items
        ≡ map (λ t. t.now) texts.old.items ++ map string_bytes names.now) }
{
    for name in names {
        texts.push(name.as_str())?;
    }
    Ok(())
}

/// The names of the texts that the requirements want, in their order.
///
/// # Errors
///
/// Memory was refused.
pub fn text_names<'t>(alloc: Global, choice: &[Requirement<'t>]) -> Result<Vec<&'t str>, AllocError>
    ensures { IfOk result (λ v. map (λ t. t.now) v.items ≡ flat_map texts_of choice.now) }
{
    let mut texts = Vec::new(alloc);
    put_texts(&mut texts, choice)?;
    Ok(texts)
}
