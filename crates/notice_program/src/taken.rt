// The packages of all files, with what they are used under.

ghost use Rattle.std.specs.Prelude.{◌≡◌, ◌++◌, IfOk, OnOk, map, option_map};
ghost use Rattle.std.specs.List.{zip};
ghost use Rattle.std.specs.Option.{option_copied, option_to_list};
ghost use Rattle.choice_program.specs.Named.{shown, shown_all};
ghost use Rattle.gate_program.specs.Asked.{lent};
ghost use Rattle.notice_program.specs.Taken as spec;
ghost use Rattle.notice_program.specs.Taken.{
  entries_in,
  entries_of,
  entry_of,
  named_in,
  package_of,
  taken,
  taken_by,
  used,
  used_by,
  used_in,
};

use choice_program::{Chosen, told_name};
use license_notice::Requirement;
use owed_texts::Placed;
use package_files::Listed;
use package_sources::Package;
use spdx_licensee::RequirementTexts;
use std::alloc::{AllocError, Global};

/// A package, as it is told, and the file that lists it.
#[derive(Drop)]
pub(crate) struct Entry<'l> {
    pub(crate) name: String,
    pub(crate) file: &'l Listed,
    pub(crate) listed: &'l Package,
}

/// What a package is used under: its choice, of its expression.
#[derive(Drop)]
pub(crate) struct Used<'t> {
    pub(crate) choice: Vec<Requirement<'t>>,
    pub(crate) offered: Vec<Requirement<'t>>,
}

/// The packages of all files, in their order.
pub(crate) fn all_entries<'l>(
    alloc: Global,
    files: &'l [Listed],
) -> Result<Vec<Entry<'l>>, AllocError>
    ensures { IfOk result (λ all. map entry_of all.items ≡ entries_in files.now) }
{
    let mut all = Vec::new(alloc);
    for file in files {
        put_entries(alloc, &mut all, file)?;
    }
    Ok(all)
}

fn put_entries<'l>(
    alloc: Global,
    all: &mut Vec<Entry<'l>>,
    file: &'l Listed,
) -> Result<(), AllocError>
    ensures { OnOk result (map entry_of all.new.items
        ≡ map entry_of all.old.items ++ entries_of file.now) }
{
    for listed in &file.packages {
        all.push(entry_for(alloc, file, listed)?)?;
    }
    Ok(())
}

fn entry_for<'l>(
    alloc: Global,
    file: &'l Listed,
    listed: &'l Package,
) -> Result<Entry<'l>, AllocError>
    ensures { IfOk result (λ one. entry_of one ≡ spec.entry file.now listed.now) }
{
    Ok(Entry {
        name: told_name(alloc, listed)?,
        file,
        listed,
    })
}

/// The packages themselves.
pub(crate) fn packages_of<'l>(
    alloc: Global,
    entries: &[Entry<'l>],
) -> Result<Vec<&'l Package>, AllocError>
    ensures { IfOk result (λ packages.
        map lent packages.items ≡ map package_of (map entry_of entries.now)) }
{
    let mut packages = Vec::new(alloc);
    for entry in entries {
        packages.push(entry.listed)?;
    }
    Ok(packages)
}

/// What each package is used under.
pub(crate) fn all_used<'t>(alloc: Global, chosen: &'t Chosen) -> Result<Vec<Used<'t>>, AllocError>
    ensures { IfOk result (λ all. map used_by all.items ≡ used_in chosen.now) }
{
    let all = used_of(alloc, &chosen.choices, &chosen.offered)?;
    Ok(all)
}

fn used_of<'t>(
    alloc: Global,
    choices: &'t [Vec<RequirementTexts>],
    offered: &'t [Vec<RequirementTexts>],
) -> Result<Vec<Used<'t>>, AllocError>
    ensures { IfOk result (λ all. map used_by all.items
        ≡ map used (zip (shown_all choices.now) (shown_all offered.now))) }
{
    let mut all = Vec::new(alloc);
    for (place, choice) in choices.iter().enumerate() {
        put_used(alloc, &mut all, choice, offered.get(place))?;
    }
    Ok(all)
}

fn put_used<'t>(
    alloc: Global,
    all: &mut Vec<Used<'t>>,
    choice: &'t [RequirementTexts],
    offered: Option<&'t Vec<RequirementTexts>>,
) -> Result<(), AllocError>
    ensures { OnOk result (map used_by all.new.items ≡ map used_by all.old.items
        ++ option_to_list (option_map (spec.used_with (map shown choice.now))
        (option_copied offered.entry))) }
{
    if let Some(offered) = offered {
        all.push(Used {
            choice: requirements(alloc, choice)?,
            offered: requirements(alloc, offered)?,
        })?;
    }
    Ok(())
}

// The requirements, as a page takes them.
fn requirements<'t>(
    alloc: Global,
    choice: &'t [RequirementTexts],
) -> Result<Vec<Requirement<'t>>, AllocError>
    ensures { IfOk result (λ all. map named_in all.items ≡ map shown choice.now) }
{
    let mut all = Vec::new(alloc);
    for requirement in choice {
        all.push(Requirement {
            name: requirement.name.as_str(),
            texts: &requirement.texts,
        })?;
    }
    Ok(all)
}

/// The packages with what they are used under.
pub(crate) fn all_taken<'c, 't>(
    alloc: Global,
    entries: &'c [Entry<'t>],
    used: &'c [Used<'t>],
) -> Result<Vec<Placed<'c, 't>>, AllocError>
    ensures { IfOk result (λ all. map taken_by all.items
        ≡ map taken (zip (map entry_of entries.now) (map used_by used.now))) }
{
    let mut all = Vec::new(alloc);
    for (place, entry) in entries.iter().enumerate() {
        put_taken(&mut all, entry, used.get(place))?;
    }
    Ok(all)
}

fn put_taken<'c, 't>(
    all: &mut Vec<Placed<'c, 't>>,
    entry: &'c Entry<'t>,
    used: Option<&'c Used<'t>>,
) -> Result<(), AllocError>
    ensures { OnOk result (map taken_by all.new.items ≡ map taken_by all.old.items
        ++ option_to_list (option_map (spec.taken_with (entry_of entry.now))
        (option_copied used.entry))) }
{
    if let Some(used) = used {
        all.push(Placed {
            name: entry.name.as_str(),
            listed: entry.listed,
            file: entry.file,
            choice: &used.choice,
            offered: &used.offered,
        })?;
    }
    Ok(())
}
