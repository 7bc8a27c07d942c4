// Packages and texts, as a page takes them.

ghost use Rattle.std.specs.Prelude.{◌≡◌, ◌++◌, IfOk, OnOk, map, option_map};
ghost use Rattle.std.specs.List.{zip};
ghost use Rattle.std.specs.Option.{option_copied, option_to_list};
ghost use Rattle.owed_texts.specs.All.{reads_in, reads_of};
ghost use Rattle.owed_texts.specs.Own.{read_of};
ghost use Rattle.owed_texts.specs.Held.{held_of};
ghost use Rattle.notice_program.specs.Noted as spec;
ghost use Rattle.notice_program.specs.Noted.{
  AreSorted,
  noted,
  noted_by,
  own_by,
  owns_by,
  version_by,
  text_by,
};
ghost use Rattle.notice_program.specs.Taken.{taken_by};

use notice_texts::File;
use notice_told::{GeneralText, OwnFile, Package as Noted};
use owed_texts::{HeldText, Placed, ReadFile};
use package_sources::Package;
use std::alloc::{AllocError, Global};

/// The files of each package.
pub(crate) fn all_owns<'t>(
    alloc: Global,
    read: &'t [Vec<ReadFile>],
) -> Result<Vec<Vec<OwnFile<'t>>>, AllocError>
    ensures { IfOk result (λ all. map owns_by all.items ≡ reads_in read.now) }
{
    let mut all = Vec::new(alloc);
    for files in read {
        all.push(owns_of(alloc, files)?)?;
    }
    Ok(all)
}

fn owns_of<'t>(alloc: Global, files: &'t [ReadFile]) -> Result<Vec<OwnFile<'t>>, AllocError>
    ensures { IfOk result (λ own. map own_by own.items ≡ map read_of files.now) }
{
    let mut own = Vec::new(alloc);
    for file in files {
        own.push(OwnFile {
            file: File {
                path: file.path.as_str(),
                is_declared: file.is_declared,
            },
            bytes: file.bytes.as_slice(),
        })?;
    }
    Ok(own)
}

/// The packages with what they are used under and their files.
pub(crate) fn all_noted<'c, 't>(
    alloc: Global,
    placed: &[Placed<'c, 't>],
    owns: &'c [Vec<OwnFile<'t>>],
) -> Result<Vec<Noted<'c, 't>>, AllocError>
    ensures { IfOk result (λ all. map noted_by all.items
        ≡ map noted (zip (map taken_by placed.now) (map owns_by owns.now))) }
{
    let mut all = Vec::new(alloc);
    for (place, one) in placed.iter().enumerate() {
        put_noted(&mut all, one, owns.get(place))?;
    }
    Ok(all)
}

fn put_noted<'c, 't>(
    all: &mut Vec<Noted<'c, 't>>,
    one: &Placed<'c, 't>,
    owns: Option<&'c Vec<OwnFile<'t>>>,
) -> Result<(), AllocError>
    ensures { OnOk result (map noted_by all.new.items ≡ map noted_by all.old.items
        ++ option_to_list (option_map (spec.noted_with (taken_by one.now))
        (option_copied owns.entry))) }
{
    if let Some(owns) = owns {
        all.push(Noted {
            name: one.listed.name.as_str(),
            version: version_of(one.listed),
            choice: one.choice,
            offered: one.offered,
            files: owns.as_slice(),
        })?;
    }
    Ok(())
}

// Its version, or nothing.
fn version_of(listed: &Package) -> &str
    ensures { result.now ≡ version_by listed.now }
{
    match &listed.version {
        Some(version) => version.as_str(),
        None => "",
    }
}

/// The texts of the folder, in the order of their names.
pub(crate) fn all_general<'t>(
    alloc: Global,
    held: &'t [HeldText],
) -> Result<Vec<GeneralText<'t>>, AllocError>
    ensures { IfOk result (λ general. AreSorted (map held_of held.now) general.items) }
{
    let mut general = general_of(alloc, held)?;
    general.sort_by_key(|text| text.name)?;
    Ok(general)
}

fn general_of<'t>(alloc: Global, held: &'t [HeldText]) -> Result<Vec<GeneralText<'t>>, AllocError>
    ensures { IfOk result (λ general. map text_by general.items ≡ map held_of held.now) }
{
    let mut general = Vec::new(alloc);
    for text in held {
        general.push(GeneralText {
            name: text.name.as_str(),
            bytes: text.bytes.as_slice(),
        })?;
    }
    Ok(general)
}
