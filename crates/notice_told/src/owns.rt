// The files of packages that are owed.

ghost use Rattle.license_notice.specs.Wanted.{texts_of};
ghost use Rattle.notice_told.specs.Packages.{own_in, owns_in, owns_of};
ghost use Rattle.notice_texts.specs.Owed as spec;
ghost use Rattle.notice_texts.specs.Owed.{seen};
ghost use Rattle.notice_texts.specs.Shared.{own};
ghost use Rattle.std.specs.Prelude.{◌≡◌, ◌++◌, IfOk, OnOk, filter, flat_map, map};

use crate::packages::{OwnFile, Package};
use license_notice::{Requirement, text_names};
use notice_texts::{File, Holder, OwnText, is_owed, owed_files};
use std::alloc::{AllocError, Global};

/// Which of these files of a package are owed, in their order, where its expression has the requirements that are offered,
/// and its choice has these of them. So they alone need to be read.
///
/// # Errors
///
/// Memory was refused.
pub fn owed_of<'f>(
    alloc: Global,
    offered: &[Requirement<'_>],
    choice: &[Requirement<'_>],
    files: &[File<'f>],
) -> Result<Vec<File<'f>>, AllocError>
    ensures { IfOk result (λ v. map seen v.items ≡ spec.owed
        (flat_map texts_of offered.now) (flat_map texts_of choice.now) (map seen files.now)) }
{
    let offered = text_names(alloc, offered)?;
    let chosen = text_names(alloc, choice)?;
    let owed = owed_files(alloc, files, &offered, &chosen)?;
    Ok(owed)
}

/// What the files of the packages hold that are owed.
pub(crate) fn all_owns<'t>(
    alloc: Global,
    packages: &[Package<'_, 't>],
) -> Result<Vec<OwnText<'t>>, AllocError>
    ensures { IfOk result (λ v. map own v.items ≡ owns_in packages.now) }
{
    let mut owns = Vec::new(alloc);
    for one in packages {
        put_owns(alloc, &mut owns, one)?;
    }
    Ok(owns)
}

fn put_owns<'t>(
    alloc: Global,
    owns: &mut Vec<OwnText<'t>>,
    of: &Package<'_, 't>,
) -> Result<(), AllocError>
    ensures { OnOk result (map own owns.new.items ≡ map own owns.old.items ++ owns_of of.now) }
{
    let offered = text_names(alloc, of.offered)?;
    let chosen = text_names(alloc, of.choice)?;
    let owed = owed_among(alloc, of.files, &offered, &chosen)?;
    put_files(owns, of, &owed)?;
    Ok(())
}

fn owed_among<'t>(
    alloc: Global,
    files: &[OwnFile<'t>],
    offered: &[&str],
    chosen: &[&str],
) -> Result<Vec<OwnFile<'t>>, AllocError>
    ensures { IfOk result (λ v. v.items ≡ filter (λ f. spec.is_owed
        (map (λ t. t.now) offered.now) (map (λ t. t.now) chosen.now) (seen f.file)) files.now) }
{
    let mut owed = Vec::new(alloc);
    for one in files {
        if is_owed(&one.file, offered, chosen) {
            owed.push(*one)?;
        }
    }
    Ok(owed)
}

fn put_files<'t>(
    owns: &mut Vec<OwnText<'t>>,
    of: &Package<'_, 't>,
    files: &[OwnFile<'t>],
) -> Result<(), AllocError>
    ensures { OnOk result (map own owns.new.items
        ≡ map own owns.old.items ++ map (own_in of.now) files.now) }
{
    for one in files {
        owns.push(own_text(of, one))?;
    }
    Ok(())
}

fn own_text<'t>(of: &Package<'_, 't>, one: &OwnFile<'t>) -> OwnText<'t>
    ensures { own result ≡ own_in of.now one.now }
{
    OwnText {
        holder: Holder {
            name: of.name,
            version: of.version,
            file: one.file.path,
        },
        bytes: one.bytes,
    }
}
