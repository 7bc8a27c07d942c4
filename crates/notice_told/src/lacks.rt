// Texts that packages want and don't have.

ghost use Rattle.license_notice.specs.Notices.{line_of};
ghost use Rattle.notice_told.specs.Lacks.{has_among, is_held, lack, lacks_in, lacks_of, may_be, seen_lack};
ghost use Rattle.notice_texts.specs.Owed.{seen};
ghost use Rattle.std.specs.List.{list_any};
ghost use Rattle.std.specs.Prelude.{◌≡◌, ◌++◌, IfOk, OnOk, filter, map, not};

use crate::packages::{OwnFile, Package};
use license_notice::{Release, text_names};
use notice_texts::{is_license_text, is_owed};
use std::alloc::{AllocError, Global};

/// A text that a package wants, and no file of the package is.
#[derive(Clone, Copy, Debug)]
pub struct Lack<'t> {
    pub release: Release<'t>,
    /// The name of the text.
    pub text: &'t str,
}

/// The text of a licence or of an exception that is no package's own.
#[derive(Clone, Copy, Debug)]
pub struct GeneralText<'t> {
    pub name: &'t str,
    pub bytes: &'t [u8],
}

/// The texts that the choices of the packages want and that none of their own files may be, in the order of the packages
/// and of their choices. A file may be a text if it is a licence's by its name, or is declared to be one, and is owed where
/// that text is chosen alone.
///
/// # Errors
///
/// Memory was refused.
pub fn all_lacks<'t>(
    alloc: Global,
    packages: &[Package<'_, 't>],
) -> Result<Vec<Lack<'t>>, AllocError>
    ensures { IfOk result (λ v. map seen_lack v.items ≡ lacks_in packages.now) }
{
    let mut lacks = Vec::new(alloc);
    for one in packages {
        put_lacks(alloc, &mut lacks, one)?;
    }
    Ok(lacks)
}

fn put_lacks<'t>(
    alloc: Global,
    lacks: &mut Vec<Lack<'t>>,
    of: &Package<'_, 't>,
) -> Result<(), AllocError>
    ensures { OnOk result (map seen_lack lacks.new.items
        ≡ map seen_lack lacks.old.items ++ lacks_of of.now) }
{
    let offered = text_names(alloc, of.offered)?;
    let chosen = text_names(alloc, of.choice)?;
    put_lacking(lacks, of, &offered, &chosen)?;
    Ok(())
}

fn put_lacking<'t>(
    lacks: &mut Vec<Lack<'t>>,
    of: &Package<'_, 't>,
    offered: &[&str],
    chosen: &[&'t str],
) -> Result<(), AllocError>
    ensures { OnOk result (map seen_lack lacks.new.items ≡ map seen_lack lacks.old.items
        ++ map (lack of.now) (filter (λ name. not (has_among of.now.files.now
        (map (λ t. t.now) offered.now) name)) (map (λ t. t.now) chosen.now))) }
{
    for name in chosen {
        if !has_among(of.files, offered, *name) {
            lacks.push(Lack {
                release: release_of(of),
                text: *name,
            })?;
        }
    }
    Ok(())
}

pub(crate) fn release_of<'t>(of: &Package<'_, 't>) -> Release<'t>
    ensures { line_of result ≡ record { name = of.now.name.now; version = of.now.version.now } }
{
    Release {
        name: of.name,
        version: of.version,
    }
}

// Whether one of the files may be the text of the name.
fn has_among(files: &[OwnFile<'_>], offered: &[&str], name: &str) -> bool
    ensures { result ≡ has_among files.now (map (λ t. t.now) offered.now) name.now }
{
    files.iter().any(|file| may_be(file, offered, name))
}

fn may_be(one: &OwnFile<'_>, offered: &[&str], name: &str) -> bool
    ensures { result ≡ may_be (map (λ t. t.now) offered.now) name.now one.now }
{
    is_license_text(&one.file) && is_owed(&one.file, offered, &[name])
}

/// The lacks for which there is no general text.
pub(crate) fn missing_of<'t>(
    alloc: Global,
    lacks: &[Lack<'t>],
    held: &[GeneralText<'_>],
) -> Result<Vec<Lack<'t>>, AllocError>
    ensures { IfOk result (λ v. map seen_lack v.items
        ≡ filter (λ l. not (is_held held.now l.text)) (map seen_lack lacks.now)) }
{
    let mut missing = Vec::new(alloc);
    for lack in lacks {
        if !is_held(held, lack.text) {
            missing.push(*lack)?;
        }
    }
    Ok(missing)
}

// Whether a general text has the name.
fn is_held(held: &[GeneralText<'_>], name: &str) -> bool
    ensures { result ≡ is_held held.now name.now }
{
    held.iter().any(|text| text.name == name)
}
