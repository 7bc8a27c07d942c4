// What is noted of the files below a folder, for its end.

ghost use Rattle.std.specs.Prelude.{◌≡◌, ◌++◌, ◌∷◌, [], IfErr, IfOk, OnOk, codes, map, string_bytes};
ghost use Rattle.std.specs.Option.{option_copied};
ghost use Rattle.check_files.specs.Noted as spec;
ghost use Rattle.check_files.specs.Noted.{
  AddsNeeded,
  Grows,
  IsBare,
  IsNoneNoted,
  IsNothingAt,
  IsUseOfManifest,
  IsUseOfTags,
  NeedsDeclared,
  NotesBare,
  notes_of,
};
ghost use Rattle.check_sources.specs.Manifests.{mode_in, sites_in};
ghost use Rattle.check_sources.specs.Stood.{source_of};

use check_sources::{Source, is_binary, is_text, mode_in, needed_by, needs_none, slice_in};
use license_tags::{Tag, comment_of, tags};
use manifests::{Form, Site};
use shelves::Shelf;
use spdx_catalogue::Catalogue;
use spdx_check::Check;
use spdx_lexer::token::ParseMode;
use std::alloc::{AllocError, Global};

/// What is noted of the files below a folder, for its end.
#[derive(Drop)]
pub struct Noted {
    /// The names of the license texts that expressions need.
    pub used: Vec<String>,
    /// The files without a license.
    pub untagged: Vec<String>,
    /// What runs that were killed left.
    pub left_behind: Vec<String>,
}

impl Noted {
    /// Of no file.
    pub fn new(alloc: Global) -> Noted
        ensures { IsNoneNoted (notes_of result) }
    {
        Noted {
            used: Vec::new(alloc),
            untagged: Vec::new(alloc),
            left_behind: Vec::new(alloc),
        }
    }
}

// Appends what an expression needs, if it is one.
fn add_needed(
    alloc: Global,
    catalogue: &Catalogue,
    mode: ParseMode,
    bytes: &[u8],
    used: &mut Vec<String>,
) -> Result<(), AllocError>
    ensures { OnOk result (spec.AddsOne catalogue.now mode bytes.now
        (map string_bytes used.old.items) (map string_bytes used.new.items)) }
{
    let mut names = needed_by(alloc, catalogue, mode, bytes)?;
    used.append(&mut names)?;
    Ok(())
}

fn add_site(
    alloc: Global,
    catalogue: &Catalogue,
    mode: ParseMode,
    site: &Site,
    used: &mut Vec<String>,
) -> Result<(), AllocError>
    ensures { OnOk result (spec.AddsOne catalogue.now mode (spec.site_text site.now)
        (map string_bytes used.old.items) (map string_bytes used.new.items)) }
{
    add_needed(alloc, catalogue, mode, &site.text, used)
}

// Appends what the expressions of these sites need.
fn add_sites(
    alloc: Global,
    catalogue: &Catalogue,
    mode: ParseMode,
    sites: &[Site],
    used: &mut Vec<String>,
) -> Result<(), AllocError>
    ensures { OnOk result (AddsNeeded catalogue.now mode (map spec.site_text sites.now)
        (map string_bytes used.old.items) (map string_bytes used.new.items)) }
{
    for site in sites {
        add_site(alloc, catalogue, mode, site, used)?;
    }
    Ok(())
}

// Appends what the expressions behind these tags need.
fn add_tags(
    alloc: Global,
    check: &Check<'_>,
    bytes: &[u8],
    tags: &[Tag],
    used: &mut Vec<String>,
) -> Result<(), AllocError>
    ensures { OnOk result (AddsNeeded check.now.catalogue.now check.now.mode
        (map (spec.tag_text bytes.now) tags.now)
        (map string_bytes used.old.items) (map string_bytes used.new.items)) }
{
    for tag in tags {
        let expression = slice_in(bytes, tag.start, tag.end);
        add_needed(alloc, check.catalogue, check.mode, expression, used)?;
    }
    Ok(())
}

/// Notes which license texts the expressions at these sites of a manifest need, where there is a folder of such texts. Of a
/// file that is refused as a whole nothing is noted.
///
/// # Errors
///
/// Memory was refused.
pub(crate) fn note_declared(
    alloc: Global,
    check: &Check<'_>,
    folder: Option<&str>,
    form: Form,
    sites: &Option<Vec<Site>>,
    used: &mut Vec<String>,
) -> Result<(), AllocError>
    ensures { OnOk result (Grows (map string_bytes used.old.items)
        (map string_bytes used.new.items)
        (IsUseOfManifest check.now (option_copied folder.entry) form (sites_in sites.now))) }
{
    match folder {
        Some(_) => note_sites(alloc, check, form, sites, used),
        None => Ok(()),
    }
}

fn note_sites(
    alloc: Global,
    check: &Check<'_>,
    form: Form,
    sites: &Option<Vec<Site>>,
    used: &mut Vec<String>,
) -> Result<(), AllocError>
    ensures { OnOk result (Grows (map string_bytes used.old.items)
        (map string_bytes used.new.items)
        (NeedsDeclared check.now.catalogue.now check.now.mode form (sites_in sites.now))) }
{
    match sites {
        Some(sites) => add_declared(alloc, check, form, sites, used),
        None => Ok(()),
    }
}

// Appends what the expressions need that a manifest declares at these sites.
fn add_declared(
    alloc: Global,
    check: &Check<'_>,
    form: Form,
    sites: &[Site],
    used: &mut Vec<String>,
) -> Result<(), AllocError>
    ensures { OnOk result (AddsNeeded check.now.catalogue.now (mode_in form check.now.mode)
        (map spec.site_text sites.now)
        (map string_bytes used.old.items) (map string_bytes used.new.items)) }
{
    let mode = mode_in(form, check.mode);
    add_sites(alloc, check.catalogue, mode, sites, used)
}

/// Notes which license texts the expressions behind the tags of a file need, where there is a folder of such texts and it is
/// none of them.
///
/// # Errors
///
/// Memory was refused.
pub(crate) fn note_tagged(
    alloc: Global,
    check: &Check<'_>,
    folder: Option<&str>,
    source: Source<'_>,
    used: &mut Vec<String>,
) -> Result<(), AllocError>
    ensures { OnOk result (Grows (map string_bytes used.old.items)
        (map string_bytes used.new.items)
        (IsUseOfTags check.now (option_copied folder.entry) (source_of source.entry))) }
{
    if folder.is_none() || is_text(folder, source.path) {
        return Ok(());
    }
    note_tags(alloc, check, source, used)
}

fn note_tags(
    alloc: Global,
    check: &Check<'_>,
    source: Source<'_>,
    used: &mut Vec<String>,
) -> Result<(), AllocError>
    ensures { OnOk result (AddsNeeded check.now.catalogue.now check.now.mode
        (spec.tag_texts (source_of source.entry))
        (map string_bytes used.old.items) (map string_bytes used.new.items)) }
{
    if is_binary(source.bytes) {
        return Ok(());
    }
    let found = tags(alloc, source.bytes, comment_of(source.path))?;
    add_tags(alloc, check, source.bytes, &found, used)
}

/// Notes a file without an expression as one without a license, but for files that need none, and those beside which stands
/// another one that tells their license.
///
/// # Errors
///
/// Memory was refused.
pub(crate) fn note_bare<S: Shelf>(
    alloc: Global,
    shelf: &S,
    folder: Option<&str>,
    path: &str,
    bytes: &[u8],
    untagged: &mut Vec<String>,
) -> Result<(), AllocError>
    ensures { OnOk result (NotesBare (S.told shelf.now) (option_copied folder.entry) path.now
        bytes.now (map string_bytes untagged.old.items) (map string_bytes untagged.new.items)) }
{
    if is_bare(alloc, shelf, folder, path, bytes)? {
        untagged.push(String::from_str(alloc, path)?)?;
    }
    Ok(())
}

fn is_bare<S: Shelf>(
    alloc: Global,
    shelf: &S,
    folder: Option<&str>,
    path: &str,
    bytes: &[u8],
) -> Result<bool, AllocError>
    ensures { IfOk result (IsBare (S.told shelf.now) (option_copied folder.entry) path.now
        bytes.now) }
{
    if needs_none(folder, path, bytes) {
        return Ok(false);
    }
    let beside = format!(in alloc; "{path}.license")?;
    Ok(is_nothing_at(shelf, beside.as_str()))
}

fn is_nothing_at<S: Shelf>(shelf: &S, path: &str) -> bool
    ensures { IsNothingAt (S.told shelf.now) path.now result }
{
    match shelf.kind(path) {
        Ok(_) => false,
        Err(_) => true,
    }
}
