// The texts of a page, each below its name and the packages that it is of.

ghost use Rattle.license_notice.specs.Notices.{line_of};
ghost use Rattle.notice_forms.specs.Told.{named};
ghost use Rattle.notice_told.specs.Lacks.{seen_lack};
ghost use Rattle.notice_told.specs.Texts as spec;
ghost use Rattle.notice_told.specs.Texts.{
  IsGeneralText,
  IsGeneralTextOf,
  IsOwnText,
  IsOwnTextOf,
  general_name,
  is_lacked,
  line_held,
  lines_below,
  lines_lacking,
  page_named,
};
ghost use Rattle.notice_texts.specs.Shared.{held, shared_of};
ghost use Rattle.notice_told.specs.declared.lacks.Lack.{Lack};
ghost use Rattle.std.specs.List.{AllZip, list_any};
ghost use Rattle.std.specs.Prelude.{◌≡◌, ◌++◌, IfOk, OnOk, bytes_eq, filter, map, string_bytes};

use crate::lacks::{GeneralText, Lack};
use license_notice::{Release, each_once};
use notice_forms::LicenseText;
use notice_texts::{Holder, SharedText};
use std::alloc::{AllocError, Global};

/// A text of a page.
#[derive(Drop)]
pub(crate) struct PageText<'t> {
    pub(crate) name: String,
    /// The packages that stand below the name.
    pub(crate) packages: Vec<Release<'t>>,
    pub(crate) bytes: &'t [u8],
}

/// The texts that packages have, each below its first file's name.
pub(crate) fn own_texts<'t>(
    alloc: Global,
    shared: &[SharedText<'t>],
) -> Result<Vec<PageText<'t>>, AllocError>
    ensures { IfOk result (λ v. AllZip IsOwnTextOf shared.now v.items) }
{
    let mut texts = Vec::new(alloc);
    for one in shared {
        texts.push(own_text(alloc, one)?)?;
    }
    Ok(texts)
}

fn own_text<'t>(alloc: Global, shared: &SharedText<'t>) -> Result<PageText<'t>, AllocError>
    ensures { IfOk result (λ t. IsOwnTextOf shared.now t) }
{
    let name = own_name(alloc, &shared.holders)?;
    let holders = releases_of(alloc, &shared.holders)?;
    Ok(PageText {
        name,
        packages: each_once(holders),
        bytes: shared.bytes,
    })
}

// The name of a text that these files have: the first of them, with its package.
fn own_name(alloc: Global, holders: &[Holder<'_>]) -> Result<String, AllocError>
    ensures { IfOk result (λ name. string_bytes name ≡ spec.own_name (map held holders.now)) }
{
    match holders {
        [first, ..] => file_name(alloc, first),
        [] => Ok(String::new(alloc)),
    }
}

#[tactic(auto, unfolding(crate::specs::Texts::file_name))]
fn file_name(alloc: Global, holder: &Holder<'_>) -> Result<String, AllocError>
    ensures { IfOk result (λ name. string_bytes name ≡ spec.file_name (held holder.now)) }
{
    let (name, version, file) = (holder.name, holder.version, holder.file);
    if version.is_empty() {
        format!(in alloc; "{name}: {file}")
    } else {
        format!(in alloc; "{name} {version}: {file}")
    }
}

fn releases_of<'t>(alloc: Global, holders: &[Holder<'t>]) -> Result<Vec<Release<'t>>, AllocError>
    ensures { IfOk result (λ v. map line_of v.items ≡ map line_held (map held holders.now)) }
{
    let mut releases = Vec::new(alloc);
    for holder in holders {
        releases.push(Release {
            name: holder.name,
            version: holder.version,
        })?;
    }
    Ok(releases)
}

/// The general texts that some package lacks, in their order.
pub(crate) fn used_of<'t>(
    alloc: Global,
    lacks: &[Lack<'_>],
    general: &[GeneralText<'t>],
) -> Result<Vec<GeneralText<'t>>, AllocError>
    ensures { IfOk result (λ v. v.items
        ≡ filter (λ g. is_lacked (map seen_lack lacks.now) g.name.now) general.now) }
{
    let mut used = Vec::new(alloc);
    for text in general {
        if is_lacked(lacks, text.name) {
            used.push(*text)?;
        }
    }
    Ok(used)
}

fn is_lacked(lacks: &[Lack<'_>], name: &str) -> bool
    ensures { result ≡ is_lacked (map seen_lack lacks.now) name.now }
{
    let found = is_lacked_of(lacks, name);
    found
}

fn is_lacked_of(lacks: &[Lack<'_>], name: &str) -> bool
    ensures { result ≡ list_any (λ (l : Lack). bytes_eq l.text.now name.now) lacks.now }
{
    lacks.iter().any(|lack| lack.text == name)
}

/// General texts, below their names. Where they are marked, it is said that they are general ones, and the packages that
/// lack them stand below.
pub(crate) fn general_texts<'t>(
    alloc: Global,
    are_marked: bool,
    lacks: &[Lack<'t>],
    general: &[GeneralText<'t>],
) -> Result<Vec<PageText<'t>>, AllocError>
    ensures { IfOk result (λ v. AllZip (IsGeneralTextOf are_marked (map seen_lack lacks.now))
        general.now v.items) }
{
    let mut texts = Vec::new(alloc);
    for one in general {
        texts.push(general_text(alloc, are_marked, lacks, one)?)?;
    }
    Ok(texts)
}

fn general_text<'t>(
    alloc: Global,
    is_marked: bool,
    lacks: &[Lack<'t>],
    text: &GeneralText<'t>,
) -> Result<PageText<'t>, AllocError>
    ensures { IfOk result (λ t.
        IsGeneralTextOf is_marked (map seen_lack lacks.now) text.now t) }
{
    let name = general_name(alloc, is_marked, text.name)?;
    let those = packages_below(alloc, is_marked, lacks, text.name)?;
    Ok(PageText {
        name,
        packages: each_once(those),
        bytes: text.bytes,
    })
}

#[tactic(auto, unfolding(crate::specs::Texts::general_name))]
fn general_name(alloc: Global, is_marked: bool, name: &str) -> Result<String, AllocError>
    ensures { IfOk result (λ text. string_bytes text ≡ general_name is_marked name.now) }
{
    if is_marked {
        format!(in alloc; "{name} (general text)")
    } else {
        String::from_str(alloc, name)
    }
}

fn packages_below<'t>(
    alloc: Global,
    is_marked: bool,
    lacks: &[Lack<'t>],
    name: &str,
) -> Result<Vec<Release<'t>>, AllocError>
    ensures { IfOk result (λ v. map line_of v.items
        ≡ lines_below is_marked (map seen_lack lacks.now) name.now) }
{
    if !is_marked {
        return Ok(Vec::new(alloc));
    }
    let those = lacks_named(alloc, lacks, name)?;
    let releases = releases_in(alloc, &those)?;
    Ok(releases)
}

fn lacks_named<'t>(
    alloc: Global,
    lacks: &[Lack<'t>],
    name: &str,
) -> Result<Vec<Lack<'t>>, AllocError>
    ensures { IfOk result (λ v. map seen_lack v.items
        ≡ filter (λ l. bytes_eq l.text name.now) (map seen_lack lacks.now)) }
{
    let mut those = Vec::new(alloc);
    for lack in lacks {
        if lack.text == name {
            those.push(*lack)?;
        }
    }
    Ok(those)
}

/// The packages of some lacks.
pub(crate) fn releases_in<'t>(
    alloc: Global,
    lacks: &[Lack<'t>],
) -> Result<Vec<Release<'t>>, AllocError>
    ensures { IfOk result (λ v. map line_of v.items
        ≡ map (λ l. l.line) (map seen_lack lacks.now)) }
{
    let mut releases = Vec::new(alloc);
    for lack in lacks {
        releases.push(lack.release)?;
    }
    Ok(releases)
}

/// Appends the texts, as a page takes them.
pub(crate) fn put_views<'s>(
    views: &mut Vec<LicenseText<'s, 's>>,
    texts: &'s [PageText<'s>],
) -> Result<(), AllocError>
    ensures { OnOk result (map named views.new.items
        ≡ map named views.old.items ++ map page_named texts.now) }
{
    for text in texts {
        views.push(LicenseText {
            name: text.name.as_str(),
            packages: &text.packages,
            bytes: text.bytes,
        })?;
    }
    Ok(())
}
