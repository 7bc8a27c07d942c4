// What `pnpm licenses list --json` writes.

ghost use Rattle.std.specs.Prelude.{◌≡◌, ◌++◌, Ok, Err, IfOk, IfErr, map, codes, Some};
ghost use Rattle.std.specs.Option.{option_copied};
ghost use Rattle.serde_json.specs.View.{view};
ghost use Rattle.package_items.specs.Items.{each};
ghost use Rattle.package_items.specs.Rows.{Says, item_row, license_of, row_of};
ghost use Rattle.package_readers.specs.Pnpm as spec;

use package_items::{
    Item, License, Package, SourceError, check_object, copy_of, license_in, list_in,
    list_in_if_any, member_items, said, text_if_any, text_of, texts_of,
};
use serde_json::Value;
use std::alloc::{AllocError, Global};

// What the name of a group says: `Unknown` says nothing.
fn license(alloc: Global, text: &str) -> Result<License, AllocError>
    ensures { IfOk result (λ l. license_of l ≡ spec.license text.now) }
{
    if text == "Unknown" {
        return Ok(License::Unstated);
    }
    license_in(alloc, text)
}

fn each_known<'v>(alloc: Global, texts: &[&'v str]) -> Result<Vec<Option<&'v str>>, AllocError>
    ensures { IfOk result (λ vs.
        map option_copied vs.items ≡ map Some (map (λ t. t.now) texts.now)) }
{
    let mut versions = Vec::new(alloc);
    for text in texts {
        versions.push(Some(*text))?;
    }
    Ok(versions)
}

// Each of the texts as a version; where there are none, the version that older kinds of pnpm write, or that there is none.
#[tactic(auto, using(crate::proofs::Counts::same_count))]
fn each_or<'v>(
    alloc: Global,
    other: Option<&'v str>,
    texts: &[&'v str],
) -> Result<Vec<Option<&'v str>>, AllocError>
    ensures { IfOk result (λ vs. map option_copied vs.items
        ≡ spec.each_or (option_copied other.entry) (map (λ t. t.now) texts.now)) }
{
    if texts.is_empty() {
        let mut versions = Vec::new(alloc);
        versions.push(other)?;
        return Ok(versions);
    }
    each_known(alloc, texts)
}

fn versions<'v>(alloc: Global, item: &Item<'v>) -> Result<Vec<Option<&'v str>>, SourceError>
    ensures ok { IfOk result (λ vs.
        spec.versions (item_row item.now) ≡ Ok (map option_copied vs.items)) }
    ensures err { IfErr result (Says (λ f. spec.versions (item_row item.now) ≡ Err f)) }
{
    let entries = list_in_if_any(alloc, item, "/versions", item.value.get("versions"))?;
    let texts = texts_of(alloc, entries.as_slice())?;
    let other = text_if_any(alloc, item, "/version", item.value.get("version"))?;
    Ok(each_or(alloc, other, texts.as_slice())?)
}

fn texts_if_any<'v>(alloc: Global, items: &[Item<'v>]) -> Result<Vec<Option<&'v str>>, SourceError>
    ensures ok { IfOk result (λ ts.
        each spec.path_of (map item_row items.now) ≡ Ok (map option_copied ts.items)) }
    ensures err { IfErr result (Says (λ f. each spec.path_of (map item_row items.now) ≡ Err f)) }
{
    let mut texts = Vec::new(alloc);
    for item in items {
        texts.push(text_if_any(alloc, item, "", Some(item.value))?)?;
    }
    Ok(texts)
}

// The folder of each version; of one alone older kinds of pnpm write it elsewhere.
fn folders<'v>(alloc: Global, item: &Item<'v>) -> Result<Vec<Option<&'v str>>, SourceError>
    ensures ok { IfOk result (λ fs.
        spec.folders (item_row item.now) ≡ Ok (map option_copied fs.items)) }
    ensures err { IfErr result (Says (λ f. spec.folders (item_row item.now) ≡ Err f)) }
{
    let entries = list_in_if_any(alloc, item, "/paths", item.value.get("paths"))?;
    let mut paths = texts_if_any(alloc, entries.as_slice())?;
    let other = text_if_any(alloc, item, "/path", item.value.get("path"))?;
    if paths.is_empty() {
        paths.push(other)?;
    }
    Ok(paths)
}

// The folder at that place of the list, if it goes so far.
#[tactic(auto, using(crate::proofs::Counts::same_at))]
fn folder_at<'v>(folders: &[Option<&'v str>], index: usize) -> Option<&'v str>
    ensures { option_copied result ≡ spec.folder_at (map option_copied folders.now) index }
{
    match folders.get(index) {
        Some(folder) => *folder,
        None => None,
    }
}

// The package of one version, in that folder.
fn version_in(
    alloc: Global,
    text: &str,
    item: &Item<'_>,
    name: &str,
    folder: Option<&str>,
    version: Option<&str>,
) -> Result<Package, AllocError>
    ensures { IfOk result (λ p. row_of p ≡ spec.version_in text.now (item_row item.now) name.now
        (option_copied folder.entry) (option_copied version.entry)) }
{
    let mut package = said(alloc, item, name, version, license(alloc, text)?)?;
    package.folder = copy_of(alloc, folder)?;
    Ok(package)
}

// A package of that name and license for each version: the first in the first folder, and so on.
fn each_version(
    alloc: Global,
    text: &str,
    item: &Item<'_>,
    name: &str,
    folders: &[Option<&str>],
    versions: &[Option<&str>],
) -> Result<Vec<Package>, AllocError>
    ensures { IfOk result (λ ps. map row_of ps.items ≡ spec.each_version text.now
        (item_row item.now) name.now (map option_copied folders.now)
        (map option_copied versions.now)) }
{
    let mut packages = Vec::new(alloc);
    for (index, version) in versions.iter().enumerate() {
        let folder = folder_at(folders, index);
        packages.push(version_in(alloc, text, item, name, folder, *version)?)?;
    }
    Ok(packages)
}

// The packages of an item, under the license that its group is named by.
fn packages_of(alloc: Global, text: &str, item: &Item<'_>) -> Result<Vec<Package>, SourceError>
    ensures ok { IfOk result (λ ps.
        spec.packages_of text.now (item_row item.now) ≡ Ok (map row_of ps.items)) }
    ensures err { IfErr result (Says (λ f.
        spec.packages_of text.now (item_row item.now) ≡ Err f)) }
{
    check_object(alloc, item)?;
    let name = text_of(alloc, item, "/name", item.value.get("name"))?;
    let versions = versions(alloc, item)?;
    let folders = folders(alloc, item)?;
    let (versions, folders) = (versions.as_slice(), folders.as_slice());
    Ok(each_version(alloc, text, item, name, folders, versions)?)
}

fn group_packages(alloc: Global, group: &Item<'_>) -> Result<Vec<Package>, SourceError>
    ensures ok { IfOk result (λ ps.
        spec.group_packages (item_row group.now) ≡ Ok (map row_of ps.items)) }
    ensures err { IfErr result (Says (λ f. spec.group_packages (item_row group.now) ≡ Err f)) }
{
    let items = list_in(alloc, group, "", Some(group.value))?;
    let mut packages = Vec::new(alloc);
    for item in &items {
        let mut more = packages_of(alloc, group.key, item)?;
        packages.append(&mut more)?;
    }
    Ok(packages)
}

/// The packages of what `pnpm licenses list --json` writes: one for each version of each item of each group, in the folder that
/// stands as far down the list of paths. The groups stand in the order of the bytes of their names, which are the licenses.
///
/// # Errors
///
/// The first fault of the document, or that memory was refused.
pub fn pnpm_packages(alloc: Global, document: &Value) -> Result<Vec<Package>, SourceError>
    ensures ok { IfOk result (λ ps.
        spec.pnpm_packages (view document.now) ≡ Ok (map row_of ps.items)) }
    ensures err { IfErr result (Says (λ f. spec.pnpm_packages (view document.now) ≡ Err f)) }
{
    let groups = member_items(alloc, "", Some(document))?;
    let mut packages = Vec::new(alloc);
    for group in &groups {
        let mut more = group_packages(alloc, group)?;
        packages.append(&mut more)?;
    }
    Ok(packages)
}
