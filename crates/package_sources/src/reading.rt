// How an item is read as a package.

ghost use Rattle.std.specs.Prelude.{◌≡◌, ◌++◌, Ok, Err, IfOk, IfErr, map, codes, option_map};
ghost use Rattle.std.specs.Option.{option_copied};
ghost use Rattle.serde_json.specs.View.{view};
ghost use Rattle.package_items.specs.Items.{each};
ghost use Rattle.package_items.specs.Rows.{Says, item_row, license_of, row_of};
ghost use Rattle.package_items.specs.Values.{seen};
ghost use Rattle.package_sources.specs.Readings as spec;

use crate::form::Pointers;
use crate::formats::cyclonedx::cyclonedx;
use crate::formats::npm::{Lies, folder, is_list, name_of, npm_license};
use crate::several::{Entry, choice_of};
use package_items::{
    Item, License, Package, SourceError, check_object, copy_of, file_in, folder_in, in_list,
    license_at, list_in, said, text_if_any, text_of,
};
use serde_json::Value;
use std::alloc::{AllocError, Global};

/// How an item is read.
#[derive(Clone, Copy)]
pub(crate) enum Reading<'p> {
    /// By pointers.
    Pointed(Pointers<'p>),
    /// What npm writes, where its packages lie so.
    Npm(Lies),
    Composer,
    Pip,
    CycloneDx,
}

fn pointed_version<'v>(
    alloc: Global,
    pointer: Option<&str>,
    item: &Item<'v>,
) -> Result<Option<&'v str>, SourceError>
    ensures ok { IfOk result (λ t.
        spec.pointed_version pointer.entry (item_row item.now) ≡ Ok (option_copied t)) }
    ensures err { IfErr result (Says (λ f.
        spec.pointed_version pointer.entry (item_row item.now) ≡ Err f)) }
{
    match pointer {
        Some(pointer) => text_if_any(alloc, item, pointer, item.value.pointer(pointer)),
        None => Ok(None),
    }
}

fn pointed(alloc: Global, pointers: &Pointers<'_>, item: &Item<'_>) -> Result<Package, SourceError>
    ensures ok { IfOk result (λ p.
        spec.pointed pointers.now (item_row item.now) ≡ Ok (row_of p)) }
    ensures err { IfErr result (Says (λ f.
        spec.pointed pointers.now (item_row item.now) ≡ Err f)) }
{
    let name = text_of(
        alloc,
        item,
        pointers.name,
        item.value.pointer(pointers.name),
    )?;
    let version = pointed_version(alloc, pointers.version, item)?;
    let license = license_at(
        alloc,
        item,
        pointers.license,
        item.value.pointer(pointers.license),
    )?;
    Ok(said(alloc, item, name, version, license)?)
}

fn npm(alloc: Global, lies: Lies, item: &Item<'_>) -> Result<Package, SourceError>
    ensures ok { IfOk result (λ p. spec.npm lies (item_row item.now) ≡ Ok (row_of p)) }
    ensures err { IfErr result (Says (λ f. spec.npm lies (item_row item.now) ≡ Err f)) }
{
    check_object(alloc, item)?;
    let name = name_of(alloc, item)?;
    let version = text_if_any(alloc, item, "/version", item.value.get("version"))?;
    let license = npm_license(alloc, item)?;
    let folder = folder(alloc, lies, item)?;
    let mut package = said(alloc, item, name.as_str(), version, license)?;
    package.folder = copy_of(alloc, folder)?;
    Ok(package)
}

// A text, or a list of texts, of which each is a choice.
fn composer_license(alloc: Global, item: &Item<'_>) -> Result<License, SourceError>
    ensures ok { IfOk result (λ l.
        spec.composer_license (item_row item.now) ≡ Ok (license_of l)) }
    ensures err { IfErr result (Says (λ f.
        spec.composer_license (item_row item.now) ≡ Err f)) }
{
    let found = item.value.get("license");
    if is_list(found) {
        let entries = list_in(alloc, item, "/license", found)?;
        return choice_of(alloc, Entry::Text, entries.as_slice());
    }
    license_at(alloc, item, "/license", found)
}

fn composer(alloc: Global, item: &Item<'_>) -> Result<Package, SourceError>
    ensures ok { IfOk result (λ p. spec.composer (item_row item.now) ≡ Ok (row_of p)) }
    ensures err { IfErr result (Says (λ f. spec.composer (item_row item.now) ≡ Err f)) }
{
    check_object(alloc, item)?;
    let name = name_of(alloc, item)?;
    let version = text_if_any(alloc, item, "/version", item.value.get("version"))?;
    let license = composer_license(alloc, item)?;
    Ok(said(alloc, item, name.as_str(), version, license)?)
}

// Whether a list of pip's says that it doesn't know.
fn is_unknown(found: Option<&Value>) -> bool
    ensures { result ≡ spec.is_unknown (seen found.entry) }
{
    match found {
        Some(Value::String(text)) => text.as_str() == "UNKNOWN",
        _ => false,
    }
}

fn pip_license(alloc: Global, item: &Item<'_>) -> Result<License, SourceError>
    ensures ok { IfOk result (λ l.
        spec.pip_license (item_row item.now) ≡ Ok (license_of l)) }
    ensures err { IfErr result (Says (λ f. spec.pip_license (item_row item.now) ≡ Err f)) }
{
    let found = item.value.get("License");
    if is_unknown(found) {
        return Ok(License::Unstated);
    }
    license_at(alloc, item, "/License", found)
}

// The path of the file with the text of the license.
fn pip_file<'v>(alloc: Global, item: &Item<'v>) -> Result<Option<&'v str>, SourceError>
    ensures ok { IfOk result (λ t.
        spec.pip_file (item_row item.now) ≡ Ok (option_copied t)) }
    ensures err { IfErr result (Says (λ f. spec.pip_file (item_row item.now) ≡ Err f)) }
{
    let found = item.value.get("LicenseFile");
    if is_unknown(found) {
        return Ok(None);
    }
    text_if_any(alloc, item, "/LicenseFile", found)
}

// The package, in the folder of the file at that path.
fn with_text(alloc: Global, known: Package, path: Option<&str>) -> Result<Package, AllocError>
    ensures { IfOk result (λ p. row_of p
        ≡ spec.with_text (option_copied path.entry) (row_of known)) }
{
    let Some(path) = path else {
        return Ok(known);
    };
    let mut placed = known;
    placed.folder = copy_of(alloc, Some(folder_in(path)))?;
    placed.license_files = in_list(alloc, Some(file_in(path)))?;
    Ok(placed)
}

fn pip(alloc: Global, item: &Item<'_>) -> Result<Package, SourceError>
    ensures ok { IfOk result (λ p. spec.pip (item_row item.now) ≡ Ok (row_of p)) }
    ensures err { IfErr result (Says (λ f. spec.pip (item_row item.now) ≡ Err f)) }
{
    check_object(alloc, item)?;
    let name = text_of(alloc, item, "/Name", item.value.get("Name"))?;
    let version = text_if_any(alloc, item, "/Version", item.value.get("Version"))?;
    let license = pip_license(alloc, item)?;
    let path = pip_file(alloc, item)?;
    let package = said(alloc, item, name, version, license)?;
    Ok(with_text(alloc, package, path)?)
}

// The package that an item is.
fn package_of(alloc: Global, reading: &Reading<'_>, item: &Item<'_>) -> Result<Package, SourceError>
    ensures ok { IfOk result (λ p.
        spec.package_of reading.now (item_row item.now) ≡ Ok (row_of p)) }
    ensures err { IfErr result (Says (λ f.
        spec.package_of reading.now (item_row item.now) ≡ Err f)) }
{
    match reading {
        Reading::Pointed(pointers) => pointed(alloc, pointers, item),
        Reading::Npm(lies) => npm(alloc, *lies, item),
        Reading::Composer => composer(alloc, item),
        Reading::Pip => pip(alloc, item),
        Reading::CycloneDx => cyclonedx(alloc, item),
    }
}

/// The packages that items are: each is one, in their order.
pub(crate) fn packages_of(
    alloc: Global,
    reading: &Reading<'_>,
    items: &[Item<'_>],
) -> Result<Vec<Package>, SourceError>
    ensures ok { IfOk result (λ ps. spec.packages_of reading.now (map item_row items.now)
        ≡ Ok (map row_of ps.items)) }
    ensures err { IfErr result (Says (λ f.
        spec.packages_of reading.now (map item_row items.now) ≡ Err f)) }
{
    let mut packages = Vec::new(alloc);
    for item in items {
        packages.push(package_of(alloc, reading, item)?)?;
    }
    Ok(packages)
}
