// What `cargo metadata` writes.

ghost use Rattle.std.specs.Prelude.{◌≡◌, ◌++◌, Ok, Err, IfOk, IfErr, map, codes, bytes_eq, option_map, string_bytes};
ghost use Rattle.std.specs.List.{list_any};
ghost use Rattle.serde_json.specs.View.{view};
ghost use Rattle.package_items.specs.Rows.{Says, item_row, license_of, row_of};
ghost use Rattle.package_sources.specs.Cargo as spec;

use crate::texts::slashes_as_or;
use package_items::{
    Item, License, Package, SourceError, check_object, copy_of, folder_in, in_list, license_in,
    said, text_if_any, text_of,
};
use serde_json::Value;
use std::alloc::Global;

fn cargo_license(alloc: Global, item: &Item<'_>) -> Result<License, SourceError>
    ensures ok { IfOk result (λ l.
        spec.cargo_license (item_row item.now) ≡ Ok (license_of l)) }
    ensures err { IfErr result (Says (λ f. spec.cargo_license (item_row item.now) ≡ Err f)) }
{
    match text_if_any(alloc, item, "/license", item.value.get("license"))? {
        Some(text) => Ok(license_in(alloc, slashes_as_or(alloc, text)?.as_str())?),
        None => Ok(License::Unstated),
    }
}

// Whether the text stands among the items.
fn is_among(text: &str, items: &[Item<'_>]) -> bool
    ensures { result ≡ list_any (spec.is_item text.now) (map item_row items.now) }
{
    for item in items {
        if is_item(text, item.value) {
            return true;
        }
    }
    false
}

fn is_item(text: &str, value: &Value) -> bool
    ensures { result ≡ spec.is_text text.now (view value.now) }
{
    match value {
        Value::String(other) => other.as_str() == text,
        _ => false,
    }
}

// Whether the package is a member of the workspace.
fn is_own(members: &[Item<'_>], item: &Item<'_>) -> bool
    ensures { result ≡ spec.is_own (map item_row members.now) (item_row item.now) }
{
    match item.value.get("id") {
        Some(Value::String(id)) => is_among(id.as_str(), members),
        _ => false,
    }
}

// The folder of the manifest.
fn folder(alloc: Global, item: &Item<'_>) -> Result<Option<String>, SourceError>
    ensures ok { IfOk result (λ f.
        spec.folder (item_row item.now) ≡ Ok (option_map string_bytes f)) }
    ensures err { IfErr result (Says (λ f. spec.folder (item_row item.now) ≡ Err f)) }
{
    let found = item.value.get("manifest_path");
    match text_if_any(alloc, item, "/manifest_path", found)? {
        Some(path) => Ok(copy_of(alloc, Some(folder_in(path)))?),
        None => Ok(None),
    }
}

// The package that an item is; the members of the workspace are one's own.
fn cargo(alloc: Global, members: &[Item<'_>], item: &Item<'_>) -> Result<Package, SourceError>
    ensures ok { IfOk result (λ p.
        spec.cargo (map item_row members.now) (item_row item.now) ≡ Ok (row_of p)) }
    ensures err { IfErr result (Says (λ f.
        spec.cargo (map item_row members.now) (item_row item.now) ≡ Err f)) }
{
    check_object(alloc, item)?;
    let name = text_of(alloc, item, "/name", item.value.get("name"))?;
    let version = text_if_any(alloc, item, "/version", item.value.get("version"))?;
    let license = cargo_license(alloc, item)?;
    let file = text_if_any(alloc, item, "/license_file", item.value.get("license_file"))?;
    let folder = folder(alloc, item)?;
    let mut package = said(alloc, item, name, version, license)?;
    package.folder = folder;
    package.license_files = in_list(alloc, file)?;
    package.is_own = is_own(members, item);
    Ok(package)
}

/// The packages that items are: each is one, in their order.
pub(crate) fn cargo_packages(
    alloc: Global,
    members: &[Item<'_>],
    items: &[Item<'_>],
) -> Result<Vec<Package>, SourceError>
    ensures ok { IfOk result (λ ps. spec.cargo_packages (map item_row members.now)
        (map item_row items.now) ≡ Ok (map row_of ps.items)) }
    ensures err { IfErr result (Says (λ f. spec.cargo_packages (map item_row members.now)
        (map item_row items.now) ≡ Err f)) }
{
    let mut packages = Vec::new(alloc);
    for item in items {
        packages.push(cargo(alloc, members, item)?)?;
    }
    Ok(packages)
}
