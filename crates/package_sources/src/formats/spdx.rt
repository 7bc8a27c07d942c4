// SPDX 2.

ghost use Rattle.std.specs.Prelude.{◌≡◌, ◌++◌, Ok, Err, IfOk, IfErr, map, codes};
ghost use Rattle.serde_json.specs.View.{view};
ghost use Rattle.std.specs.Option.{option_copied};
ghost use Rattle.package_items.specs.Rows.{Says, item_row, license_of, row_of};
ghost use Rattle.package_items.specs.Values.{seen};
ghost use Rattle.package_sources.specs.Spdx as spec;

use package_items::{
    Item, License, Package, SourceError, check_object, license_at, list_items, object_at, said,
    text_if_any, text_of,
};
use serde_json::Value;
use std::alloc::Global;

// The concluded license if it is stated, else the declared one.
fn license(alloc: Global, item: &Item<'_>) -> Result<License, SourceError>
    ensures ok { IfOk result (λ l. spec.license (item_row item.now) ≡ Ok (license_of l)) }
    ensures err { IfErr result (Says (λ f. spec.license (item_row item.now) ≡ Err f)) }
{
    let concluded = item.value.get("licenseConcluded");
    match license_at(alloc, item, "/licenseConcluded", concluded)? {
        License::Stated(text) => Ok(License::Stated(text)),
        License::Unstated => {
            let declared = item.value.get("licenseDeclared");
            license_at(alloc, item, "/licenseDeclared", declared)
        }
    }
}

// Whether a package is the one that the document is about.
fn is_id(root: Option<&str>, found: Option<&Value>) -> bool
    ensures { result ≡ spec.is_id (option_copied root.entry) (seen found.entry) }
{
    match (root, found) {
        (Some(id), Some(Value::String(text))) => text.as_str() == id,
        _ => false,
    }
}

// The package that an item is; the one that the document is about is one's own.
fn spdx(alloc: Global, root: Option<&str>, item: &Item<'_>) -> Result<Package, SourceError>
    ensures ok { IfOk result (λ p.
        spec.spdx (option_copied root.entry) (item_row item.now) ≡ Ok (row_of p)) }
    ensures err { IfErr result (Says (λ f.
        spec.spdx (option_copied root.entry) (item_row item.now) ≡ Err f)) }
{
    check_object(alloc, item)?;
    let name = text_of(alloc, item, "/name", item.value.get("name"))?;
    let version = text_if_any(alloc, item, "/versionInfo", item.value.get("versionInfo"))?;
    let license = license(alloc, item)?;
    let mut package = said(alloc, item, name, version, license)?;
    package.is_own = is_id(root, item.value.get("SPDXID"));
    Ok(package)
}

/// The packages that items are: each is one, in their order.
pub(crate) fn spdx_packages(
    alloc: Global,
    root: Option<&str>,
    items: &[Item<'_>],
) -> Result<Vec<Package>, SourceError>
    ensures ok { IfOk result (λ ps. spec.spdx_packages (option_copied root.entry)
        (map item_row items.now) ≡ Ok (map row_of ps.items)) }
    ensures err { IfErr result (Says (λ f. spec.spdx_packages (option_copied root.entry)
        (map item_row items.now) ≡ Err f)) }
{
    let mut packages = Vec::new(alloc);
    for item in items {
        packages.push(spdx(alloc, root, item)?)?;
    }
    Ok(packages)
}

/// The packages of a document, or of the bill that GitHub wraps.
pub(crate) fn spdx_items<'v>(
    alloc: Global,
    document: &'v Value,
) -> Result<Vec<Item<'v>>, SourceError>
    ensures ok { IfOk result (λ v. spec.items (view document.now) ≡ Ok (map item_row v.items)) }
    ensures err { IfErr result (Says (λ f. spec.items (view document.now) ≡ Err f)) }
{
    let found = document.get("sbom");
    if found.is_none() {
        return list_items(alloc, "/packages", document.get("packages"));
    }
    let bill = object_at(alloc, "/sbom", found)?;
    list_items(alloc, "/sbom/packages", bill.get("packages"))
}
