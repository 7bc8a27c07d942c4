// The packages of a whole file.

ghost use Rattle.std.specs.Prelude.{◌≡◌, Ok, Err, IfOk, IfErr, map, codes};
ghost use Rattle.serde_json.specs.View.{view};
ghost use Rattle.package_items.specs.Rows.{Says, item_row, row_of};
ghost use Rattle.package_sources.specs.Sources as spec;

use crate::form::{Form, Pointers};
use crate::formats::cargo::cargo_packages;
use crate::formats::cyclonedx::cyclonedx_items;
use crate::formats::described::root;
use crate::formats::npm::{lies_in, npm_items};
use crate::formats::spdx::{spdx_items, spdx_packages};
use crate::pointer::checked;
use crate::reading::{Reading, packages_of};
use package_items::{
    Item, Package, SourceError, list_items, list_items_if_any, object_at, root_item, value_of,
};
use package_readers::{
    Separator, checked_packages, graph_packages, metadata_packages, packages_in_lines,
    packages_in_table, pnpm_packages, verdict_packages,
};
use serde_json::Value;
use std::alloc::Global;

/// The bytes behind the mark that some editors put first.
pub(crate) fn without_mark(bytes: &[u8]) -> &[u8]
    ensures { result.now ≡ spec.without_mark bytes.now }
{
    if bytes.starts_with(b"\xef\xbb\xbf") {
        return &bytes[3..];
    }
    bytes
}

/// The one value of the file.
#[tactic(auto, unfolding(crate::specs::Sources::document))]
pub(crate) fn document(alloc: Global, bytes: &[u8]) -> Result<Value, SourceError>
    ensures ok { IfOk result (λ v. spec.document bytes.now ≡ Ok (view v)) }
    ensures err { IfErr result (Says (λ f. spec.document bytes.now ≡ Err f)) }
{
    value_of(alloc, bytes)
}

// The one value of the file, which is an object.
fn object_document(alloc: Global, bytes: &[u8]) -> Result<Value, SourceError>
    ensures ok { IfOk result (λ v. spec.object_document bytes.now ≡ Ok (view v)) }
    ensures err { IfErr result (Says (λ f. spec.object_document bytes.now ≡ Err f)) }
{
    let value = document(alloc, bytes)?;
    object_at(alloc, "", Some(&value))?;
    Ok(value)
}

fn cargo(alloc: Global, document: &Value) -> Result<Vec<Package>, SourceError>
    ensures ok { IfOk result (λ ps. spec.cargo (view document.now) ≡ Ok (map row_of ps.items)) }
    ensures err { IfErr result (Says (λ f. spec.cargo (view document.now) ≡ Err f)) }
{
    let items = list_items(alloc, "/packages", document.get("packages"))?;
    let members = list_items_if_any(
        alloc,
        "/workspace_members",
        document.get("workspace_members"),
    )?;
    cargo_packages(alloc, members.as_slice(), items.as_slice())
}

fn npm(alloc: Global, folder: &str, document: &Value) -> Result<Vec<Package>, SourceError>
    ensures ok { IfOk result (λ ps.
        spec.npm folder.now (view document.now) ≡ Ok (map row_of ps.items)) }
    ensures err { IfErr result (Says (λ f. spec.npm folder.now (view document.now) ≡ Err f)) }
{
    let items = npm_items(alloc, folder, document)?;
    packages_of(alloc, &Reading::Npm(lies_in(document)), items.as_slice())
}

// The items of what Composer writes: those of a lock file, or a composer.json, which is one.
fn composer_items<'v>(
    alloc: Global,
    folder: &'v str,
    document: &'v Value,
) -> Result<Vec<Item<'v>>, SourceError>
    ensures ok { IfOk result (λ v.
        spec.composer_items folder.now (view document.now) ≡ Ok (map item_row v.items)) }
    ensures err { IfErr result (Says (λ f.
        spec.composer_items folder.now (view document.now) ≡ Err f)) }
{
    let found = document.get("packages");
    if found.is_none() {
        let mut items = Vec::new(alloc);
        items.push(root_item(alloc, folder, false, document))?;
        return Ok(items);
    }
    let mut items = list_items(alloc, "/packages", found)?;
    let mut more = list_items_if_any(alloc, "/packages-dev", document.get("packages-dev"))?;
    items.append(&mut more)?;
    Ok(items)
}

fn composer(alloc: Global, folder: &str, document: &Value) -> Result<Vec<Package>, SourceError>
    ensures ok { IfOk result (λ ps.
        spec.composer folder.now (view document.now) ≡ Ok (map row_of ps.items)) }
    ensures err { IfErr result (Says (λ f.
        spec.composer folder.now (view document.now) ≡ Err f)) }
{
    let items = composer_items(alloc, folder, document)?;
    packages_of(alloc, &Reading::Composer, items.as_slice())
}

fn pip(alloc: Global, document: &Value) -> Result<Vec<Package>, SourceError>
    ensures ok { IfOk result (λ ps. spec.pip (view document.now) ≡ Ok (map row_of ps.items)) }
    ensures err { IfErr result (Says (λ f. spec.pip (view document.now) ≡ Err f)) }
{
    let items = list_items(alloc, "", Some(document))?;
    packages_of(alloc, &Reading::Pip, items.as_slice())
}

fn cyclonedx(alloc: Global, document: &Value) -> Result<Vec<Package>, SourceError>
    ensures ok { IfOk result (λ ps.
        spec.cyclonedx (view document.now) ≡ Ok (map row_of ps.items)) }
    ensures err { IfErr result (Says (λ f. spec.cyclonedx (view document.now) ≡ Err f)) }
{
    let items = cyclonedx_items(alloc, document)?;
    packages_of(alloc, &Reading::CycloneDx, items.as_slice())
}

fn spdx(alloc: Global, document: &Value) -> Result<Vec<Package>, SourceError>
    ensures ok { IfOk result (λ ps. spec.spdx (view document.now) ≡ Ok (map row_of ps.items)) }
    ensures err { IfErr result (Says (λ f. spec.spdx (view document.now) ≡ Err f)) }
{
    let items = spdx_items(alloc, document)?;
    spdx_packages(alloc, root(alloc, document)?, items.as_slice())
}

/// The packages that a file of the form lists: each of its items is one, in their order. A package without a name has
/// that of its folder; of the package that the whole file is, or is about, that is `folder`. Linear, but for one's own
/// packages, which are looked for among the members of the workspace.
///
/// # Errors
///
/// The first fault of the file, or that memory was refused.
pub fn packages(
    alloc: Global,
    form: Form,
    folder: &str,
    bytes: &[u8],
) -> Result<Vec<Package>, SourceError>
    ensures ok { IfOk result (λ ps.
        spec.packages form folder.now bytes.now ≡ Ok (map row_of ps.items)) }
    ensures err { IfErr result (Says (λ f. spec.packages form folder.now bytes.now ≡ Err f)) }
{
    let bytes = without_mark(bytes);
    match form {
        Form::Lines => packages_in_lines(alloc, bytes),
        Form::Tsv { header } => packages_in_table(alloc, Separator::Tab, header, bytes),
        Form::Csv { header } => packages_in_table(alloc, Separator::Comma, header, bytes),
        Form::Cargo => cargo(alloc, &object_document(alloc, bytes)?),
        Form::Npm => npm(alloc, folder, &object_document(alloc, bytes)?),
        Form::Composer => composer(alloc, folder, &object_document(alloc, bytes)?),
        Form::Pip => pip(alloc, &document(alloc, bytes)?),
        Form::CycloneDx => cyclonedx(alloc, &object_document(alloc, bytes)?),
        Form::Spdx => spdx(alloc, &object_document(alloc, bytes)?),
        Form::LicenseChecker => checked_packages(alloc, &document(alloc, bytes)?),
        Form::Pnpm => pnpm_packages(alloc, &document(alloc, bytes)?),
        Form::Metadata => metadata_packages(alloc, bytes),
        Form::SpdxThree => graph_packages(alloc, &object_document(alloc, bytes)?),
        Form::Verdicts => verdict_packages(alloc, bytes),
    }
}

fn checked_if_any(alloc: Global, pointer: Option<&str>) -> Result<(), SourceError>
    ensures ok { IfOk result (λ _.
        spec.checked_if_any (spec.shown pointer.entry) ≡ Ok (spec.shown pointer.entry)) }
    ensures err { IfErr result (Says (λ f.
        spec.checked_if_any (spec.shown pointer.entry) ≡ Err f)) }
{
    match pointer {
        Some(pointer) => checked(alloc, pointer),
        None => Ok(()),
    }
}

/// The packages that a JSON document lists at pointers: each item of the list is one, in their order. A license that is
/// missing or null is unstated. Linear in the document, and in each item's part of the pointers.
///
/// # Errors
///
/// The first pointer that is none, else the first fault of the document, or that memory was refused.
pub fn packages_at(
    alloc: Global,
    pointers: &Pointers<'_>,
    bytes: &[u8],
) -> Result<Vec<Package>, SourceError>
    ensures ok { IfOk result (λ ps.
        spec.packages_at pointers.now bytes.now ≡ Ok (map row_of ps.items)) }
    ensures err { IfErr result (Says (λ f. spec.packages_at pointers.now bytes.now ≡ Err f)) }
{
    checked(alloc, pointers.each)?;
    checked(alloc, pointers.name)?;
    checked_if_any(alloc, pointers.version)?;
    checked(alloc, pointers.license)?;
    let value = document(alloc, without_mark(bytes))?;
    let items = list_items(alloc, pointers.each, value.pointer(pointers.each))?;
    packages_of(alloc, &Reading::Pointed(*pointers), items.as_slice())
}
