// What `license-checker --json` writes.

ghost use Rattle.std.specs.Prelude.{◌≡◌, ◌++◌, Ok, Err, IfOk, IfErr, map, codes, option_map, string_bytes};
ghost use Rattle.std.specs.Option.{option_copied};
ghost use Rattle.serde_json.specs.View.{view};
ghost use Rattle.package_items.specs.Rows.{Says, item_row, license_of, row_of};
ghost use Rattle.package_items.specs.Values.{seen};
ghost use Rattle.package_readers.specs.LicenseChecker as spec;

use package_items::{
    Item, License, Package, SourceError, check_object, copy_of, file_within, in_list, license_in,
    license_of_all, list_in, member_items, said, text_if_any, texts_of,
};
use serde_json::Value;
use std::alloc::{AllocError, Global};

// The name and the version round the last at sign of a key, unless the key begins with it.
fn parts_of(key: &str) -> Option<(&str, &str)>
    ensures { option_map (λ p. (p.0.now, p.1.now)) result ≡ spec.parts_of key.now }
{
    match key.rsplit_once('@') {
        Some((name, version)) if !name.is_empty() => Some((name, version)),
        _ => None,
    }
}

fn name_of(key: &str) -> &str
    ensures { result.now ≡ spec.name_of key.now }
{
    match parts_of(key) {
        Some((name, _)) => name,
        None => key,
    }
}

/// The version behind the last at sign of a key, as `1.0.0` of `@s/a@1.0.0`. An at sign that begins the key is that of a scope.
pub fn version_of(key: &str) -> Option<&str>
    ensures { option_copied result ≡ spec.version_of key.now }
{
    match parts_of(key) {
        Some((_, version)) if !version.is_empty() => Some(version),
        _ => None,
    }
}

// Whether a text of a license was guessed from the words of a file.
fn is_guess(text: &str) -> bool
    ensures { result ≡ spec.is_guess text.now }
{
    text.as_bytes().ends_with(b"*")
}

// What a text says: a guess says nothing, nor does `UNKNOWN`.
fn license_said(alloc: Global, text: &str) -> Result<License, AllocError>
    ensures { IfOk result (λ l. license_of l ≡ spec.license_said text.now) }
{
    if is_guess(text) || text == "UNKNOWN" {
        return Ok(License::Unstated);
    }
    license_in(alloc, text)
}

pub(crate) fn is_list(found: Option<&Value>) -> bool
    ensures { result ≡ spec.is_list (seen found.entry) }
{
    matches!(found, Some(Value::Array(_)))
}

// A text, or a list of texts, of which each is a choice.
fn license(alloc: Global, item: &Item<'_>) -> Result<License, SourceError>
    ensures ok { IfOk result (λ l. spec.license (item_row item.now) ≡ Ok (license_of l)) }
    ensures err { IfErr result (Says (λ f. spec.license (item_row item.now) ≡ Err f)) }
{
    let found = item.value.get("licenses");
    if is_list(found) {
        let entries = list_in(alloc, item, "/licenses", found)?;
        let texts = texts_of(alloc, entries.as_slice())?;
        return Ok(license_of_all(alloc, " OR ", texts.as_slice())?);
    }
    match text_if_any(alloc, item, "/licenses", found)? {
        Some(text) => Ok(license_said(alloc, text)?),
        None => Ok(License::Unstated),
    }
}

// How many licenses are guesses.
fn guesses(item: &Item<'_>) -> usize
    ensures { result ≡ spec.guesses (item_row item.now) }
{
    match item.value.get("licenses") {
        Some(Value::String(text)) if is_guess(text.as_str()) => 1,
        _ => 0,
    }
}

// The file that is named, from the folder if it lies below it.
fn files(alloc: Global, folder: Option<&str>, file: Option<&str>) -> Result<Vec<String>, AllocError>
    ensures { IfOk result (λ fs. map string_bytes fs.items
        ≡ spec.files (option_copied folder.entry) (option_copied file.entry)) }
{
    match file {
        Some(file) => in_list(alloc, Some(file_within(folder, file))),
        None => in_list(alloc, None),
    }
}

// The package that a member is.
fn checked(alloc: Global, item: &Item<'_>) -> Result<Package, SourceError>
    ensures ok { IfOk result (λ p. spec.checked (item_row item.now) ≡ Ok (row_of p)) }
    ensures err { IfErr result (Says (λ f. spec.checked (item_row item.now) ≡ Err f)) }
{
    check_object(alloc, item)?;
    let license = license(alloc, item)?;
    let file = text_if_any(alloc, item, "/licenseFile", item.value.get("licenseFile"))?;
    let folder = text_if_any(alloc, item, "/path", item.value.get("path"))?;
    let (name, version) = (name_of(item.key), version_of(item.key));
    let mut package = said(alloc, item, name, version, license)?;
    package.folder = copy_of(alloc, folder)?;
    package.license_files = files(alloc, folder, file)?;
    package.evidence = guesses(item);
    Ok(package)
}

/// The packages of what `license-checker --json` writes: each member is one, in the order of the bytes of their names, which
/// are `NAME@VERSION`.
///
/// # Errors
///
/// The first fault of the document, or that memory was refused.
pub fn checked_packages(alloc: Global, document: &Value) -> Result<Vec<Package>, SourceError>
    ensures ok { IfOk result (λ ps.
        spec.checked_packages (view document.now) ≡ Ok (map row_of ps.items)) }
    ensures err { IfErr result (Says (λ f. spec.checked_packages (view document.now) ≡ Err f)) }
{
    let items = member_items(alloc, "", Some(document))?;
    let mut packages = Vec::new(alloc);
    for item in &items {
        packages.push(checked(alloc, item)?)?;
    }
    Ok(packages)
}
