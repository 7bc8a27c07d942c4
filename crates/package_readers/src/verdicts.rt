// What `spdx gate --format json` writes: an object on each line.

ghost use Rattle.std.specs.Prelude.{◌≡◌, Ok, Err, IfOk, IfErr, map, string_bytes};
ghost use Rattle.std.specs.Option.{option_copied};
ghost use Rattle.serde_json.specs.View.{view};
ghost use Rattle.package_items.specs.Members.{license_if_any};
ghost use Rattle.package_items.specs.Rows.{Says, license_of, line_not_text, row_of};
ghost use Rattle.package_items.specs.Values.{found_of as kind_found, seen};
ghost use Rattle.package_readers.specs.Lines.{each_line};
ghost use Rattle.package_readers.specs.Verdicts as spec;

use crate::lines::{on_line, text_lines, text_of};
use package_items::{
    License, Package, SourceError, SourceFault, copy_of, found_of, is_blank, license_in, value_of,
};
use serde_json::Value;
use std::alloc::{AllocError, Global};

#[tactic(auto, unfolding(crate::specs::Verdicts::value_on))]
fn value_on(alloc: Global, number: usize, line: &str) -> Result<Value, SourceError>
    ensures ok { IfOk result (λ v. spec.value_on number line.now ≡ Ok (view v)) }
    ensures err { IfErr result (Says (λ f. spec.value_on number line.now ≡ Err f)) }
{
    match value_of(alloc, line.as_bytes()) {
        Ok(value) => Ok(value),
        Err(SourceError::NoMemory) => Err(SourceError::NoMemory),
        Err(SourceError::Refused(_)) => {
            Err(SourceError::Refused(SourceFault::LineNotJson(number)))
        }
    }
}

fn check_object(number: usize, value: &Value) -> Result<(), SourceError>
    ensures ok { IfOk result (λ _. spec.object_on number (view value.now) ≡ Ok (view value.now)) }
    ensures err { IfErr result (Says (λ f. spec.object_on number (view value.now) ≡ Err f)) }
{
    match value {
        Value::Object(_) => Ok(()),
        _ => Err(SourceError::Refused(SourceFault::LineNotObject(number, found_of(Some(value))))),
    }
}

// The fault that no text stands there.
fn no_text(alloc: Global, number: usize, at: &str, found: Option<&Value>) -> SourceError
    ensures { Says (λ f. f ≡ line_not_text number at.now (kind_found (seen found.entry))) result }
{
    match String::from_str(alloc, at) {
        Ok(at) => SourceError::Refused(SourceFault::LineNotText(number, at, found_of(found))),
        Err(_) => SourceError::NoMemory,
    }
}

fn text_on<'v>(
    alloc: Global,
    number: usize,
    at: &str,
    found: Option<&'v Value>,
) -> Result<&'v str, SourceError>
    ensures ok { IfOk result (λ t. spec.text_on number at.now (seen found.entry) ≡ Ok t.now) }
    ensures err { IfErr result (Says (λ f.
        spec.text_on number at.now (seen found.entry) ≡ Err f)) }
{
    match found {
        Some(Value::String(text)) => Ok(text.as_str()),
        _ => Err(no_text(alloc, number, at, found)),
    }
}

fn text_on_if_any<'v>(
    alloc: Global,
    number: usize,
    at: &str,
    found: Option<&'v Value>,
) -> Result<Option<&'v str>, SourceError>
    ensures ok { IfOk result (λ t.
        spec.text_on_if_any number at.now (seen found.entry) ≡ Ok (option_copied t)) }
    ensures err { IfErr result (Says (λ f.
        spec.text_on_if_any number at.now (seen found.entry) ≡ Err f)) }
{
    match found {
        None => Ok(None),
        Some(Value::Null) => Ok(None),
        Some(Value::String(text)) => Ok(Some(text.as_str())),
        _ => Err(no_text(alloc, number, at, found)),
    }
}

fn license_on(alloc: Global, text: Option<&str>) -> Result<License, AllocError>
    ensures { IfOk result (λ l. license_of l ≡ license_if_any (option_copied text.entry)) }
{
    match text {
        Some(text) => license_in(alloc, text),
        None => Ok(License::Unstated),
    }
}

// The package of what the members of an object say.
fn said_on(alloc: Global, number: usize, value: &Value) -> Result<Package, SourceError>
    ensures ok { IfOk result (λ p. spec.said_on number (view value.now) ≡ Ok (row_of p)) }
    ensures err { IfErr result (Says (λ f. spec.said_on number (view value.now) ≡ Err f)) }
{
    let name = text_on(alloc, number, "/name", value.get("name"))?;
    let version = text_on_if_any(alloc, number, "/version", value.get("version"))?;
    let text = text_on_if_any(alloc, number, "/expression", value.get("expression"))?;
    let name = String::from_str(alloc, name)?;
    let version = copy_of(alloc, version)?;
    let license = license_on(alloc, text)?;
    Ok(on_line(alloc, number, name, version, license))
}

// The package of a line, by its number from 1.
fn verdict(alloc: Global, number: usize, line: &str) -> Result<Package, SourceError>
    ensures ok { IfOk result (λ p. spec.verdict number line.now ≡ Ok (row_of p)) }
    ensures err { IfErr result (Says (λ f. spec.verdict number line.now ≡ Err f)) }
{
    let value = value_on(alloc, number, line)?;
    check_object(number, &value)?;
    said_on(alloc, number, &value)
}

// The packages of the lines that aren't blank.
fn packages_of(alloc: Global, lines: &[&str]) -> Result<Vec<Package>, SourceError>
    ensures ok { IfOk result (λ ps. each_line spec.verdict 1 (map (λ x. x.now) lines.now)
        ≡ Ok (map row_of ps.items)) }
    ensures err { IfErr result (Says (λ f.
        each_line spec.verdict 1 (map (λ x. x.now) lines.now) ≡ Err f)) }
{
    let mut packages = Vec::new(alloc);
    for (index, line) in lines.iter().enumerate() {
        if !is_blank(line.as_bytes()) {
            packages.push(verdict(alloc, index + 1, line)?)?;
        }
    }
    Ok(packages)
}

/// The packages of what `spdx gate --format json` writes: of each line that isn't blank, in their order. The expression of a
/// package is its license; where it is missing, null or blank, the package is unstated.
///
/// # Errors
///
/// The first line that is no object, or lacks a text that is needed; or that memory was refused.
pub fn verdict_packages(alloc: Global, bytes: &[u8]) -> Result<Vec<Package>, SourceError>
    ensures ok { IfOk result (λ ps. spec.verdict_packages bytes.now ≡ Ok (map row_of ps.items)) }
    ensures err { IfErr result (Says (λ f. spec.verdict_packages bytes.now ≡ Err f)) }
{
    let text = text_of(bytes)?;
    let lines = text_lines(alloc, text)?;
    packages_of(alloc, lines.as_slice())
}
