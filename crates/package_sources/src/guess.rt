// Which form a file is of, by its shape.

ghost use Rattle.std.specs.Prelude.{◌≡◌, ◌≤◌, ◌==◌, Ok, Err, IfOk, IfErr, codes, length, not};
ghost use Rattle.std.specs.List.{find, list_any, prefix_len};
ghost use Rattle.std.specs.Char.{is_ascii_whitespace};
ghost use Rattle.serde_json.specs.Data.{array};
ghost use Rattle.serde_json.specs.View.{view, items_view, members_view};
ghost use Rattle.package_items.specs.Rows.{Says};
ghost use Rattle.package_items.specs.Values.{seen};
ghost use Rattle.package_sources.specs.Guess as spec;

use crate::form::Form;
use crate::sources::{document, without_mark};
use package_items::{SourceError, SourceFault};
use package_readers::version_of;
use serde_json::{Map, Value};
use std::alloc::Global;

fn has(document: &Value, key: &str) -> bool
    ensures { result ≡ spec.has key.now (view document.now) }
{
    document.get(key).is_some()
}

fn is_list(document: &Value) -> bool
    ensures { result ≡ spec.is_list (view document.now) }
{
    matches!(document, Value::Array(_))
}

// Whether a member is a package of license-checker's: its name has a version, and it has licenses.
fn is_checked(key: &str, value: &Value) -> bool
    ensures { result ≡ spec.is_checked key.now (view value.now) }
{
    version_of(key).is_some() && has(value, "licenses")
}

fn has_checked(members: &Map<String, Value>) -> bool
    ensures { result ≡ spec.some_member spec.is_checked (members_view members.now.entries) }
{
    for (key, value) in members.iter() {
        if is_checked(key.as_str(), value) {
            return true;
        }
    }
    false
}

fn is_text(text: &str, found: Option<&Value>) -> bool
    ensures { result ≡ spec.is_text text.now (seen found.entry) }
{
    match found {
        Some(Value::String(other)) => other.as_str() == text,
        _ => false,
    }
}

// Whether the first of the values has the license.
fn first_says(key: &str, values: &[Value]) -> bool
    ensures { result ≡ spec.is_group key.now (array (items_view values.now)) }
{
    match values {
        [first, ..] => is_text(key, first.get("license")),
        [] => false,
    }
}

// Whether a member is a group of pnpm's: a list whose first item has the license that the member is named by.
fn is_group(key: &str, value: &Value) -> bool
    ensures { result ≡ spec.is_group key.now (view value.now) }
{
    match value {
        Value::Array(values) => first_says(key, values.as_slice()),
        _ => false,
    }
}

fn has_group(members: &Map<String, Value>) -> bool
    ensures { result ≡ spec.some_member spec.is_group (members_view members.now.entries) }
{
    for (key, value) in members.iter() {
        if is_group(key.as_str(), value) {
            return true;
        }
    }
    false
}

// Whether the document is of SPDX 3: a graph of elements, or one element of its context.
fn is_graph(document: &Value) -> bool
    ensures { result ≡ spec.is_graph (view document.now) }
{
    has(document, "@graph") || is_context(document.get("@context"))
}

fn is_context(found: Option<&Value>) -> bool
    ensures { result ≡ spec.is_context (seen found.entry) }
{
    match found {
        Some(Value::String(text)) => text
            .as_str()
            .as_bytes()
            .starts_with(b"https://spdx.org/rdf/3"),
        _ => false,
    }
}

// The form of a document, by its members.
fn form_of_members(document: &Value) -> Option<Form>
    ensures { result ≡ spec.form_of_members (view document.now) }
{
    let Value::Object(members) = document else {
        return None;
    };
    if has_checked(members) {
        return Some(Form::LicenseChecker);
    }
    if has_group(members) {
        return Some(Form::Pnpm);
    }
    None
}

// The form of a document, by what it has.
fn form_of_document(document: &Value) -> Option<Form>
    ensures { result ≡ spec.form_of_document (view document.now) }
{
    if is_list(document) {
        return Some(Form::Pip);
    }
    if has(document, "bomFormat") {
        return Some(Form::CycloneDx);
    }
    if has(document, "spdxVersion") || has(document, "sbom") {
        return Some(Form::Spdx);
    }
    if is_graph(document) {
        return Some(Form::SpdxThree);
    }
    if has(document, "workspace_members") {
        return Some(Form::Cargo);
    }
    if has(document, "content-hash") || has(document, "require") {
        return Some(Form::Composer);
    }
    if has(document, "lockfileVersion") || has(document, "name") || has(document, "dependencies") {
        return Some(Form::Npm);
    }
    form_of_members(document)
}

// The first byte that is no white space.
fn first_mark(bytes: &[u8]) -> Option<u8>
    ensures { result ≡ find spec.is_mark bytes.now }
{
    for byte in bytes {
        if !byte.is_ascii_whitespace() {
            return Some(*byte);
        }
    }
    None
}

// Whether the bytes begin as an object or a list does.
fn begins_json(bytes: &[u8]) -> bool
    ensures { result ≡ spec.begins_json bytes.now }
{
    matches!(first_mark(bytes), Some(b'{' | b'['))
}

fn has_tab(bytes: &[u8]) -> bool
    ensures { result ≡ list_any (λ b. b == 9) bytes.now }
{
    for byte in bytes {
        if *byte == b'\t' {
            return true;
        }
    }
    false
}

// Whether the bytes begin with the field that the metadata of Python begin with, in any case.
fn begins_metadata(bytes: &[u8]) -> bool
    ensures { result ≡ spec.begins_metadata bytes.now }
{
    bytes.len() >= 17 && bytes[..17].eq_ignore_ascii_case(b"Metadata-Version:")
}

// How many of the first bytes are white space.
fn blank_len(bytes: &[u8]) -> usize
    ensures value { result ≡ prefix_len is_ascii_whitespace bytes.now }
    ensures within { result ≤ length bytes.now }
{
    bytes
        .iter()
        .take_while(|byte| byte.is_ascii_whitespace())
        .count()
}

// Whether the bytes begin, behind white space, as the gate's lines do.
fn begins_verdicts(bytes: &[u8]) -> bool
    ensures { result ≡ spec.begins_verdicts bytes.now }
{
    bytes[blank_len(bytes)..].starts_with(b"{\"file\":")
}

// The form of the bytes behind the mark that some editors put first.
fn guess(alloc: Global, bytes: &[u8]) -> Result<Form, SourceError>
    ensures ok { IfOk result (λ f. spec.guess bytes.now ≡ Ok f) }
    ensures err { IfErr result (Says (λ f. spec.guess bytes.now ≡ Err f)) }
{
    if begins_verdicts(bytes) {
        return Ok(Form::Verdicts);
    }
    if begins_json(bytes) {
        let value = document(alloc, bytes)?;
        return match form_of_document(&value) {
            Some(form) => Ok(form),
            None => Err(SourceError::Refused(SourceFault::NoForm)),
        };
    }
    if begins_metadata(bytes) {
        return Ok(Form::Metadata);
    }
    if has_tab(bytes) {
        return Ok(Form::Tsv { header: false });
    }
    Ok(Form::Lines)
}

/// The form that a file is of, by its shape. An object that begins with `"file":` begins what `spdx gate` writes.
/// What else begins as an object or a list is JSON, and what the document has tells which; other bytes are lines, or
/// columns without a header if there is a tab. Linear.
///
/// # Errors
///
/// That JSON is of no form that is known, or that what begins as JSON is none; or that memory was refused.
pub fn guessed_form(alloc: Global, bytes: &[u8]) -> Result<Form, SourceError>
    ensures ok { IfOk result (λ f. spec.guessed_form bytes.now ≡ Ok f) }
    ensures err { IfErr result (Says (λ f. spec.guessed_form bytes.now ≡ Err f)) }
{
    guess(alloc, without_mark(bytes))
}
