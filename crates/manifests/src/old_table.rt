// A `pyproject.toml` whose license is a table, as it was before PEP 639.

ghost use Rattle.std.specs.Prelude.{◌≡◌, IfOk, None, Some, false};
ghost use Rattle.std.specs.Str.{IsUtf8};
ghost use Rattle.toml.specs.Data.{Members};
ghost use Rattle.toml.specs.Parse.{parse_document};
ghost use Rattle.toml.specs.View.{table_view, view};
ghost use Rattle.manifests.specs.OldTable.{has_license_table, has_table_at, is_table};

use crate::toml_texts::member;
use std::alloc::{AllocError, Global};
use toml::{Table, Value};

/// Whether the bytes are a `pyproject.toml` whose project has its license in a table (`{text = ".."}` or `{file = ".."}`), as
/// it was before PEP 639: such a text is in words of its own, and no expression. Bytes that are no TOML have none.
///
/// # Errors
///
/// Memory was refused.
pub fn has_license_table(alloc: Global, bytes: &[u8]) -> Result<bool, AllocError>
    ensures has { IfOk result (λ has. (document : Members) → IsUtf8 bytes.now →
        parse_document bytes.now ≡ Some document → has ≡ has_license_table document) }
    ensures none { IfOk result (λ has.
        (IsUtf8 bytes.now → parse_document bytes.now ≡ None) → has ≡ false) }
{
    match toml::table_from_slice(alloc, bytes) {
        Ok(document) => Ok(is_old(&document)),
        Err(error) if error.is_memory() => Err(AllocError),
        Err(_) => Ok(false),
    }
}

fn is_old(document: &Table) -> bool
    ensures { result ≡ has_license_table (table_view document.now) }
{
    match member(document, "project") {
        Some(project) => has_table(project),
        None => false,
    }
}

fn has_table(project: &Value) -> bool
    ensures { result ≡ has_table_at (view project.now) }
{
    match project.get("license") {
        Some(license) => is_table(license),
        None => false,
    }
}

fn is_table(value: &Value) -> bool
    ensures { result ≡ is_table (view value.now) }
{
    match value {
        Value::Table(_) => true,
        _ => false,
    }
}
