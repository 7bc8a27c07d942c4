// JSON values, and the tables that they hold.

ghost use Rattle.std.specs.Prelude.{◌≡◌, ◌<◌, Some, None, IfOk, IfErr, nat_le, option_map, if◌then◌else◌};
ghost use Rattle.std.specs.Option.{option_copied};
ghost use Rattle.serde_json.specs.View.{view, items_view, members_view};
ghost use Rattle.serde_json.specs.Written as written;
ghost use Rattle.spdx_tables.specs.Shape as shape;
ghost use Rattle.spdx_requirement.specs.Failures.{IfRefused};
ghost use Rattle.spdx_tables.specs.declared.error.TableFault.TheVariants.{NotJson};
ghost use Rattle.spdx_tables.specs.TableReading.{value_in};

use crate::error::TableFault;
use serde_json::{Map, Value};
use spdx_requirement::failure::Failure;
use std::alloc::{AllocError, Global};

/// The one value that the bytes hold.
pub(crate) fn value_of(alloc: Global, bytes: &[u8]) -> Result<Value, Failure<TableFault>>
    ensures ok { IfOk result (λ v. value_in bytes.now ≡ Some (view v)) }
    ensures err { IfErr result (IfRefused (λ f. (f ≡ NotJson) × (value_in bytes.now ≡ None))) }
{
    match Value::from_slice(alloc, bytes) {
        Ok(value) => Ok(value),
        Err(error) => {
            if error.is_memory() {
                return Err(Failure::Memory(AllocError));
            }
            Err(Failure::Refused(TableFault::NotJson))
        }
    }
}

pub(crate) fn text_at<'v>(value: &'v Value, key: &str) -> Option<&'v str>
    ensures { option_copied result ≡ shape.text_at key.now (view value.now) }
{
    value.get(key)?.as_str()
}

fn byte_of(n: u64) -> Option<u8>
    ensures { result ≡ (if nat_le n 255 then Some n else None) }
{
    if n <= 255 { Some(n as u8) } else { None }
}

pub(crate) fn byte_at(value: &Value, key: &str) -> Option<u8>
    ensures { result ≡ shape.byte_at key.now (view value.now) }
{
    byte_of(value.get(key)?.as_u64()?)
}

pub(crate) fn items_at<'v>(value: &'v Value, key: &str) -> Option<&'v Vec<Value>>
    ensures { option_map (λ v. items_view v.now.items) result
        ≡ shape.items_at key.now (view value.now) }
{
    value.get(key)?.as_array()
}

// Whether a number stands in the value that is neither an `i64` nor a `u64`. Goes as deep as the
// value is nested, at most 127.
#[cycle(float)]
pub(crate) fn has_float(value: &Value) -> bool
    ensures { result ≡ written.has_float (view value.now) }
{
    match value {
        Value::Null => false,
        Value::Bool(_) => false,
        Value::Number(n) => n.is_f64(),
        Value::String(_) => false,
        Value::Array(items) => items_have_float(items),
        Value::Object(members) => members_have_float(members),
    }
}

#[cycle(float)]
fn items_have_float(items: &Vec<Value>) -> bool
    ensures { result ≡ written.items_have_float (items_view items.now.items) }
{
    for item in items {
        if has_float(item) {
            return true;
        }
    }
    false
}

#[cycle(float)]
fn members_have_float(members: &Map<String, Value>) -> bool
    ensures { result ≡ written.members_have_float (members_view members.now.entries) }
{
    for (_, member) in members.iter() {
        if has_float(member) {
            return true;
        }
    }
    false
}
