// JSON values, and what stands at their keys.

ghost use Rattle.std.specs.Prelude.{◌≡◌, Some, None, IfOk, IfErr, option_map};
ghost use Rattle.std.specs.Option.{option_copied};
ghost use Rattle.serde_json.specs.View.{view, items_view};
ghost use Rattle.spdx_requirement.specs.Failures.{IfRefused};
ghost use Rattle.spdx_tables.specs.Shape as shape;
ghost use Rattle.spdx_tables.specs.TableReading.{value_in};
ghost use Rattle.spdx_list.specs.Items.{flag_at};
ghost use Rattle.spdx_list.specs.declared.error.ListFault.TheVariants as fault;

use crate::error::{File, ListFault};
use serde_json::Value;
use spdx_requirement::failure::Failure;
use std::alloc::{AllocError, Global};

/// The one value that the file holds.
pub(crate) fn value_of(alloc: Global, file: File, bytes: &[u8]) -> Result<Value, Failure<ListFault>>
    ensures ok { IfOk result (λ v. value_in bytes.now ≡ Some (view v)) }
    ensures err { IfErr result (IfRefused (λ f.
        (f ≡ fault.NotJson file) × (value_in bytes.now ≡ None))) }
{
    match Value::from_slice(alloc, bytes) {
        Ok(value) => Ok(value),
        Err(error) => {
            if error.is_memory() {
                return Err(Failure::Memory(AllocError));
            }
            Err(Failure::Refused(ListFault::NotJson(file)))
        }
    }
}

pub(crate) fn text_at<'v>(value: &'v Value, key: &str) -> Option<&'v str>
    ensures { option_copied result ≡ shape.text_at key.now (view value.now) }
{
    value.get(key)?.as_str()
}

/// The flag at a key: false where none stands there, `None` where it is neither true nor false.
pub(crate) fn flag_at(value: &Value, key: &str) -> Option<bool>
    ensures { result ≡ flag_at key.now (view value.now) }
{
    match value.get(key) {
        Some(member) => member.as_bool(),
        None => Some(false),
    }
}

pub(crate) fn items_at<'v>(value: &'v Value, key: &str) -> Option<&'v Vec<Value>>
    ensures { option_map (λ v. items_view v.now.items) result
        ≡ shape.items_at key.now (view value.now) }
{
    value.get(key)?.as_array()
}
