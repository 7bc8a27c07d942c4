// JSON values, and what stands at their pointers.

ghost use Rattle.std.specs.Prelude.{◌≡◌, Some, None, IfOk, IfErr};
ghost use Rattle.serde_json.specs.View.{view};
ghost use Rattle.package_items.specs.Rows.{Says, not_json};
ghost use Rattle.package_items.specs.Values.{value_in, found_of, seen};

use crate::error::{Found, SourceError, SourceFault};
use serde_json::Value;
use std::alloc::Global;

/// The one value that the bytes hold.
pub fn value_of(alloc: Global, bytes: &[u8]) -> Result<Value, SourceError>
    ensures ok { IfOk result (λ v. value_in bytes.now ≡ Some (view v)) }
    ensures err { IfErr result (Says (λ f. (f ≡ not_json) × (value_in bytes.now ≡ None))) }
{
    match Value::from_slice(alloc, bytes) {
        Ok(value) => Ok(value),
        Err(error) => {
            if error.is_memory() {
                return Err(SourceError::NoMemory);
            }
            Err(SourceError::Refused(SourceFault::NotJson(error.line(), error.column())))
        }
    }
}

/// What is found: the kind of the value, or that there is none.
pub fn found_of(value: Option<&Value>) -> Found
    ensures { result ≡ found_of (seen value.entry) }
{
    match value {
        None => Found::Nothing,
        Some(Value::Null) => Found::Null,
        Some(Value::Bool(_)) => Found::Bool,
        Some(Value::Number(_)) => Found::Number,
        Some(Value::String(_)) => Found::Text,
        Some(Value::Array(_)) => Found::List,
        Some(Value::Object(_)) => Found::Object,
    }
}
