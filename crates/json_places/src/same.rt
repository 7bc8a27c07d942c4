// Whether two values are one, which `==` of the reader's values does not promise.

ghost use Rattle.std.specs.Prelude.{◌≡◌, ◌↔◌, IsTrue, None};
ghost use Rattle.serde_json.specs.Find.{as_u64};
ghost use Rattle.serde_json.specs.View.{items_view, members_view, number_view, view};

use serde_json::{Map, Number, Value};
use std::num::f64_to_bits_with_nan;

fn is_same_float(x: f64, y: f64) -> bool
    ensures { IsTrue result ↔ (x ≡ y) }
{
    f64_to_bits_with_nan(x) == f64_to_bits_with_nan(y)
}

fn is_same_number(x: &Number, y: &Number) -> bool
    ensures { IsTrue result ↔ (number_view x.now ≡ number_view y.now) }
{
    match (x.as_u64(), y.as_u64()) {
        (Some(one), Some(other)) => one == other,
        (None, None) => is_same_signed(x, y),
        _ => false,
    }
}

// The same of two numbers that aren't natural ones below 2 ^ 64.
fn is_same_signed(x: &Number, y: &Number) -> bool
    requires one { as_u64 (number_view x.now) ≡ None }
    requires other { as_u64 (number_view y.now) ≡ None }
    ensures { IsTrue result ↔ (number_view x.now ≡ number_view y.now) }
{
    match (x.as_i64(), y.as_i64()) {
        (Some(one), Some(other)) => one == other,
        (None, None) => match (x.as_f64(), y.as_f64()) {
            (Some(one), Some(other)) => is_same_float(one, other),
            _ => false,
        },
        _ => false,
    }
}

/// Whether two values are the same.
#[cycle(same)]
pub(crate) fn is_same(old: &Value, new: &Value) -> bool
    ensures { IsTrue result ↔ (view new.now ≡ view old.now) }
{
    match (old, new) {
        (Value::String(x), Value::String(y)) => x == y,
        (Value::Null, Value::Null) => true,
        (Value::Number(x), Value::Number(y)) => is_same_number(x, y),
        (Value::Bool(x), Value::Bool(y)) => x == y,
        (Value::Array(x), Value::Array(y)) => are_same_items(x, y),
        (Value::Object(x), Value::Object(y)) => are_same_members(x, y),
        _ => false,
    }
}

#[cycle(same)]
fn are_same_items(old: &Vec<Value>, new: &Vec<Value>) -> bool
    ensures { IsTrue result ↔ (items_view new.now.items ≡ items_view old.now.items) }
{
    let mut others = new.iter();
    for x in old {
        let Some(y) = others.next() else {
            return false;
        };
        if !is_same(x, y) {
            return false;
        }
    }
    others.next().is_none()
}

#[cycle(same)]
fn are_same_members(old: &Map<String, Value>, new: &Map<String, Value>) -> bool
    ensures { IsTrue result ↔ (members_view new.now.entries ≡ members_view old.now.entries) }
{
    let mut others = new.iter();
    for (name, x) in old.iter() {
        let Some((other, y)) = others.next() else {
            return false;
        };
        if other.as_str() != name.as_str() || !is_same(x, y) {
            return false;
        }
    }
    others.next().is_none()
}
