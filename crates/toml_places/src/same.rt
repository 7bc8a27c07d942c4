// Whether two values are one, which `==` of the reader's values does not promise.

ghost use Rattle.std.specs.Prelude.{◌≡◌, ◌↔◌, IsTrue};
ghost use Rattle.toml.specs.View.{view, array_view, table_view};

use std::num::f64_to_bits_with_nan;
use toml::value::{Array, Date, Datetime, Offset, Time};
use toml::{Table, Value};

fn is_same_float(x: f64, y: f64) -> bool
    ensures { IsTrue result ↔ (x ≡ y) }
{
    f64_to_bits_with_nan(x) == f64_to_bits_with_nan(y)
}

fn is_same_day(x: Option<Date>, y: Option<Date>) -> bool
    ensures { IsTrue result ↔ (x ≡ y) }
{
    x == y
}

fn is_same_time(x: Option<Time>, y: Option<Time>) -> bool
    ensures { IsTrue result ↔ (x ≡ y) }
{
    x == y
}

fn is_same_offset(x: Option<Offset>, y: Option<Offset>) -> bool
    ensures { IsTrue result ↔ (x ≡ y) }
{
    x == y
}

fn is_same_date(x: &Datetime, y: &Datetime) -> bool
    ensures { IsTrue result ↔ (x.now ≡ y.now) }
{
    is_same_day(x.date, y.date)
        && is_same_time(x.time, y.time)
        && is_same_offset(x.offset, y.offset)
}

/// Whether two values are the same.
#[cycle(same)]
pub(crate) fn is_same(old: &Value, new: &Value) -> bool
    ensures { IsTrue result ↔ (view new.now ≡ view old.now) }
{
    match (old, new) {
        (Value::String(x), Value::String(y)) => x == y,
        (Value::Integer(x), Value::Integer(y)) => x == y,
        (Value::Float(x), Value::Float(y)) => is_same_float(*x, *y),
        (Value::Boolean(x), Value::Boolean(y)) => x == y,
        (Value::Datetime(x), Value::Datetime(y)) => is_same_date(x, y),
        (Value::Array(x), Value::Array(y)) => are_same_items(x, y),
        (Value::Table(x), Value::Table(y)) => are_same_members(x, y),
        _ => false,
    }
}

#[cycle(same)]
fn are_same_items(old: &Array, new: &Array) -> bool
    ensures { IsTrue result ↔ (array_view new.now ≡ array_view old.now) }
{
    let mut others = new.iter();
    for x in old {
        let Some(y) = others.next() else {
            return false;
        };
        if !is_same(x, y) {
            return false;
        }
    }
    others.next().is_none()
}

/// Whether two tables are the same.
#[cycle(same)]
pub(crate) fn are_same_members(old: &Table, new: &Table) -> bool
    ensures { IsTrue result ↔ (table_view new.now ≡ table_view old.now) }
{
    let mut others = new.iter();
    for (name, x) in old.iter() {
        let Some((other, y)) = others.next() else {
            return false;
        };
        if other.as_str() != name.as_str() || !is_same(x, y) {
            return false;
        }
    }
    others.next().is_none()
}
