// The ways to the texts of a document.

ghost use Rattle.std.specs.Prelude.{◌≡◌, option_map};
ghost use Rattle.std.specs.Option.{option_copied};
ghost use Rattle.toml.specs.Data.{get_member};
ghost use Rattle.toml.specs.View.{view, table_view};
ghost use Rattle.toml_places.specs.Paths as spec;

use toml::{Table, Value};

/// A step from a value to one in it.
#[derive(Clone, Copy, PartialEq, Eq, Debug)]
pub enum Step<'k> {
    /// To the value at this key of a table.
    Key(&'k str),
    /// To the item of this number in an array, counted from 0.
    Item(usize),
}

/// The way to a text: steps from the whole document.
#[derive(Debug, Drop)]
pub struct Path<'k> {
    pub steps: Vec<Step<'k>>,
}

// What the table has at the key.
fn member<'v>(table: &'v Table, key: &str) -> Option<&'v Value>
    ensures { option_map (λ v. view v.now) result ≡ get_member key.now (table_view table.now) }
{
    table.get(key)
}

// What a step leads to.
fn value_behind<'v>(value: &'v Value, step: &Step<'_>) -> Option<&'v Value>
    ensures { option_map (λ v. view v.now) result ≡ spec.value_behind step.now (view value.now) }
{
    match step {
        Step::Key(key) => value.get(*key),
        Step::Item(index) => value.get(*index),
    }
}

// What the steps lead to.
fn value_at<'v>(value: &'v Value, steps: &[Step<'_>]) -> Option<&'v Value>
    ensures { option_map (λ v. view v.now) result ≡ spec.value_at steps.now (view value.now) }
{
    let mut value = value;
    for step in steps {
        value = value_behind(value, step)?;
    }
    Some(value)
}

/// The text that a path leads to, if it leads to one.
pub fn text_at<'v>(document: &'v Table, path: &Path<'_>) -> Option<&'v str>
    ensures { option_copied result ≡ spec.text_at path.now.steps.items (table_view document.now) }
{
    let (first, rest) = path.steps.as_slice().split_first()?;
    match first {
        Step::Key(key) => value_at(member(document, *key)?, rest)?.as_str(),
        Step::Item(_) => None,
    }
}
