// The ways to the texts of a document.

ghost use Rattle.std.specs.Prelude.{◌≡◌, option_map};
ghost use Rattle.std.specs.Option.{option_copied};
ghost use Rattle.serde_json.specs.View.{view};
ghost use Rattle.json_places.specs.Paths as spec;

use serde_json::Value;

/// A step from a value to one in it.
#[derive(Clone, Copy, PartialEq, Eq, Debug)]
pub enum Step<'k> {
    /// To the value of this member of an object.
    Key(&'k str),
    /// To the item of this number in a list, counted from 0.
    Item(usize),
}

/// The way to a text: steps from the whole document.
#[derive(Debug, Drop)]
pub struct Path<'k> {
    pub steps: Vec<Step<'k>>,
}

// What a step leads to.
fn value_behind<'v>(value: &'v Value, step: &Step<'_>) -> Option<&'v Value>
    ensures { option_map (λ v. view v.now) result ≡ spec.value_behind step.now (view value.now) }
{
    match step {
        Step::Key(key) => value.get(*key),
        Step::Item(index) => value.get(*index),
    }
}

// What the steps lead to.
fn value_at<'v>(value: &'v Value, steps: &[Step<'_>]) -> Option<&'v Value>
    ensures { option_map (λ v. view v.now) result ≡ spec.value_at steps.now (view value.now) }
{
    let mut value = value;
    for step in steps {
        value = value_behind(value, step)?;
    }
    Some(value)
}

/// The text that a path leads to, if it leads to one.
pub fn text_at<'v>(document: &'v Value, path: &Path<'_>) -> Option<&'v str>
    ensures { option_copied result ≡ spec.text_at path.now.steps.items (view document.now) }
{
    value_at(document, path.steps.as_slice())?.as_str()
}
