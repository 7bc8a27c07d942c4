// Whether a document is another with a text at a path replaced, and nothing else.

ghost use Rattle.std.specs.Prelude.{◌≡◌, ◌↔◌, IsTrue, if◌then◌else◌};
ghost use Rattle.serde_json.specs.View.{items_view, members_view, view};
ghost use Rattle.json_places.specs.Paths.{set_text, set_at, change_item, change_member};

use crate::path::{Path, Step};
use crate::same::is_same;
use serde_json::{Map, Value};

// The new value is the text, where the old one was a text, and else the old one.
fn is_text(old: &Value, new: &Value, text: &str) -> bool
    ensures { IsTrue result ↔ (view new.now ≡ set_text text.now (view old.now)) }
{
    if old.is_string() {
        new.as_str() == Some(text)
    } else {
        is_same(old, new)
    }
}

// The new value is the old one with the text where the steps lead.
#[cycle(changes)]
fn is_changed(old: &Value, new: &Value, steps: &[Step<'_>], text: &str) -> bool
    ensures { IsTrue result ↔ (view new.now ≡ set_at steps.now text.now (view old.now)) }
{
    let Some((step, rest)) = steps.split_first() else {
        return is_text(old, new, text);
    };
    match (step, old, new) {
        (Step::Key(key), Value::Object(x), Value::Object(y)) => {
            are_changed_members(x, y, *key, rest, text)
        }
        (Step::Item(index), Value::Array(x), Value::Array(y)) => {
            are_changed_items(x, y, *index, rest, text)
        }
        _ => is_same(old, new),
    }
}

// The same where the steps lead here, and else the new value is the old one.
#[cycle(changes)]
fn is_changed_if(old: &Value, new: &Value, is_here: bool, rest: &[Step<'_>], text: &str) -> bool
    ensures { IsTrue result ↔ (view new.now
        ≡ (if is_here then set_at rest.now text.now (view old.now) else view old.now)) }
{
    if is_here {
        is_changed(old, new, rest, text)
    } else {
        is_same(old, new)
    }
}

#[cycle(changes)]
fn are_changed_items(
    old: &Vec<Value>,
    new: &Vec<Value>,
    index: usize,
    rest: &[Step<'_>],
    text: &str,
) -> bool
    ensures { IsTrue result ↔ (items_view new.now.items
        ≡ change_item (set_at rest.now text.now) index 0 (items_view old.now.items)) }
{
    let mut others = new.iter();
    for (number, x) in old.iter().enumerate() {
        let Some(y) = others.next() else {
            return false;
        };
        if !is_changed_if(x, y, number == index, rest, text) {
            return false;
        }
    }
    others.next().is_none()
}

#[cycle(changes)]
fn are_changed_members(
    old: &Map<String, Value>,
    new: &Map<String, Value>,
    key: &str,
    rest: &[Step<'_>],
    text: &str,
) -> bool
    ensures { IsTrue result ↔ (members_view new.now.entries
        ≡ change_member (set_at rest.now text.now) key.now (members_view old.now.entries)) }
{
    let mut others = new.iter();
    for (name, x) in old.iter() {
        let Some((other, y)) = others.next() else {
            return false;
        };
        let is_here = key == name.as_str();
        if name.as_str() != other.as_str() || !is_changed_if(x, y, is_here, rest, text) {
            return false;
        }
    }
    others.next().is_none()
}

/// Whether the new document is the old one with the text where the path leads.
pub(crate) fn is_changed_document(old: &Value, new: &Value, path: &Path<'_>, text: &str) -> bool
    ensures { IsTrue result ↔ (view new.now ≡ set_at path.now.steps.items text.now (view old.now)) }
{
    is_changed(old, new, path.steps.as_slice(), text)
}
