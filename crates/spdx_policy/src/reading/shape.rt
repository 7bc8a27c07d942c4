// What the members of a TOML table hold: texts, lists of texts, and tables.

ghost use Rattle.std.specs.Prelude.{◌≡◌, ℕ, Result, Ok, Err, None, IfOk, IfErr, IfNone, map, find, not, option_map, string_bytes};
ghost use Rattle.std.specs.BTreeMap.{keys};
ghost use Rattle.std.specs.Option.{option_copied};
ghost use Rattle.toml.specs.Data.{Members, get_member};
ghost use Rattle.toml.specs.View.{view, items_view, table_view};
ghost use Rattle.spdx_requirement.specs.Failures.{IfRefused};
ghost use Rattle.spdx_policy.specs.Shape as spec;
ghost use Rattle.spdx_policy.specs.Shape.{Shape, shape_of};

use crate::error::{Key, Kind, Place, Section, ShapeFault};
use spdx_requirement::failure::Failure;
use std::alloc::{AllocError, Global};
use toml::{Table, Value};

// The fault of a text that is none of the words that may stand there.
pub(crate) fn unknown_word<A: Drop>(
    alloc: Global,
    place: Place,
    word: &str,
) -> Result<A, Failure<ShapeFault>>
    ensures refused { IfErr result (IfRefused (λ f.
        shape_of f ≡ spec.unknown_word place word.now)) }
    ensures never { IfOk result (λ _. ⊥) }
{
    let word = String::from_str(alloc, word)?;
    Err(Failure::Refused(ShapeFault::UnknownWord(place, word)))
}

fn member<'t>(members: &'t Table, key: &str) -> Option<&'t Value>
    ensures { option_map (λ v. view v.now) result ≡ get_member key.now (table_view members.now) }
{
    members.get(key)
}

fn is_known(known: &[Key], key: &str) -> bool
    ensures { result ≡ spec.is_known known.now key.now }
{
    known.iter().any(|word| word.word() == key)
}

fn unknown_of<'t>(members: &'t Table, known: &[Key]) -> Option<&'t String>
    ensures { option_copied result
        ≡ find (λ k. not (spec.is_known known.now (string_bytes k))) (keys members.now) }
{
    members.keys().find(|key| !is_known(known, key.as_str()))
}

// The first key, in their order by bytes, that is none of the known ones.
fn first_unknown<'t>(members: &'t Table, known: &[Key]) -> Option<&'t str>
    ensures { option_copied result ≡ spec.first_unknown known.now (table_view members.now) }
{
    let key = unknown_of(members, known)?;
    Some(key.as_str())
}

/// Refuses a table with other keys.
pub(crate) fn only(
    alloc: Global,
    members: &Table,
    section: Section,
    known: &[Key],
) -> Result<(), Failure<ShapeFault>>
    ensures ok { IfOk result (λ _.
        spec.first_unknown known.now (table_view members.now) ≡ None) }
    ensures err { IfErr result (IfRefused (λ f.
        spec.only section (spec.first_unknown known.now (table_view members.now))
        ≡ Err (shape_of f))) }
{
    match first_unknown(members, known) {
        Some(key) => {
            let key = String::from_str(alloc, key)?;
            Err(Failure::Refused(ShapeFault::UnknownKey(section, key)))
        }
        None => Ok(()),
    }
}

/// The text at a key, if anything stands there.
pub(crate) fn text_at<'t>(
    members: &'t Table,
    section: Section,
    key: Key,
) -> Result<Option<&'t str>, Failure<ShapeFault>>
    ensures ok { IfOk result (λ text.
        spec.text_at section key (table_view members.now) ≡ Ok (option_copied text)) }
    ensures err { IfErr result (IfRefused (λ f.
        spec.text_at section key (table_view members.now) ≡ Err (shape_of f))) }
{
    let Some(value) = member(members, key.word()) else {
        return Ok(None);
    };
    match value.as_str() {
        Some(text) => Ok(Some(text)),
        None => {
            let place = Place::whole(section, key);
            Err(Failure::Refused(ShapeFault::WrongKind(place, Kind::Text)))
        }
    }
}

/// A copy of the text at a key, if anything stands there.
pub(crate) fn copy_at(
    alloc: Global,
    members: &Table,
    section: Section,
    key: Key,
) -> Result<Option<String>, Failure<ShapeFault>>
    ensures ok { IfOk result (λ text.
        spec.text_at section key (table_view members.now) ≡ Ok (option_map string_bytes text)) }
    ensures err { IfErr result (IfRefused (λ f.
        spec.text_at section key (table_view members.now) ≡ Err (shape_of f))) }
{
    match text_at(members, section, key)? {
        Some(text) => Ok(Some(String::from_str(alloc, text)?)),
        None => Ok(None),
    }
}

/// A copy of the text that has to stand at a key.
pub(crate) fn required_at(
    alloc: Global,
    members: &Table,
    section: Section,
    key: Key,
) -> Result<String, Failure<ShapeFault>>
    ensures ok { IfOk result (λ text.
        spec.required_at section key (table_view members.now) ≡ Ok (string_bytes text)) }
    ensures err { IfErr result (IfRefused (λ f.
        spec.required_at section key (table_view members.now) ≡ Err (shape_of f))) }
{
    match text_at(members, section, key)? {
        Some(text) => Ok(String::from_str(alloc, text)?),
        None => Err(Failure::Refused(ShapeFault::Missing(Place::whole(section, key)))),
    }
}

// The texts that items are, if each of them is one.
fn texts_of(
    alloc: Global,
    items: &Vec<Value>,
    section: Section,
    key: Key,
) -> Result<Vec<String>, Failure<ShapeFault>>
    ensures ok { IfOk result (λ texts.
        spec.texts_from section key 0 (items_view items.now.items)
        ≡ Ok (map string_bytes texts.items)) }
    ensures err { IfErr result (IfRefused (λ f.
        spec.texts_from section key 0 (items_view items.now.items) ≡ Err (shape_of f))) }
{
    let mut texts = Vec::new(alloc);
    for (index, item) in items.iter().enumerate() {
        match item.as_str() {
            Some(text) => texts.push(String::from_str(alloc, text)?)?,
            None => {
                let place = Place::one(section, key, index);
                return Err(Failure::Refused(ShapeFault::WrongKind(place, Kind::Text)));
            }
        }
    }
    Ok(texts)
}

/// The list of texts at a key; none stands for an empty one.
pub(crate) fn texts_at(
    alloc: Global,
    members: &Table,
    section: Section,
    key: Key,
) -> Result<Vec<String>, Failure<ShapeFault>>
    ensures ok { IfOk result (λ texts. spec.texts_at section key (table_view members.now)
        ≡ Ok (map string_bytes texts.items)) }
    ensures err { IfErr result (IfRefused (λ f.
        spec.texts_at section key (table_view members.now) ≡ Err (shape_of f))) }
{
    let Some(value) = member(members, key.word()) else {
        return Ok(Vec::new(alloc));
    };
    match value.as_array() {
        Some(items) => texts_of(alloc, items, section, key),
        None => {
            let place = Place::whole(section, key);
            Err(Failure::Refused(ShapeFault::WrongKind(place, Kind::Texts)))
        }
    }
}

/// The list of texts that has to stand at a key.
pub(crate) fn required_texts_at(
    alloc: Global,
    members: &Table,
    section: Section,
    key: Key,
) -> Result<Vec<String>, Failure<ShapeFault>>
    ensures ok { IfOk result (λ texts.
        spec.required_texts_at section key (table_view members.now)
        ≡ Ok (map string_bytes texts.items)) }
    ensures err { IfErr result (IfRefused (λ f.
        spec.required_texts_at section key (table_view members.now) ≡ Err (shape_of f))) }
{
    let Some(value) = member(members, key.word()) else {
        return Err(Failure::Refused(ShapeFault::Missing(Place::whole(section, key))));
    };
    match value.as_array() {
        Some(items) => texts_of(alloc, items, section, key),
        None => {
            let place = Place::whole(section, key);
            Err(Failure::Refused(ShapeFault::WrongKind(place, Kind::Texts)))
        }
    }
}

/// A row that a table of a list is.
pub(crate) trait Row: Drop {
    ghost Shown: { Type 0 };

    ghost shown: { Self → Shown };

    ghost reads: { ℕ → Members → Result Shown Shape };

    /// The row that the members of the table of that number are, or their first fault.
    fn read(alloc: Global, number: usize, members: &Table) -> Result<Self, Failure<ShapeFault>>
        ensures ok { IfOk result (λ r. reads number (table_view members.now) ≡ Ok (shown r)) }
        ensures err { IfErr result (IfRefused (λ f.
            reads number (table_view members.now) ≡ Err (shape_of f))) };
}

// The row that an item of the list at a key is.
fn row_of<R: Row>(
    alloc: Global,
    item: &Value,
    key: Key,
    number: usize,
) -> Result<R, Failure<ShapeFault>>
    ensures ok { IfOk result (λ r.
        spec.row_of R.reads key number (view item.now) ≡ Ok (R.shown r)) }
    ensures err { IfErr result (IfRefused (λ f.
        spec.row_of R.reads key number (view item.now) ≡ Err (shape_of f))) }
{
    match item.as_table() {
        Some(members) => R::read(alloc, number, members),
        None => {
            let place = Place::one(Section::Policy, key, number);
            Err(Failure::Refused(ShapeFault::WrongKind(place, Kind::Table)))
        }
    }
}

// The rows that items are, if each of them is one.
fn rows_of<R: Row>(
    alloc: Global,
    items: &Vec<Value>,
    key: Key,
) -> Result<Vec<R>, Failure<ShapeFault>>
    ensures ok { IfOk result (λ rows. spec.rows_from R.reads key 0 (items_view items.now.items)
        ≡ Ok (map R.shown rows.items)) }
    ensures err { IfErr result (IfRefused (λ f.
        spec.rows_from R.reads key 0 (items_view items.now.items) ≡ Err (shape_of f))) }
{
    let mut rows = Vec::new(alloc);
    for (index, item) in items.iter().enumerate() {
        rows.push(row_of(alloc, item, key, index)?)?;
    }
    Ok(rows)
}

/// The rows of the list of tables at a key; none stands for an empty one.
pub(crate) fn rows_at<R: Row>(
    alloc: Global,
    members: &Table,
    key: Key,
) -> Result<Vec<R>, Failure<ShapeFault>>
    ensures ok { IfOk result (λ rows. spec.rows_at R.reads key (table_view members.now)
        ≡ Ok (map R.shown rows.items)) }
    ensures err { IfErr result (IfRefused (λ f.
        spec.rows_at R.reads key (table_view members.now) ≡ Err (shape_of f))) }
{
    let Some(value) = member(members, key.word()) else {
        return Ok(Vec::new(alloc));
    };
    match value.as_array() {
        Some(items) => rows_of(alloc, items, key),
        None => {
            let place = Place::whole(Section::Policy, key);
            Err(Failure::Refused(ShapeFault::WrongKind(place, Kind::Tables)))
        }
    }
}
