//! Texts that were judged, each once under the same exceptions.

ghost use Rattle.std.specs.Prelude.{◌≡◌, ◌++◌, true, IfOk, MatchOption, OnOk, flat_map, string_bytes};
ghost use Rattle.spdx_gate.specs.Reports.{IsAt};
ghost use Rattle.spdx_gate.specs.Benches.{Adds, IsIndex, IsUnknown, Notes, key_of, number_key, places_at};

use crate::judgement::{Judgement, judge_text};
use spdx_catalogue::Catalogue;
use spdx_policy::Policy;
use std::alloc::{AllocError, Global};
use std::collections::BTreeMap;

/// A text under some exceptions, and the key by which its judgement is looked up.
#[derive(Clone, Copy)]
struct Sought<'t> {
    exceptions: &'t [usize],
    text: &'t str,
    key: &'t str,
}

// The place of the judgement of this text under these exceptions, which is made if there is none.
// `by_key` says where such judgements may stand, so that only those are looked at.
pub(crate) fn place_of<'c>(
    alloc: Global,
    catalogue: &'c Catalogue,
    policy: &Policy<'c>,
    exceptions: &[usize],
    text: &str,
    judgements: &mut Vec<Judgement<'c>>,
    by_key: &mut BTreeMap<String, Vec<usize>>,
) -> Result<usize, AllocError>
    requires { IsIndex by_key.old judgements.old.items }
    ensures place { IfOk result (λ place.
        IsAt judgements.new.items exceptions.now text.now place) }
    ensures adds { IfOk result (λ _. Adds catalogue.now policy.now exceptions.now text.now
        judgements.old.items judgements.new.items) }
    ensures index { IfOk result (λ _. IsIndex by_key.new judgements.new.items) }
{
    // without exceptions the text is its own key
    let longer = if exceptions.is_empty() {
        String::new(alloc)
    } else {
        key_of(alloc, exceptions, text)?
    };
    let key = if exceptions.is_empty() {
        text
    } else {
        longer.as_str()
    };
    let sought = Sought {
        exceptions,
        text,
        key,
    };
    place_by_key(alloc, catalogue, policy, sought, judgements, by_key)
}

// The same by its key.
fn place_by_key<'c>(
    alloc: Global,
    catalogue: &'c Catalogue,
    policy: &Policy<'c>,
    sought: Sought<'_>,
    judgements: &mut Vec<Judgement<'c>>,
    by_key: &mut BTreeMap<String, Vec<usize>>,
) -> Result<usize, AllocError>
    requires key { sought.key.now ≡ key_of sought.exceptions.now sought.text.now }
    requires index { IsIndex by_key.old judgements.old.items }
    ensures place { IfOk result (λ place.
        IsAt judgements.new.items sought.entry.exceptions.now sought.entry.text.now place) }
    ensures adds { IfOk result (λ _. Adds catalogue.now policy.now sought.entry.exceptions.now
        sought.entry.text.now judgements.old.items judgements.new.items) }
    ensures index { IfOk result (λ _. IsIndex by_key.new judgements.new.items) }
{
    if let Some(place) = known_place(judgements.as_slice(), by_key, sought) {
        return Ok(place);
    }
    let Sought {
        exceptions,
        text,
        key,
    } = sought;
    let outcome = judge_text(alloc, catalogue, policy, exceptions, text)?;
    let place = judgements.len();
    note(by_key, String::from_str(alloc, key)?, place)?;
    let judgement = Judgement {
        text: String::from_str(alloc, text)?,
        exceptions: Vec::from_slice(alloc, exceptions)?,
        outcome,
    };
    judgements.push(judgement)?;
    Ok(place)
}

// The key of a text under some exceptions: their numbers, and then the text.
fn key_of(alloc: Global, exceptions: &[usize], text: &str) -> Result<String, AllocError>
    ensures { IfOk result (λ key. string_bytes key ≡ key_of exceptions.now text.now) }
{
    let mut key = String::new(alloc);
    put_numbers(&mut key, exceptions)?;
    key.push_str(text)?;
    Ok(key)
}

fn put_numbers(key: &mut String, numbers: &[usize]) -> Result<(), AllocError>
    ensures { OnOk result (string_bytes key.new ≡
        string_bytes key.old ++ flat_map number_key numbers.now) }
{
    for number in numbers {
        put_number(key, *number)?;
    }
    Ok(())
}

fn put_number(key: &mut String, number: usize) -> Result<(), AllocError>
    ensures { OnOk result (string_bytes key.new ≡ string_bytes key.old ++ number_key number) }
{
    match write!(key, "{number} ") {
        Ok(()) => Ok(()),
        Err(_) => Err(AllocError),
    }
}

// One place more under a key.
fn note(
    by_key: &mut BTreeMap<String, Vec<usize>>,
    key: String,
    place: usize,
) -> Result<(), AllocError>
    ensures { IfOk result (λ _. Notes by_key.old (string_bytes key) place by_key.new) }
{
    by_key.entry(key)?.or_default().push(place)?;
    Ok(())
}

// The place of the judgement of this text under these exceptions, if there is one.
fn known_place(
    judgements: &[Judgement<'_>],
    by_key: &BTreeMap<String, Vec<usize>>,
    sought: Sought<'_>,
) -> Option<usize>
    requires key { sought.key.now ≡ key_of sought.exceptions.now sought.text.now }
    requires index { IsIndex by_key.now judgements.now }
    ensures { MatchOption result
        (IsUnknown judgements.now sought.entry.exceptions.now sought.entry.text.now)
        (λ place. IsAt judgements.now sought.entry.exceptions.now sought.entry.text.now place) }
{
    let places = places_under(by_key, sought.key);
    for place in places {
        if is_at(judgements, *place, sought.exceptions, sought.text) {
            return Some(*place);
        }
    }
    None
}

// Where judgements of this key may stand.
fn places_under<'m>(by_key: &'m BTreeMap<String, Vec<usize>>, key: &str) -> &'m [usize]
    ensures { result.now ≡ places_at by_key.now key.now }
{
    match by_key.get(key) {
        Some(places) => places.as_slice(),
        None => &[],
    }
}

// Whether the judgement of this text under these exceptions stands at the place.
fn is_at(judgements: &[Judgement<'_>], place: usize, exceptions: &[usize], text: &str) -> bool
    ensures told { result ≡ true → IsAt judgements.now exceptions.now text.now place }
    ensures found { IsAt judgements.now exceptions.now text.now place → result ≡ true }
{
    match judgements.get(place) {
        Some(judgement) => judgement.is_of(exceptions, text),
        None => false,
    }
}
