// Texts with their words, by which they are looked up.

ghost use Rattle.std.specs.Prelude.{◌≡◌, [], IfOk, OnOk, map, option_map, unwrap_or};
ghost use Rattle.notice_texts.specs.Shared.{own, shared_of};
ghost use Rattle.notice_texts.specs.Entries.{entry, entry_of, firsts, shared_by, holders_at, Notes, Takes, HasEach};

use crate::text_words::lines_of_words;
use crate::texts::{Holder, OwnText, SharedText};
use std::alloc::{AllocError, Global};
use std::collections::BTreeMap;

/// A text, and its words, a line each.
#[derive(Drop)]
pub(crate) struct Keyed<'t> {
    pub(crate) key: Vec<u8>,
    pub(crate) text: OwnText<'t>,
}

/// The texts with their words.
pub(crate) fn with_keys<'t>(
    alloc: Global,
    texts: &[OwnText<'t>],
) -> Result<Vec<Keyed<'t>>, AllocError>
    ensures { IfOk result (λ v. map entry_of v.items ≡ map entry (map own texts.now)) }
{
    let mut keyed = Vec::new(alloc);
    for text in texts {
        keyed.push(Keyed {
            key: lines_of_words(alloc, text.bytes)?,
            text: *text,
        })?;
    }
    Ok(keyed)
}

// What stands under the key, which is taken away.
fn take<'k, 't>(
    holders: &mut BTreeMap<&'k [u8], Vec<Holder<'t>>>,
    key: &'k [u8],
) -> Option<Vec<Holder<'t>>>
    ensures taken { option_map (λ v. v.items) result ≡ holders_at holders.old key.now }
    ensures left { Takes holders.old key.now holders.new }
{
    holders.remove(&key)
}

// The same, or nothing.
fn take_all<'k, 't>(
    alloc: Global,
    holders: &mut BTreeMap<&'k [u8], Vec<Holder<'t>>>,
    key: &'k [u8],
) -> Vec<Holder<'t>>
    ensures taken { result.items ≡ unwrap_or (holders_at holders.old key.now) [] }
    ensures left { Takes holders.old key.now holders.new }
{
    match take(holders, key) {
        Some(taken) => taken,
        None => Vec::new(alloc),
    }
}

// One file more under a key.
fn note<'k, 't>(
    alloc: Global,
    holders: &mut BTreeMap<&'k [u8], Vec<Holder<'t>>>,
    key: &'k [u8],
    holder: Holder<'t>,
) -> Result<(), AllocError>
    ensures { OnOk result (Notes holders.old key.now holder.entry holders.new) }
{
    let mut noted = take_all(alloc, holders, key);
    noted.push(holder)?;
    holders.insert(key, noted)?;
    Ok(())
}

/// The files that have each text, by its words.
pub(crate) fn holders_by_key<'k, 't>(
    alloc: Global,
    keyed: &'k [Keyed<'t>],
) -> Result<BTreeMap<&'k [u8], Vec<Holder<'t>>>, AllocError>
    ensures { IfOk result (λ m. HasEach m (map entry_of keyed.now)) }
{
    let mut holders = BTreeMap::new(alloc);
    for one in keyed {
        note(alloc, &mut holders, one.key.as_slice(), one.text.holder)?;
    }
    Ok(holders)
}

/// Each text as the first file has it, with all files that have it.
pub(crate) fn shared<'k, 't>(
    alloc: Global,
    keyed: &'k [Keyed<'t>],
) -> Result<Vec<SharedText<'t>>, AllocError>
    ensures { IfOk result (λ v. map shared_of v.items
        ≡ map (shared_by (map entry_of keyed.now)) (firsts (map entry_of keyed.now))) }
{
    let mut holders = holders_by_key(alloc, keyed)?;
    let mut shared = Vec::new(alloc);
    for one in keyed {
        if let Some(holders) = take(&mut holders, one.key.as_slice()) {
            shared.push(SharedText {
                bytes: one.text.bytes,
                holders,
            })?;
        }
    }
    Ok(shared)
}
