// Several licenses of one package.

ghost use Rattle.std.specs.Prelude.{◌≡◌, Ok, Err, IfOk, IfErr, map};
ghost use Rattle.package_items.specs.Items.{each};
ghost use Rattle.package_items.specs.Rows.{Says, item_row, license_of};
ghost use Rattle.package_sources.specs.Several as spec;

use package_items::{Item, License, SourceError, license_of_all, text_of};
use serde_json::Value;
use std::alloc::Global;

/// How the entries of a list of licenses are read.
#[derive(Clone, Copy)]
pub(crate) enum Entry {
    /// Each is a text, or an object with a text at `type`.
    Npm,
    /// Each is a text.
    Text,
}

// The text of an entry.
fn entry_text<'v>(alloc: Global, kind: Entry, entry: &Item<'v>) -> Result<&'v str, SourceError>
    ensures ok { IfOk result (λ t. spec.entry_text kind (item_row entry.now) ≡ Ok t.now) }
    ensures err { IfErr result (Says (λ f. spec.entry_text kind (item_row entry.now) ≡ Err f)) }
{
    match (kind, entry.value) {
        (Entry::Npm, Value::Object(_)) => text_of(alloc, entry, "/type", entry.value.get("type")),
        _ => text_of(alloc, entry, "", Some(entry.value)),
    }
}

fn texts_in<'v>(
    alloc: Global,
    kind: Entry,
    entries: &[Item<'v>],
) -> Result<Vec<&'v str>, SourceError>
    ensures ok { IfOk result (λ ts. each (spec.entry_text kind) (map item_row entries.now)
        ≡ Ok (map (λ t. t.now) ts.items)) }
    ensures err { IfErr result (Says (λ f.
        each (spec.entry_text kind) (map item_row entries.now) ≡ Err f)) }
{
    let mut texts = Vec::new(alloc);
    for entry in entries {
        texts.push(entry_text(alloc, kind, entry)?)?;
    }
    Ok(texts)
}

/// What the entries of a list of licenses say: each is a choice.
pub(crate) fn choice_of(
    alloc: Global,
    kind: Entry,
    entries: &[Item<'_>],
) -> Result<License, SourceError>
    ensures ok { IfOk result (λ l.
        spec.choice_of kind (map item_row entries.now) ≡ Ok (license_of l)) }
    ensures err { IfErr result (Says (λ f.
        spec.choice_of kind (map item_row entries.now) ≡ Err f)) }
{
    let texts = texts_in(alloc, kind, entries)?;
    Ok(license_of_all(alloc, " OR ", texts.as_slice())?)
}
