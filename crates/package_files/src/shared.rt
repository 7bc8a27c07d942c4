// The references that two documents have.

ghost use Rattle.std.specs.Prelude.{◌↔◌, ◌++◌, ◌∷◌, [], ℕ, List, IfOk, OnOk, Contains, map};
ghost use Rattle.std.specs.List.Sorted.{IsStrictlySortedBy};
ghost use Rattle.package_files.specs.Documents.{Shared, documents_of, text_cmp};
ghost use Rattle.package_files.specs.Mentions.{AreNoted, MentionRow, Twice, first_of, mention_row};

use crate::mentions::{Mention, all_mentions};
use package_items::Package;
use std::alloc::{AllocError, Global};
use std::collections::BTreeMap;

// Notes a mention: its document if none is noted for its reference, or that another one is.
fn note<'p>(
    first: &mut BTreeMap<&'p str, usize>,
    told: &mut Vec<&'p str>,
    mention: Mention<'p>,
) -> Result<(), AllocError>
    ensures { OnOk result ((ms : List MentionRow) →
        AreNoted ms (first_of first.old) (map (λ t. t.now) told.old.items) →
        AreNoted (ms ++ mention_row mention.entry ∷ []) (first_of first.new)
        (map (λ t. t.now) told.new.items)) }
{
    match first.get(mention.reference).copied() {
        None => {
            first.insert(mention.reference, mention.document)?;
            Ok(())
        }
        Some(document) if document == mention.document => Ok(()),
        Some(_) => Ok(told.push(mention.reference)?),
    }
}

// The references that two documents mention, some of them several times.
fn mentioned_twice<'p>(alloc: Global, mentions: &[Mention<'p>]) -> Result<Vec<&'p str>, AllocError>
    ensures { IfOk result (λ v. (r : List ℕ) →
        Contains (map (λ t. t.now) v.items) r ↔ Twice (map mention_row mentions.now) r) }
{
    let mut first = BTreeMap::new(alloc);
    let mut told = Vec::new(alloc);
    for mention in mentions {
        note(&mut first, &mut told, *mention)?;
    }
    Ok(told)
}

/// The references that stand in the licenses of two documents or more, each once, in the order of their bytes.
///
/// A reference is `LicenseRef-` with the letters, digits, `.` and `-` behind it. It stands at the start of a license's
/// text, or behind a byte that is none of these; behind a `:`, as in `DocumentRef-a:LicenseRef-b`, it is of the document
/// that is named, and isn't told. A package without a license has none.
///
/// Takes `n log n` comparisons of texts, for `n` references of all documents together, and goes over each text once.
///
/// # Errors
///
/// Memory was refused.
pub fn shared_references<'p>(
    alloc: Global,
    documents: &[&'p [Package]],
) -> Result<Vec<&'p str>, AllocError>
    // A reference is told exactly if two documents have it.
    ensures told { IfOk result (λ v. (r : List ℕ) →
        Contains (map (λ t. t.now) v.items) r ↔ Shared (documents_of documents.now) r) }
    // They ascend, and so none is told twice.
    ensures ascend { IfOk result (λ v. IsStrictlySortedBy text_cmp (map (λ t. t.now) v.items)) }
{
    let mentions = all_mentions(alloc, documents)?;
    let mut shared = mentioned_twice(alloc, mentions.as_slice())?;
    shared.sort_unstable();
    shared.dedup();
    Ok(shared)
}
