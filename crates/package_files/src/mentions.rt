// Which document has which references.

ghost use Rattle.std.specs.Prelude.{◌≡◌, ◌++◌, IfOk, OnOk, map};
ghost use Rattle.package_items.specs.Rows.{row_of};
ghost use Rattle.package_files.specs.Documents as spec;
ghost use Rattle.package_files.specs.Documents.{documents_of};
ghost use Rattle.package_files.specs.Mentions.{mention_row, mentions_in, mentions_from};

use crate::texts::references_in;
use package_items::{License, Package};
use std::alloc::{AllocError, Global};

/// That a document has a reference: the number of the document, from 0.
#[derive(Clone, Copy)]
pub(crate) struct Mention<'p> {
    pub(crate) reference: &'p str,
    pub(crate) document: usize,
}

fn references_stated(alloc: Global, package: &Package) -> Result<Vec<&str>, AllocError>
    ensures { IfOk result (λ v.
        map (λ t. t.now) v.items ≡ spec.references_stated (row_of «package».now).license) }
{
    match &package.license {
        License::Stated(text) => references_in(alloc, text.as_str()),
        License::Unstated => Ok(Vec::new(alloc)),
    }
}

fn references_of(alloc: Global, packages: &[Package]) -> Result<Vec<&str>, AllocError>
    ensures { IfOk result (λ v.
        map (λ t. t.now) v.items ≡ spec.references_of (map row_of packages.now)) }
{
    let mut references = Vec::new(alloc);
    for package in packages {
        let mut more = references_stated(alloc, package)?;
        references.append(&mut more)?;
    }
    Ok(references)
}

// The references of a document, each with its number.
fn mentions_of<'p>(
    alloc: Global,
    document: usize,
    packages: &'p [Package],
) -> Result<Vec<Mention<'p>>, AllocError>
    ensures { IfOk result (λ v.
        map mention_row v.items ≡ mentions_in document (map row_of packages.now)) }
{
    let mut mentions = Vec::new(alloc);
    for reference in &references_of(alloc, packages)? {
        mentions.push(Mention {
            reference: *reference,
            document,
        })?;
    }
    Ok(mentions)
}

/// The references of all documents, one document behind the other.
pub(crate) fn all_mentions<'p>(
    alloc: Global,
    documents: &[&'p [Package]],
) -> Result<Vec<Mention<'p>>, AllocError>
    ensures { IfOk result (λ v.
        map mention_row v.items ≡ mentions_from 0 (documents_of documents.now)) }
{
    let mut all = Vec::new(alloc);
    for (document, packages) in documents.iter().enumerate() {
        let mut more = mentions_of(alloc, document, packages)?;
        all.append(&mut more)?;
    }
    Ok(all)
}
