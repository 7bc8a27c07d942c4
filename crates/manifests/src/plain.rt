// The expressions of a file of fields or elements.

ghost use Rattle.std.specs.Prelude.{◌≡◌, IfErr, IfOk, IfSome, IfNone, false};
ghost use Rattle.plain_manifests.specs.Sites.{MendsPlain, StaysPlain};
ghost use Rattle.manifests.specs.Sites.{AreEach, AreSitesOfPlain, IsErrorBy, IsFaultOfPlain};
ghost use Rattle.manifests.specs.Sites as spec;

use crate::site::{Fault, ManifestError, Reason, Site};
use plain_manifests::{PlainForm, PlainSite, plain_sites, with_plain_text};
use std::alloc::{AllocError, Global};

// Whether a mark at the beginning tells the bytes to be UTF-16.
fn is_utf16(bytes: &[u8]) -> bool
    ensures { result ≡ spec.is_utf16 bytes.now }
{
    bytes.starts_with(&[0xFF, 0xFE]) || bytes.starts_with(&[0xFE, 0xFF])
}

// Refuses what isn't read byte by byte.
#[tactic(auto, using(crate::proofs::Marks::no_utf8))]
fn legible(bytes: &[u8]) -> Result<(), ManifestError>
    ensures ok { IfOk result (λ _. spec.is_utf16 bytes.now ≡ false) }
    ensures err { IfErr result (IsErrorBy (IsFaultOfPlain bytes.now)) }
{
    if is_utf16(bytes) {
        return Err(ManifestError::Refused(Fault {
            reason: Reason::NotUtf8,
            offset: 0,
        }));
    }
    Ok(())
}

/// The expressions that a file of fields or elements declares, each at its place.
pub(crate) fn plain_sites_of(
    alloc: Global,
    form: PlainForm,
    bytes: &[u8],
) -> Result<Vec<Site>, ManifestError>
    ensures ok { IfOk result (λ sites. AreSitesOfPlain form bytes.now sites.items) }
    ensures err { IfErr result (IsErrorBy (IsFaultOfPlain bytes.now)) }
{
    legible(bytes)?;
    let found = plain_sites(alloc, form, bytes)?;
    Ok(sites_from(alloc, found)?)
}

/// The bytes with another text in place of the declared one of that number.
pub(crate) fn plain_with(
    alloc: Global,
    form: PlainForm,
    bytes: &[u8],
    number: usize,
    new: &str,
) -> Result<Option<Vec<u8>>, ManifestError>
    ensures ok { IfOk result (λ answer. IfSome answer (λ mended.
        MendsPlain form bytes.now number new.now mended.items)) }
    ensures stays { IfOk result (λ answer. IfNone answer
        (StaysPlain form bytes.now number new.now)) }
    ensures legible { IfOk result (λ _. spec.is_utf16 bytes.now ≡ false) }
    ensures err { IfErr result (IsErrorBy (IsFaultOfPlain bytes.now)) }
{
    legible(bytes)?;
    Ok(with_plain_text(alloc, form, bytes, number, new)?)
}

// The sites, as those of other forms are.
fn sites_from(alloc: Global, found: Vec<PlainSite>) -> Result<Vec<Site>, AllocError>
    ensures { IfOk result (λ sites. AreEach found.items sites.items) }
{
    let mut sites = Vec::new(alloc);
    for site in found {
        sites.push(Site {
            span: site.span,
            quotes: 0,
            number: site.number,
            text: site.text,
        })?;
    }
    Ok(sites)
}
