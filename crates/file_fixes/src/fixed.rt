// What becomes of a manifest.

ghost use Rattle.std.specs.Prelude.{◌≡◌, IfErr, IfOk, false, true};
ghost use Rattle.manifests.specs.Sites.{IsError};
ghost use Rattle.file_fixes.specs.ManifestFixing.{Declares, DeclaresOther, FixLaws, IsErrorOf, IsFixed, texts_of};
ghost use Rattle.file_fixes.specs.ManifestProgress.{IsErrorAfter, IsSettled, texts_in};

use crate::FixedManifest;
use crate::manifest_mending::{Manifest, Mending, mend_sites};
use manifests::{Form, ManifestError, Site, sites};
use spdx_catalogue::Catalogue;
use std::alloc::Global;

// Whether the expressions are these texts.
fn are_texts(sites: &[Site], texts: &[Vec<u8>]) -> bool
    ensures same { result ≡ true → texts_of sites.now ≡ texts_in texts.now }
    ensures other { result ≡ false → texts_of sites.now ≡ texts_in texts.now → ⊥ }
{
    if sites.len() != texts.len() {
        return false;
    }
    for (index, site) in sites.iter().enumerate() {
        if site.text != texts[index] {
            return false;
        }
    }
    true
}

// Whether the manifest declares these texts.
fn declares(
    alloc: Global,
    form: Form,
    bytes: &[u8],
    texts: &[Vec<u8>],
) -> Result<bool, ManifestError>
    ensures yes { IfOk result (λ is. is ≡ true
        → Declares form bytes.now (texts_in texts.now)) }
    ensures no { IfOk result (λ is. is ≡ false
        → DeclaresOther form bytes.now (texts_in texts.now)) }
    ensures err { IfErr result (IsError form bytes.now) }
{
    let again = sites(alloc, form, bytes)?;
    Ok(are_texts(&again, texts))
}

// What becomes of a manifest, by its mending: where the new bytes declare something else, nothing is replaced.
fn settled(alloc: Global, form: Form, mending: Mending) -> Result<FixedManifest, ManifestError>
    ensures ok { IfOk result (IsSettled form mending) }
    ensures err { IfErr result (IsErrorAfter form mending) }
{
    let Mending {
        bytes,
        is_left,
        texts,
    } = mending;
    let Some(new) = bytes else {
        return Ok(FixedManifest {
            bytes: None,
            is_left,
        });
    };
    if declares(alloc, form, &new, &texts)? {
        Ok(FixedManifest {
            bytes: Some(new),
            is_left,
        })
    } else {
        Ok(FixedManifest {
            bytes: None,
            is_left: true,
        })
    }
}

/// The manifest, with each declared expression that a reader of its form refuses replaced by its fix (`spdx_canonical::fix`), and no
/// other byte changed. Such a reader reads strictly, but takes `/` for OR in a `Cargo.toml`. What it accepts stays. So does an
/// expression that has no fix or is no UTF-8, and one whose fix can't be written in its place (`manifests::with_expression`).
///
/// The bytes that come of it are read again: they declare each fix, and every other expression as it was. Where they don't,
/// nothing is replaced. The reader accepts each fix, so what was replaced needs nothing the next time.
///
/// `bytes` is `None` where nothing is replaced, and `is_left` says whether an expression that is declared then is refused.
///
/// The cost is that of `manifests::sites` over the bytes, and again over those that come of it; of `spdx_canonical::fix` for each
/// expression; and of `manifests::with_expression` for each fix, which reads all bytes: many fixes cost as many passes.
///
/// # Errors
///
/// `manifests::sites` refuses the bytes, or those that come of the first of the changes; or memory was refused.
pub fn fix_manifest(
    alloc: Global,
    catalogue: &Catalogue,
    form: Form,
    bytes: &[u8],
) -> Result<FixedManifest, ManifestError>
    ensures ok { IfOk result (λ fixed.
        IsFixed catalogue.now form bytes.now fixed.bytes fixed.is_left) }
    ensures err { IfErr result (IsErrorOf catalogue.now form bytes.now) }
    ensures laws { IfOk result (λ fixed. FixLaws catalogue.now form bytes.now fixed) }
{
    let manifest = Manifest {
        catalogue,
        form,
        bytes,
    };
    let found = sites(alloc, form, bytes)?;
    let mending = mend_sites(alloc, &manifest, found)?;
    settled(alloc, form, mending)
}
