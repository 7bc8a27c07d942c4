// The mending of a manifest, one expression behind the other.

ghost use Rattle.std.specs.Prelude.{◌≡◌, ◌||◌, ◌++◌, ◌∷◌, [], IfErr, IfNone, IfOk, IfSome, OnErr, OnOk, Some, string_bytes};
ghost use Rattle.manifests.specs.Sites.{IsError, Mends, Stays};
ghost use Rattle.file_fixes.specs.ManifestFixing.{Fate, bytes_after};
ghost use Rattle.file_fixes.specs.ManifestProgress.{IsErrorWithin, IsSoFar, IsStepped, texts_in};

use crate::need::{Need, need_of};
use manifests::{Form, ManifestError, Site, with_expression};
use spdx_catalogue::Catalogue;
use std::alloc::{AllocError, Global};

/// A manifest to be mended.
#[derive(Clone, Copy)]
pub(crate) struct Manifest<'m> {
    pub catalogue: &'m Catalogue,
    pub form: Form,
    pub bytes: &'m [u8],
}

/// How far the mending of a manifest has come.
#[derive(Drop)]
pub(crate) struct Mending {
    /// The bytes, where some expression is replaced.
    pub bytes: Option<Vec<u8>>,
    /// Whether an expression is left that is refused.
    pub is_left: bool,
    /// What is to be declared.
    pub texts: Vec<Vec<u8>>,
}

// One more expression, which stays.
fn keep(mending: &mut Mending, text: Vec<u8>, is_left: bool) -> Result<(), AllocError>
    ensures bytes { OnOk result (mending.new.bytes ≡ mending.old.bytes) }
    ensures left { OnOk result (mending.new.is_left ≡ (mending.old.is_left || is_left)) }
    ensures texts { OnOk result (texts_in mending.new.texts.items
        ≡ texts_in mending.old.texts.items ++ text.items ∷ []) }
{
    mending.texts.push(text)?;
    mending.is_left = mending.is_left || is_left;
    Ok(())
}

// One more expression, whose fix stands in the bytes.
fn replace(mending: &mut Mending, bytes: Vec<u8>, fix: String) -> Result<(), AllocError>
    ensures bytes { OnOk result (mending.new.bytes ≡ Some bytes) }
    ensures left { OnOk result (mending.new.is_left ≡ mending.old.is_left) }
    ensures texts { OnOk result (texts_in mending.new.texts.items
        ≡ texts_in mending.old.texts.items ++ string_bytes fix ∷ []) }
{
    mending.texts.push(fix.into_bytes())?;
    mending.bytes = Some(bytes);
    Ok(())
}

// The bytes so far, with the fix in place of the expression of that number, if it can be written there.
fn with_fix(
    alloc: Global,
    manifest: &Manifest<'_>,
    mended: &Option<Vec<u8>>,
    number: usize,
    fix: &str,
) -> Result<Option<Vec<u8>>, ManifestError>
    ensures mends { IfOk result (λ answer. IfSome answer (λ new.
        Mends manifest.now.form (bytes_after manifest.now.bytes.now mended.now)
        number fix.now new.items)) }
    ensures stays { IfOk result (λ answer. IfNone answer
        (Stays manifest.now.form (bytes_after manifest.now.bytes.now mended.now)
        number fix.now)) }
    ensures err { IfErr result (IsError manifest.now.form
        (bytes_after manifest.now.bytes.now mended.now)) }
{
    match mended {
        Some(bytes) => with_expression(alloc, manifest.form, bytes, number, fix),
        None => with_expression(alloc, manifest.form, manifest.bytes, number, fix),
    }
}

// Mends one more expression, if it needs that.
fn mend_site(
    alloc: Global,
    manifest: &Manifest<'_>,
    mending: &mut Mending,
    site: Site,
) -> Result<(), ManifestError>
    ensures ok { OnOk result ((fate : Fate)
        × IsStepped manifest.now.catalogue.now manifest.now.form manifest.now.bytes.now
        site fate mending.old mending.new) }
    ensures err { IfErr result (IsError manifest.now.form
        (bytes_after manifest.now.bytes.now mending.old.bytes)) }
{
    match need_of(alloc, manifest.catalogue, manifest.form, &site.text)? {
        Need::Nothing => keep(mending, site.text, false)?,
        Need::Help => keep(mending, site.text, true)?,
        Need::Fix(fix) => {
            match with_fix(alloc, manifest, &mending.bytes, site.number, fix.as_str())? {
                Some(bytes) => replace(mending, bytes, fix)?,
                None => keep(mending, site.text, true)?,
            }
        }
    }
    Ok(())
}

/// Mends each of the expressions that a manifest declares, in their order, so far as they need it.
pub(crate) fn mend_sites(
    alloc: Global,
    manifest: &Manifest<'_>,
    found: Vec<Site>,
) -> Result<Mending, ManifestError>
    ensures ok { IfOk result (IsSoFar manifest.now.catalogue.now manifest.now.form
        manifest.now.bytes.now found.items []) }
    ensures err { IfErr result (IsErrorWithin manifest.now.catalogue.now manifest.now.form
        manifest.now.bytes.now found.items) }
{
    let mut mending = Mending {
        bytes: None,
        is_left: false,
        texts: Vec::new(alloc),
    };
    for site in found {
        mend_site(alloc, manifest, &mut mending, site)?;
    }
    Ok(mending)
}
