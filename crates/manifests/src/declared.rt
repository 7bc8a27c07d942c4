// The expressions of a manifest of any form.

ghost use Rattle.std.specs.Prelude.{◌≡◌, IfErr, IfNone, IfOk, IfSome};
ghost use Rattle.manifests.specs.Sites.{AreSites, IsError, IsLegible, Mends, Stays, reads_slash};

use crate::form::Form;
use crate::json_sites::{json_sites, json_with};
use crate::plain::{plain_sites_of, plain_with};
use crate::site::{ManifestError, Site};
use crate::toml_sites::{toml_sites, toml_with};
use std::alloc::Global;

/// Whether `/` means OR in the expressions of the form, as Cargo reads it in a `Cargo.toml`.
pub fn reads_slash(form: Form) -> bool
    ensures { result ≡ reads_slash form }
{
    form == Form::Cargo
}

/// The expressions that the bytes declare as a manifest of the form, in the order of the document's members, each at its
/// place: where its literal stands, with its quotes. Words that a form has for what is no expression are left out: npm's
/// `UNLICENSED` and `SEE LICENSE IN ..`, Composer's `proprietary`, Poetry's `Proprietary`, and those of `plain_sites`.
///
/// The bytes are read twice by the form's reader. Linear in them.
///
/// # Errors
///
/// The bytes aren't what the form is written in, as a file of fields or elements isn't that begins with a mark of UTF-16,
/// which is refused for nothing else; or it isn't known where one of the expressions stands, for the scan of
/// literals and the reader disagree; or memory was refused. The fault is told at a byte: in a file of TOML that is no UTF-8 at the
/// first that is part of no character; at byte 0 for a mark or where a place isn't known; else where the form's reader breaks off.
pub fn sites(alloc: Global, form: Form, bytes: &[u8]) -> Result<Vec<Site>, ManifestError>
    ensures ok { IfOk result (λ sites. AreSites form bytes.now sites.items) }
    ensures err { IfErr result (IsError form bytes.now) }
{
    match form {
        Form::Cargo | Form::Pyproject | Form::Reuse => toml_sites(alloc, form, bytes),
        Form::Plain(form) => plain_sites_of(alloc, form, bytes),
        _ => json_sites(alloc, form, bytes),
    }
}

/// The bytes with another text in place of the expression whose site has this number, in quotes of the kind that it had.
/// Every other byte stays. What is written is read again: it is the same document, with the new text there. `None` where no
/// text has the number, or the new text can't be written there without an escape.
///
/// The bytes are read three times by the form's reader. Linear in them.
///
/// # Errors
///
/// As `sites`.
pub fn with_expression(
    alloc: Global,
    form: Form,
    bytes: &[u8],
    number: usize,
    new: &str,
) -> Result<Option<Vec<u8>>, ManifestError>
    ensures ok { IfOk result (λ answer. IfSome answer (λ mended.
        Mends form bytes.now number new.now mended.items)) }
    ensures stays { IfOk result (λ answer. IfNone answer
        (Stays form bytes.now number new.now)) }
    ensures legible { IfOk result (λ _. IsLegible form bytes.now) }
    ensures err { IfErr result (IsError form bytes.now) }
{
    match form {
        Form::Cargo | Form::Pyproject | Form::Reuse => {
            toml_with(alloc, form, bytes, number, new)
        }
        Form::Plain(form) => plain_with(alloc, form, bytes, number, new),
        _ => json_with(alloc, bytes, number, new),
    }
}
