// What a manifest declares, and why it can't be told.

ghost use Rattle.std.specs.Prelude.{◌≡◌, map, slice_get};
ghost use Rattle.std.specs.Option.{option_copied};
ghost use Rattle.manifests.specs.declared.site.ManifestError.TheVariants.{Refused};
ghost use Rattle.manifests.specs.declared.site.Reason.TheVariants.{NoPlace};

use std::alloc::{AllocError, AllocFailed};
use text_places::Span;

/// An expression that a manifest declares.
#[derive(Drop, Debug)]
pub struct Site {
    /// Where it is written, with its quotes.
    pub span: Span,
    /// How many bytes of quotes stand before it, and as many behind it.
    pub quotes: usize,
    /// Its number among the texts that the manifest has where licenses are declared, from 0.
    pub number: usize,
    /// The expression, without the escapes of the form.
    pub text: Vec<u8>,
}

/// What is wrong in a manifest.
#[derive(Clone, Copy, PartialEq, Eq, Debug)]
pub enum Reason {
    /// It is no UTF-8.
    NotUtf8,
    /// It is no JSON, or nests deeper than 127.
    NotJson,
    /// It is no TOML, or nests too deep.
    NotToml,
    /// It isn't known where an expression stands that it declares.
    NoPlace,
}

/// What is wrong in a manifest, and at which byte.
#[derive(Clone, Copy, PartialEq, Eq, Debug)]
pub struct Fault {
    pub reason: Reason,
    pub offset: usize,
}

/// Why the expressions of a manifest aren't told.
#[derive(Clone, Copy, PartialEq, Eq, Debug)]
pub enum ManifestError {
    /// The file isn't what it is called.
    Refused(Fault),
    /// Memory was refused.
    NoMemory,
}

impl From<AllocError> for ManifestError {
    ghost use Rattle.std.specs.Prelude.{◌≡◌};
    ghost use Rattle.manifests.specs.declared.site.ManifestError.TheVariants.{NoMemory};

    ghost from_gives = { λ _ e. e ≡ NoMemory };

    fn from(_error: AllocError) -> ManifestError {
        ManifestError::NoMemory
    }
}

impl<T: Drop> From<AllocFailed<T>> for ManifestError {
    ghost use Rattle.std.specs.Prelude.{◌≡◌};
    ghost use Rattle.manifests.specs.declared.site.ManifestError.TheVariants.{NoMemory};

    ghost from_gives = { λ _ e. e ≡ NoMemory };

    fn from(_failed: AllocFailed<T>) -> ManifestError {
        ManifestError::NoMemory
    }
}

// The fault that a text which is declared has no place that is known.
pub(crate) fn no_place() -> ManifestError
    ensures { result ≡ Refused (record { reason = NoPlace; offset = 0 }) }
{
    ManifestError::Refused(Fault {
        reason: Reason::NoPlace,
        offset: 0,
    })
}

/// The text of that number.
pub(crate) fn text_of<'d>(texts: &[&'d str], number: usize) -> Option<&'d str>
    ensures { option_copied result ≡ slice_get (map (λ t. t.now) texts.now) number }
{
    match texts.get(number) {
        Some(text) => Some(*text),
        None => None,
    }
}
