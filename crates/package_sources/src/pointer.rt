// Whether a text is a JSON pointer.

ghost use Rattle.std.specs.Prelude.{◌≡◌, Ok, Err, IfOk, IfErr};
ghost use Rattle.package_sources.specs.Pointer as spec;
ghost use Rattle.package_items.specs.Rows.{Says};

use package_items::{SourceError, SourceFault};
use std::alloc::Global;

fn begins_escape(bytes: &[u8]) -> bool
    ensures { result ≡ spec.begins_escape bytes.now }
{
    bytes.starts_with(b"0") || bytes.starts_with(b"1")
}

fn is_escaped(bytes: &[u8]) -> bool
    ensures { result ≡ spec.is_escaped bytes.now }
{
    let mut rest = bytes;
    while let [byte, more @ ..] = rest {
        if *byte == b'~' && !begins_escape(more) {
            return false;
        }
        rest = more;
    }
    true
}

fn is_pointer(text: &str) -> bool
    ensures { result ≡ spec.is_pointer text.now }
{
    let bytes = text.as_bytes();
    bytes.is_empty() || bytes.starts_with(b"/") && is_escaped(bytes)
}

/// Refuses a text that is no pointer.
#[tactic(auto, unfolding(crate::specs::Pointer::checked))]
pub(crate) fn checked(alloc: Global, text: &str) -> Result<(), SourceError>
    ensures ok { IfOk result (λ _. spec.checked text.now ≡ Ok text.now) }
    ensures err { IfErr result (Says (λ f. spec.checked text.now ≡ Err f)) }
{
    if is_pointer(text) {
        return Ok(());
    }
    Err(SourceError::Refused(SourceFault::NotPointer(String::from_str(alloc, text)?)))
}
