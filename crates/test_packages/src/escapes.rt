// Bytes written as text: `\n`, `\r`, `\t`, `\\` and `\xHH`.

ghost use Rattle.std.specs.Prelude.{◌≤◌, ◌<◌, IfSome, length};

use std::alloc::{AllocError, Global};

fn digit(byte: u8) -> u8
    ensures { result < 16 }
{
    match byte {
        b'0'..=b'9' => byte - b'0',
        b'a'..=b'f' => byte - b'a' + 10,
        _ => 0,
    }
}

// The first byte that the text writes, and how many bytes of the text write it.
fn first(text: &[u8]) -> Option<(u8, usize)>
    ensures some { IfSome result (λ first. 0 < first.1) }
    ensures within { IfSome result (λ first. first.1 ≤ length text.now) }
{
    match text {
        [] => None,
        [b'\\', b'n', ..] => Some((b'\n', 2)),
        [b'\\', b'r', ..] => Some((b'\r', 2)),
        [b'\\', b't', ..] => Some((b'\t', 2)),
        [b'\\', b'\\', ..] => Some((b'\\', 2)),
        [b'\\', b'x', high, low, ..] => Some((digit(*high) * 16 + digit(*low), 4)),
        [byte, ..] => Some((*byte, 1)),
    }
}

/// The bytes that the text writes.
pub(crate) fn bytes_of(alloc: Global, text: &str) -> Result<Vec<u8>, AllocError> {
    let mut bytes = Vec::new(alloc);
    let mut rest = text.as_bytes();
    while let Some((byte, len)) = first(rest) {
        bytes.push(byte)?;
        rest = &rest[len..];
    }
    Ok(bytes)
}

/// Appends the text that writes these bytes.
pub(crate) fn put_bytes(text: &mut String, bytes: &[u8]) -> Result<(), AllocError> {
    for byte in bytes {
        match *byte {
            b'\n' => text.push_str("\\n")?,
            b'\r' => text.push_str("\\r")?,
            b'\\' => text.push_str("\\\\")?,
            b' '..=b'~' => text.push(char::from(*byte))?,
            other => write!(text, "\\x{other:02x}")?,
        }
    }
    Ok(())
}
