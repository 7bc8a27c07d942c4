//! Texts put into buffers.

ghost use Rattle.spdx_calls.specs.Buffer.{IsPut};

/// How a text went into a buffer.
#[derive(Clone, Copy, PartialEq, Eq, Debug)]
pub enum Put {
    /// It stands at the front, and has so many bytes.
    Whole(usize),
    /// It has so many bytes, more than the buffer. Nothing was written.
    Short(usize),
}

/// Puts the text at the front of the buffer, whole or not at all. What stands behind it stays.
pub fn put_text(text: &[u8], out: &mut [u8]) -> Put
    ensures { IsPut text.now out.old out.new result }
{
    let len = text.len();
    if out.len() < len {
        return Put::Short(len);
    }
    out[..len].copy_from_slice(text);
    Put::Whole(len)
}
