// The devices of the engine, over a reader and a writer of std.

ghost use Rattle.std.specs.Prelude.{◌≡◌, ◌-◌, ◌^◌, false};
ghost use Rattle.line_engine.specs.Device.{told};
ghost use Rattle.line_engine.specs.Stream.{reader_of, left_in, input_failed, writer_of, output_failed};

use crate::device::{Failed, Sink, Source};
use std::io::{Read, Write};

#[cfg(test)]
mod tests;

/// A reader, which gives `u64::MAX` bytes at most. It fails where the reader answers an error, and where more bytes are
/// asked for than that. Once it has failed, the reader isn't asked again.
#[derive(Drop)]
pub struct Input<R> {
    inner: R,
    left: u64,
    has_failed: bool,
}

impl<R: Read> Input<R> {
    /// Has not failed.
    pub fn new(inner: R) -> Input<R>
        ensures inner { reader_of result ≡ inner }
        ensures told { ⟦<Input<R> as Source>⟧.told result ≡ told (R.remaining inner) false }
        ensures left { ⟦<Input<R> as Source>⟧.left result ≡ 2 ^ 64 - 1 }
    {
        Input {
            inner,
            left: u64::MAX,
            has_failed: false,
        }
    }

    /// The reader, behind the bytes that were read.
    pub fn into_inner(self) -> R
        ensures inner { result ≡ reader_of self }
        ensures remaining { R.remaining result ≡ (⟦<Input<R> as Source>⟧.told self).bytes }
    {
        let Input {
            inner,
            left: _,
            has_failed: _,
        } = self;
        inner
    }
}

impl<R: Read> Source for Input<R> {
    ghost told = { λ input. told (R.remaining (reader_of input)) (input_failed input) };

    ghost left = { λ input. left_in input };

    fn read(&mut self, buffer: &mut [u8]) -> Result<usize, Failed> {
        if self.has_failed || (self.left == 0 && !buffer.is_empty()) {
            self.has_failed = true;
            return Err(Failed);
        }
        let room = (buffer.len() as u64).min(self.left) as usize;
        match self.inner.read(&mut buffer[..room]) {
            Ok(count) => {
                self.left -= count as u64;
                Ok(count)
            }
            Err(_) => {
                self.has_failed = true;
                Err(Failed)
            }
        }
    }

    fn failed(&self) -> bool {
        self.has_failed
    }
}

/// A writer. It fails where the writer answers an error, and where it takes no byte of some. Once it has failed, the
/// writer isn't asked again.
#[derive(Drop)]
pub struct Output<W> {
    inner: W,
    has_failed: bool,
}

impl<W: Write> Output<W> {
    /// Has not failed.
    pub fn new(inner: W) -> Output<W>
        ensures inner { writer_of result ≡ inner }
        ensures told { ⟦<Output<W> as Sink>⟧.told result ≡ told (W.contents inner) false }
    {
        Output {
            inner,
            has_failed: false,
        }
    }

    /// The writer, with the bytes that it took.
    pub fn into_inner(self) -> W
        ensures inner { result ≡ writer_of self }
        ensures contents { W.contents result ≡ (⟦<Output<W> as Sink>⟧.told self).bytes }
    {
        let Output {
            inner,
            has_failed: _,
        } = self;
        inner
    }
}

impl<W: Write> Sink for Output<W> {
    ghost told = { λ output. told (W.contents (writer_of output)) (output_failed output) };

    fn write(&mut self, bytes: &[u8]) -> Result<usize, Failed> {
        if self.has_failed {
            return Err(Failed);
        }
        match self.inner.write(bytes) {
            Ok(count) if count > 0 || bytes.is_empty() => Ok(count),
            _ => {
                self.has_failed = true;
                Err(Failed)
            }
        }
    }

    fn flush(&mut self) -> Result<(), Failed> {
        if self.has_failed {
            return Err(Failed);
        }
        match self.inner.flush() {
            Ok(()) => Ok(()),
            Err(_) => {
                self.has_failed = true;
                Err(Failed)
            }
        }
    }

    fn failed(&self) -> bool {
        self.has_failed
    }
}
