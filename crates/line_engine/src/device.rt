// What the engine reads from and writes to.

ghost use Rattle.std.specs.Prelude.{◌≡◌, ℕ, ◌<◌, ◌≤◌, true, length, IfOk, IsErr, is_err};
ghost use Rattle.std.specs.Io.KnownBytes.{Keeps, ReadConsumes, WriteAppends};
ghost use Rattle.line_engine.specs.Device.{Told, FallsByCount};

/// A read or a write that did not happen.
#[derive(Clone, Copy, PartialEq, Eq, Debug)]
pub struct Failed;

/// What gives bytes, until it fails.
pub trait Source {
    // The bytes still to come, where the device tells them, and whether it has failed. One that has failed stays so.
    ghost told: { Self → Told };

    // How many bytes it gives at most, whether it tells them or not.
    ghost left: { Self → ℕ };

    // What is known of one that has failed, since only such may fail.
    ghost MayFail: { Self → Type 0 } = { λ _. Unit {0} };

    /// Reads into the front of the buffer, and says how many bytes it read: none only at the end of the input, or
    /// where the buffer is empty. `Err` reads none, and each later read is `Err` too.
    fn read(&mut self, buffer: &mut [u8]) -> Result<usize, Failed>
        ensures bound { IfOk result (λ count. count ≤ length buffer.new) }
        ensures bytes { ReadConsumes (told self.old).bytes (told self.new).bytes result buffer.new }
        ensures falls { FallsByCount (left self.old) (left self.new) result }
        ensures marks { (told self.new).has_failed ≡ is_err result }
        ensures stays { (told self.old).has_failed ≡ true → IsErr result }
        ensures fails { IsErr result → MayFail self.old }
        ensures same { MayFail self.new → MayFail self.old };

    /// Whether a read has failed.
    fn failed(&self) -> bool
        ensures failed { result ≡ (told self.now).has_failed }
        ensures fails { result ≡ true → MayFail self.now };
}

/// What takes bytes, until it fails.
pub trait Sink {
    // The bytes taken so far, where the device tells them, and whether it has failed. One that has failed stays so.
    ghost told: { Self → Told };

    /// Takes bytes from the front, and says how many: at least one, unless there are none. `Err` takes none, and each
    /// later write or flush is `Err` too.
    fn write(&mut self, bytes: &[u8]) -> Result<usize, Failed>
        ensures bound { IfOk result (λ count. count ≤ length bytes.now) }
        ensures some { IfOk result (λ count. 0 < length bytes.now → 0 < count) }
        ensures bytes { WriteAppends (told self.old).bytes (told self.new).bytes result bytes.now }
        ensures marks { (told self.new).has_failed ≡ is_err result }
        ensures stays { (told self.old).has_failed ≡ true → IsErr result };

    /// Hands on what was taken. It takes no byte.
    fn flush(&mut self) -> Result<(), Failed>
        ensures bytes { Keeps (told self.old).bytes (told self.new).bytes }
        ensures marks { (told self.new).has_failed ≡ is_err result }
        ensures stays { (told self.old).has_failed ≡ true → IsErr result };

    /// Whether a write or a flush has failed.
    fn failed(&self) -> bool
        ensures { result ≡ (told self.now).has_failed };
}
