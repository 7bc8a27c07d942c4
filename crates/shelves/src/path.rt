//! What a path of a command stands for: `-` for standard input, and any other for the file there.

ghost use Rattle.std.specs.Prelude.{◌≡◌, IfErr, IfOk};
ghost use Rattle.shelves.specs.AtPath.{FailsAt, IsContent, is_input, told_path};

use crate::shelf::Shelf;
use std::alloc::Global;
use std::io;

/// Whether the path stands for standard input.
pub fn is_input(path: &str) -> bool
    ensures value { result ≡ is_input path.now }
{
    path == "-"
}

/// The path as it is told: `<stdin>` for standard input.
pub fn told_path(path: &str) -> &str
    ensures value { result.now ≡ told_path path.now }
{
    if is_input(path) { "<stdin>" } else { path }
}

/// The bytes of the file at the path, or of standard input.
///
/// # Errors
///
/// It can't be read, as the shelf says.
pub fn bytes_at<S: Shelf>(alloc: Global, shelf: &S, path: &str) -> io::Result<Vec<u8>>
    ensures ok { IfOk result (λ bytes. IsContent (S.told shelf.now) path.now bytes.items) }
    ensures err { IfErr result (FailsAt (S.told shelf.now) path.now) }
{
    if is_input(path) {
        shelf.input(alloc)
    } else {
        shelf.read(alloc, path)
    }
}
