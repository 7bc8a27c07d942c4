// Who is told of troubles, and how far a walk is.

ghost use Rattle.std.specs.Prelude.{[]};
ghost use Rattle.check_files.specs.Told.{Hears};

use crate::listener::Listener;
use fix_program::Progress;

/// Who is told of troubles, and how far a walk is. To be told that adds no trouble.
pub trait Follower: Listener + Progress {
    // Where nothing but that is shown, no trouble is told.
    ghost steady: { (x y : Self) → Self.Shows x y → Hears (Self.heard x) (Self.heard y) [] };
}
