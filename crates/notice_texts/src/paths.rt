// Paths that stay inside a folder.

ghost use Rattle.std.specs.Prelude.{◌≡◌};
ghost use Rattle.notice_texts.specs.Paths as spec;

use crate::names::name_in;

fn is_clean(part: &[u8]) -> bool
    ensures { result ≡ spec.is_clean part.now }
{
    part.iter().all(|byte| !(*byte == 0 || *byte == b'\\'))
}

fn is_dot(part: &[u8]) -> bool
    ensures { result ≡ spec.is_dot part.now }
{
    part == b".".as_slice()
}

fn is_step(part: &[u8]) -> bool
    ensures { result ≡ spec.is_step part.now }
{
    !part.is_empty() && part != b"..".as_slice() && is_clean(part)
}

/// Whether the path leads to something below the folder that it begins from.
pub(crate) fn is_inside(path: &[u8]) -> bool
    ensures { result ≡ spec.is_inside path.now }
{
    path.split(|byte| *byte == b'/').all(|part| is_step(part)) && !is_dot(name_in(path))
}
