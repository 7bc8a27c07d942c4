// The parts of names that are versions.

ghost use Rattle.std.specs.Prelude.{◌≡◌, ◌||◌, ◌==◌};
ghost use Rattle.std.specs.Char.{is_ascii_digit};
ghost use Rattle.std.specs.List.{list_all};
ghost use Rattle.spdx_requirement.specs.Versions as spec;

fn is_version_byte(byte: u8) -> bool
    ensures { result ≡ (is_ascii_digit byte || byte == 46) }
{
    byte.is_ascii_digit() || byte == b'.'
}

/// Whether a part of a name is a version: of digits and dots alone.
pub fn is_version(part: &[u8]) -> bool
    ensures { result ≡ spec.is_version part.now }
{
    part.iter().all(|byte| is_version_byte(*byte))
}
