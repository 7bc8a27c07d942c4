// Where in its lines a text goes on.

ghost use Rattle.std.specs.Prelude.{◌≡◌, ◌≤◌, length, count_by};
ghost use Rattle.std.specs.List.{after_last};
ghost use Rattle.std.specs.Fmt.{is_char_start};
ghost use Rattle.spdx_policy.specs.Lines as spec;

/// The line behind the bytes, from 1.
pub(crate) fn line_behind(before: &[u8]) -> usize
    ensures { result ≡ spec.line_behind before.now }
{
    newlines(before) + 1
}

/// The character in that line, from 1.
pub(crate) fn column_behind(before: &[u8]) -> usize
    ensures { result ≡ spec.column_behind before.now }
{
    characters(line_begun(before)) + 1
}

fn newlines(bytes: &[u8]) -> usize
    ensures value { result ≡ count_by spec.is_newline bytes.now }
    ensures bound { result ≤ length bytes.now }
{
    bytes.iter().filter(|byte| **byte == b'\n').count()
}

// How many characters begin in the bytes.
fn characters(bytes: &[u8]) -> usize
    ensures value { result ≡ count_by is_char_start bytes.now }
    ensures bound { result ≤ length bytes.now }
{
    bytes
        .iter()
        .filter(|byte| **byte < 0x80 || **byte >= 0xc0)
        .count()
}

// What stands behind the last newline.
fn line_begun(before: &[u8]) -> &[u8]
    ensures { result.now ≡ after_last spec.is_newline before.now }
{
    let mut start = before.len();
    while start > 0 && before[start - 1] != b'\n' {
        start -= 1;
    }
    &before[start..]
}
