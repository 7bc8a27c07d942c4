// What stands between tabs and form feeds.

ghost use Rattle.std.specs.Prelude.{◌≡◌, option_map};
ghost use Rattle.list_program.specs.Cells as spec;

use memchr::memchr;

/// What stands before the first tab of a line, and what behind it; none, where there is no tab.
pub(crate) fn at_tab(line: &str) -> Option<(&str, &str)>
    ensures { option_map (λ p. (p.0.now, p.1.now)) result ≡ spec.at_tab line.now }
{
    match memchr(b'\t', line.as_bytes()) {
        Some(at) => Some((&line[..at], &line[at + 1..])),
        None => None,
    }
}

/// What stands before the first form feed, and what behind it.
pub(crate) fn at_feed(text: &str) -> Option<(&str, &str)>
    ensures { option_map (λ p. (p.0.now, p.1.now)) result ≡ spec.at_feed text.now }
{
    text.split_once('\u{c}')
}

/// Flags: one byte, counted from `0`.
pub(crate) fn flags_in(cell: &str) -> Option<u8>
    ensures { result ≡ spec.flags_in cell.now }
{
    match cell.as_bytes() {
        [flags] => Some(flags.saturating_sub(48)),
        _ => None,
    }
}
