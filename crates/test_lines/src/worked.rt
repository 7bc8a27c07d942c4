// The worked lines, and what is written for them whole, and for each beginning of them. The licensees are Apache-2.0 and
// MIT, in this order, and the last line has no newline.

use spdx_lines::{LineMode, Summary};

/// Lines that are read whole, how many they are, and what is written for them: with a choice for each, and with one for all.
#[derive(Clone, Copy)]
pub struct Worked {
    pub mode: LineMode,
    pub input: &'static [u8],
    pub counts: Summary,
    pub each: &'static str,
    pub joint: &'static str,
}

/// The lines of mode lax.
pub const LAX: Worked = Worked {
    mode: LineMode::Lax,
    input: INPUT,
    counts: Summary {
        lines: 7,
        refused: 3,
    },
    each: EACH,
    joint: JOINT,
};

const NESTED: &[u8] = b"((MIT))\nmit\n(MIT AND Zlib) OR Apache-2.0\n\n\xff";

/// Lines of mode strict, whose canonical text is the text itself.
pub const STRICT: Worked = Worked {
    mode: LineMode::Strict,
    input: NESTED,
    counts: Summary {
        lines: 5,
        refused: 3,
    },
    each: "accepted\t((MIT))\tMIT\n\
        refused 0..3 unknown term\n\
        accepted\t(MIT AND Zlib) OR Apache-2.0\tApache-2.0\n\
        refused 0..0 empty expression\n\
        bad-utf8\n",
    joint: "accepted\t((MIT))\n\
        refused 0..3 unknown term\n\
        accepted\t(MIT AND Zlib) OR Apache-2.0\n\
        refused 0..0 empty expression\n\
        bad-utf8\n\
        all\tApache-2.0, MIT\n",
};

/// The same lines, of which the normal text is written.
pub const NORMAL: Worked = Worked {
    mode: LineMode::Normal,
    input: NESTED,
    counts: Summary {
        lines: 5,
        refused: 3,
    },
    each: "accepted\tMIT\tMIT\n\
        refused 0..3 unknown term\n\
        accepted\tMIT AND Zlib OR Apache-2.0\tApache-2.0\n\
        refused 0..0 empty expression\n\
        bad-utf8\n",
    joint: "accepted\tMIT\n\
        refused 0..3 unknown term\n\
        accepted\tMIT AND Zlib OR Apache-2.0\n\
        refused 0..0 empty expression\n\
        bad-utf8\n\
        all\tApache-2.0, MIT\n",
};

/// Mode lax.
pub const INPUT: &[u8] = b"MIT OR Apache-2.0\napache2\nmit/Zlib\n\nZlib\nMIT AND Apache-2.0\n\xff";

/// With a choice for each line.
pub const EACH: &str = "accepted\tMIT OR Apache-2.0\tApache-2.0\n\
    refused 6..7 unknown term\n\
    accepted\tMIT OR Zlib\tMIT\n\
    refused 0..0 empty expression\n\
    accepted\tZlib\tunmet\n\
    accepted\tMIT AND Apache-2.0\tApache-2.0, MIT\n\
    bad-utf8\n";

/// With one choice for all lines, which neither licensee gives the line `Zlib`.
pub const JOINT: &str = "accepted\tMIT OR Apache-2.0\n\
    refused 6..7 unknown term\n\
    accepted\tMIT OR Zlib\n\
    refused 0..0 empty expression\n\
    accepted\tZlib\n\
    accepted\tMIT AND Apache-2.0\n\
    bad-utf8\n\
    all\tunmet\n";

/// A row for each beginning of the input but the whole, the shortest first: the line that it cuts off, the answer to
/// that line, and the choice for all lines. No line is cut off behind a newline.
pub const CUTS: &str = "\
||
M|refused 0..1 unknown term|
MI|refused 0..2 unknown term|
MIT|accepted\tMIT\tMIT|MIT
MIT |accepted\tMIT\tMIT|MIT
MIT O|refused 4..5 unknown term|
MIT OR|refused 6..6 expected one of `<license>`, `(` here|
MIT OR |refused 7..7 expected one of `<license>`, `(` here|
MIT OR A|refused 7..8 unknown term|
MIT OR Ap|refused 7..9 unknown term|
MIT OR Apa|refused 7..10 unknown term|
MIT OR Apac|refused 7..11 unknown term|
MIT OR Apach|refused 7..12 unknown term|
MIT OR Apache|accepted\tMIT OR Apache-2.0\tApache-2.0|Apache-2.0
MIT OR Apache-|refused 13..14 unknown term|
MIT OR Apache-2|refused 13..15 unknown term|
MIT OR Apache-2.|refused 13..16 unknown term|
MIT OR Apache-2.0|accepted\tMIT OR Apache-2.0\tApache-2.0|Apache-2.0
||Apache-2.0
a|refused 0..1 unknown term|Apache-2.0
ap|refused 0..2 unknown term|Apache-2.0
apa|refused 0..3 unknown term|Apache-2.0
apac|refused 0..4 unknown term|Apache-2.0
apach|refused 0..5 unknown term|Apache-2.0
apache|accepted\tApache-2.0\tApache-2.0|Apache-2.0
apache2|refused 6..7 unknown term|Apache-2.0
||Apache-2.0
m|refused 0..1 unknown term|Apache-2.0
mi|refused 0..2 unknown term|Apache-2.0
mit|accepted\tMIT\tMIT|MIT
mit/|refused 4..4 expected one of `<license>`, `(` here|Apache-2.0
mit/Z|refused 4..5 unknown term|Apache-2.0
mit/Zl|refused 4..6 unknown term|Apache-2.0
mit/Zli|refused 4..7 unknown term|Apache-2.0
mit/Zlib|accepted\tMIT OR Zlib\tMIT|MIT
||MIT
||MIT
Z|refused 0..1 unknown term|MIT
Zl|refused 0..2 unknown term|MIT
Zli|refused 0..3 unknown term|MIT
Zlib|accepted\tZlib\tunmet|unmet
||unmet
M|refused 0..1 unknown term|unmet
MI|refused 0..2 unknown term|unmet
MIT|accepted\tMIT\tMIT|unmet
MIT |accepted\tMIT\tMIT|unmet
MIT A|refused 4..5 unknown term|unmet
MIT AN|refused 4..6 unknown term|unmet
MIT AND|refused 7..7 expected one of `<license>`, `(` here|unmet
MIT AND |refused 8..8 expected one of `<license>`, `(` here|unmet
MIT AND A|refused 8..9 unknown term|unmet
MIT AND Ap|refused 8..10 unknown term|unmet
MIT AND Apa|refused 8..11 unknown term|unmet
MIT AND Apac|refused 8..12 unknown term|unmet
MIT AND Apach|refused 8..13 unknown term|unmet
MIT AND Apache|accepted\tMIT AND Apache-2.0\tApache-2.0, MIT|unmet
MIT AND Apache-|refused 14..15 unknown term|unmet
MIT AND Apache-2|refused 14..16 unknown term|unmet
MIT AND Apache-2.|refused 14..17 unknown term|unmet
MIT AND Apache-2.0|accepted\tMIT AND Apache-2.0\tApache-2.0, MIT|unmet
||unmet";

/// The first lines of a text, so many, with their newlines.
pub(crate) fn first_lines(text: &str, count: usize) -> &[u8] {
    let bytes = text.as_bytes();
    let mut ended = 0usize;
    for (place, byte) in bytes.iter().enumerate() {
        if ended == count {
            return &bytes[..place];
        }
        if *byte == b'\n' {
            ended = ended.saturating_add(1);
        }
    }
    bytes
}

/// The first bytes of the input, so many, and how many lines end in them.
pub(crate) fn front_of_input(count: usize) -> (&'static [u8], usize) {
    let (front, _) = INPUT.split_at(count.min(INPUT.len()));
    let ended = front.iter().filter(|byte| **byte == b'\n').count();
    (front, ended)
}
