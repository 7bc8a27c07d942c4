// Foreign text in one line.

ghost use Rattle.std.specs.Prelude.{◌≡◌, Some, chars, length, take, flat_map};
ghost use Rattle.spdx_policy.specs.Escaped as spec;

use std::fmt;

// How many characters of a text are shown.
const SHOWN: usize = 80;

/// A text as it is shown in a message: in one line, with what a terminal obeys escaped, and cut
/// short behind 80 characters.
#[derive(Clone, Copy)]
pub(crate) struct Escaped<'a>(pub &'a str);

// Whether a terminal may obey the character: a control character, a separator of lines, or a mark
// that turns the direction of what follows.
fn is_obeyed(letter: char) -> bool
    ensures { result ≡ spec.is_obeyed letter }
{
    letter.is_control()
        || matches!(
            letter,
            '\u{61c}'
                | '\u{200e}'..='\u{200f}'
                | '\u{2028}'..='\u{202e}'
                | '\u{2066}'..='\u{2069}'
        )
}

// A character as it is shown in a message.
#[derive(Clone, Copy)]
struct Shown(char);

impl fmt::Display for Shown {
    ghost output = { λ s. Some (spec.char_shown s.0) };

    fn fmt<W: fmt::Write>(&self, f: &mut fmt::Formatter<W>) -> fmt::Result {
        let letter = self.0;
        if is_obeyed(letter) {
            write!(f, "\\u{{{:x}}}", letter as u32)
        } else {
            write!(f, "{letter}")
        }
    }
}

// The characters of a text that are shown.
#[derive(Clone, Copy)]
struct Front<'a>(&'a str);

impl fmt::Display for Front<'_> {
    ghost output = { λ t. Some (flat_map spec.char_shown (take 80 (chars t.0.now))) };

    fn fmt<W: fmt::Write>(&self, f: &mut fmt::Formatter<W>) -> fmt::Result {
        for letter in self.0.chars().take(SHOWN) {
            let shown = Shown(letter);
            write!(f, "{shown}")?;
        }
        Ok(())
    }
}

fn count_of(text: &str) -> usize
    ensures { result ≡ length (chars text.now) }
{
    text.chars().count()
}

// What is shown for the others.
fn dots(text: &str) -> &'static str
    ensures { result.now ≡ spec.dots text.now }
{
    if SHOWN < count_of(text) { ".." } else { "" }
}

impl fmt::Display for Escaped<'_> {
    ghost output = { λ e. Some (spec.shown e.0.now) };

    fn fmt<W: fmt::Write>(&self, f: &mut fmt::Formatter<W>) -> fmt::Result {
        let front = Front(self.0);
        write!(f, "{front}{}", dots(self.0))
    }
}

/// The same between quotes.
#[derive(Clone, Copy)]
pub(crate) struct Quoted<'a>(pub &'a str);

impl fmt::Display for Quoted<'_> {
    ghost output = { λ q. Some (spec.quoted q.0.now) };

    fn fmt<W: fmt::Write>(&self, f: &mut fmt::Formatter<W>) -> fmt::Result {
        let text = Escaped(self.0);
        write!(f, "\"{text}\"")
    }
}
