// What stands behind a field's name, or behind the dash of an item.

ghost use Rattle.std.specs.Prelude.{◌≡◌, ◌≤◌, IsTrue, IfSome, length};
ghost use Rattle.std.specs.List.{prefix_len};
ghost use Rattle.std.specs.Char.{is_ascii_whitespace};
ghost use Rattle.std.specs.Option.{option_copied};
ghost use Rattle.text_places.specs.Names.{
  is_one_of,
  behind_blanks,
  begins_comment,
  begins_with_name,
  field_text,
  item_text,
};

use crate::field_lines::Grammar;

pub fn is_one_of(set: &[u8], byte: u8) -> bool
    ensures { result ≡ is_one_of set.now byte }
{
    set.iter().any(|other| *other == byte)
}

// How many blanks stand at the front.
fn blank_len(text: &[u8]) -> usize
    ensures value { result ≡ prefix_len is_ascii_whitespace text.now }
    ensures within { result ≤ length text.now }
{
    text.iter()
        .take_while(|byte| byte.is_ascii_whitespace())
        .count()
}

pub fn behind_blanks(text: &[u8]) -> &[u8]
    ensures value { result.now ≡ behind_blanks text.now }
    ensures within { length result.now ≤ length text.now }
{
    &text[blank_len(text)..]
}

// How many bytes of the set stand at the front.
fn run_len(set: &[u8], text: &[u8]) -> usize
    ensures value { result ≡ prefix_len (is_one_of set.now) text.now }
    ensures within { result ≤ length text.now }
{
    text.iter()
        .take_while(|byte| is_one_of(set, **byte))
        .count()
}

pub fn begins_comment(mark: &[u8], text: &[u8]) -> bool
    ensures { result ≡ begins_comment mark.now text.now }
{
    !mark.is_empty() && text.starts_with(mark)
}

fn begins_with_name(name: &[u8], is_any_case: bool, text: &[u8]) -> bool
    ensures value { result ≡ begins_with_name name.now is_any_case text.now }
    ensures within { IsTrue result → length name.now ≤ length text.now }
{
    if !is_any_case {
        return text.starts_with(name);
    }
    match text.get(..name.len()) {
        Some(front) => front.eq_ignore_ascii_case(name),
        None => false,
    }
}

/// What stands behind the name and the separator of the field's line.
pub fn field_text<'t>(grammar: &Grammar<'_>, line: &'t [u8]) -> Option<&'t [u8]>
    ensures value { option_copied result ≡ field_text grammar.now line.now }
    ensures within { IfSome result (λ text. length text.now ≤ length line.now) }
{
    let text = &line[run_len(grammar.before, line)..];
    if !begins_with_name(grammar.name, grammar.is_any_case, text) {
        return None;
    }
    match behind_blanks(&text[grammar.name.len()..]) {
        [separator, behind @ ..] if is_one_of(grammar.separators, *separator) => {
            Some(behind_blanks(behind))
        }
        _ => None,
    }
}

/// What stands behind the dash of an item's line.
pub fn item_text(line: &[u8]) -> Option<&[u8]>
    ensures value { option_copied result ≡ item_text line.now }
    ensures within { IfSome result (λ text. length text.now ≤ length line.now) }
{
    match behind_blanks(line) {
        [b'-', blank, behind @ ..] if blank.is_ascii_whitespace() => Some(behind_blanks(behind)),
        _ => None,
    }
}
