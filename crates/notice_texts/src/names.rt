// Which licence the name of a file says.

ghost use Rattle.std.specs.Prelude.{◌≡◌, ◌≤◌, IsTrue, length, map};
ghost use Rattle.std.specs.List.{list_any};
ghost use Rattle.notice_texts.specs.Names as spec;

use crate::words::NICKNAMES;

/// What stands behind the last `/`.
pub(crate) fn name_in(path: &[u8]) -> &[u8]
    ensures { result.now ≡ spec.name_in path.now }
{
    let count = path.iter().rev().take_while(|byte| **byte != b'/').count();
    &path[path.len() - count..]
}

/// Whether two texts are equal, the case of ASCII letters aside.
fn same(a: &[u8], b: &[u8]) -> bool
    ensures { result ≡ spec.same a.now b.now }
{
    a.eq_ignore_ascii_case(b)
}

/// Whether the text begins with the word, the case of ASCII letters aside.
pub(crate) fn begins(text: &[u8], word: &[u8]) -> bool
    ensures { result ≡ spec.begins text.now word.now }
{
    text.len() >= word.len() && same(&text[..word.len()], word)
}

fn ends(text: &[u8], ending: &[u8]) -> bool
    ensures value { result ≡ spec.ends text.now ending.now }
    ensures long { IsTrue result → length ending.now ≤ length text.now }
{
    text.len() >= ending.len() && same(&text[text.len() - ending.len()..], ending)
}

fn is_separator(byte: u8) -> bool
    ensures { result ≡ spec.is_separator byte }
{
    byte == b'-' || byte == b'.' || byte == b'_' || byte == b' '
}

fn behind_separator(text: &[u8]) -> &[u8]
    ensures { result.now ≡ spec.behind_separator text.now }
{
    match text {
        [first, rest @ ..] if is_separator(*first) => rest,
        _ => &[],
    }
}

fn without_ending(text: &[u8]) -> &[u8]
    ensures { result.now ≡ spec.without_ending text.now }
{
    if ends(text, b".txt") {
        &text[..text.len() - 4]
    } else if ends(text, b".rst") {
        &text[..text.len() - 4]
    } else if ends(text, b".md") {
        &text[..text.len() - 3]
    } else if ends(text, b".html") {
        &text[..text.len() - 5]
    } else {
        text
    }
}

// What stands behind a word of this length and a separator.
fn tag_behind(len: usize, name: &[u8]) -> &[u8]
    ensures { result.now ≡ spec.tag_behind len name.now }
{
    match name.get(len..) {
        Some(rest) => without_ending(behind_separator(rest)),
        None => &[],
    }
}

// What the name says behind its word.
fn tag_of(name: &[u8]) -> &[u8]
    ensures { result.now ≡ spec.tag_of name.now }
{
    if begins(name, b"unlicense") {
        b"unlicense"
    } else if begins(name, b"license") || begins(name, b"licence") || begins(name, b"copying") {
        tag_behind(7, name)
    } else if begins(name, b"copyright") {
        tag_behind(9, name)
    } else {
        &[]
    }
}

fn begins_with_letter(text: &[u8]) -> bool
    ensures { result ≡ spec.begins_with_letter text.now }
{
    match text {
        [first, ..] => first.is_ascii_alphabetic(),
        [] => false,
    }
}

// Whether the licence's name begins with the word, and no letter follows.
fn is_of(license: &[u8], word: &[u8]) -> bool
    ensures { result ≡ spec.is_of license.now word.now }
{
    begins(license, word) && !begins_with_letter(&license[word.len()..])
}

fn first_word(line: &[u8]) -> &[u8]
    ensures { result.now ≡ spec.first_word line.now }
{
    let count = line.iter().take_while(|byte| **byte != b' ').count();
    &line[..count]
}

fn has_word(line: &[u8], wanted: &[u8]) -> bool
    ensures { result ≡ list_any (λ word. spec.same word wanted.now) (spec.words line.now) }
{
    line.split(|byte| *byte == b' ')
        .any(|word| same(word, wanted))
}

fn is_nickname_in(tag: &[u8], license: &[u8], line: &[u8]) -> bool
    ensures { result ≡ spec.is_nickname_in tag.now license.now line.now }
{
    is_of(license, first_word(line)) && has_word(line, tag)
}

#[tactic(auto, unfolding(crate::specs::Names::stands_for))]
fn stands_for(tag: &[u8], license: &[u8]) -> bool
    ensures { result ≡ spec.stands_for tag.now license.now }
{
    same(tag, license)
        || NICKNAMES
            .as_bytes()
            .split(|byte| *byte == b'\n')
            .any(|line| is_nickname_in(tag, license, line))
}

fn is_of_tag(tag: &[u8], license: &&str) -> bool
    ensures { result ≡ spec.stands_for tag.now license.now.now }
{
    stands_for(tag, license.as_bytes())
}

fn stands_for_one(tag: &[u8], licenses: &[&str]) -> bool
    ensures { result ≡ list_any (spec.stands_for tag.now) (map (λ t. t.now) licenses.now) }
{
    licenses.iter().any(|license| is_of_tag(tag, license))
}

/// Whether the name of the file says one of these licences.
pub(crate) fn says_one(name: &[u8], licenses: &[&str]) -> bool
    ensures { result ≡ spec.says_one name.now (map (λ t. t.now) licenses.now) }
{
    let tag = tag_of(name);
    !tag.is_empty() && stands_for_one(tag, licenses)
}
