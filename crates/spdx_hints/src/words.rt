// The words and the numbers of a text.

ghost use Rattle.std.specs.Prelude.{◌≡◌, not, ◌||◌, take_while};
ghost use Rattle.std.specs.List.{list_all, list_any};
ghost use Rattle.std.specs.Str.{str_eq_ignore_ascii_case};
ghost use Rattle.spdx_hints.specs.Words as spec;

use spdx_requirement::endings::without;

fn is_piece_byte(byte: u8) -> bool
    ensures { result ≡ spec.is_piece_byte byte }
{
    byte.is_ascii_alphanumeric() || byte == b'.'
}

fn is_number_byte(byte: u8) -> bool
    ensures { result ≡ spec.is_number_byte byte }
{
    byte.is_ascii_digit() || byte == b'.'
}

pub(crate) fn same(a: &[u8], b: &[u8]) -> bool
    ensures { result ≡ str_eq_ignore_ascii_case a.now b.now }
{
    a.eq_ignore_ascii_case(b)
}

fn letters(piece: &[u8]) -> &[u8]
    ensures { result.now ≡ spec.letters piece.now }
{
    let count = piece
        .iter()
        .take_while(|byte| byte.is_ascii_alphabetic())
        .count();
    &piece[..count]
}

/// The word of a piece: the letters that it begins with, but for the `v` of a version.
pub(crate) fn word(piece: &[u8]) -> &[u8]
    ensures { result.now ≡ spec.word piece.now }
{
    let letters = letters(piece);
    let ends_in_v = letters.ends_with(b"v") || letters.ends_with(b"V");
    if letters.len() != piece.len() && ends_in_v {
        &letters[..letters.len() - 1]
    } else {
        letters
    }
}

fn from_digit(piece: &[u8]) -> &[u8]
    ensures { result.now ≡ spec.from_digit piece.now }
{
    let count = piece
        .iter()
        .take_while(|byte| !byte.is_ascii_digit())
        .count();
    &piece[count..]
}

fn digits(text: &[u8]) -> &[u8]
    ensures { result.now ≡ take_while spec.is_number_byte text.now }
{
    let count = text
        .iter()
        .take_while(|byte| is_number_byte(**byte))
        .count();
    &text[..count]
}

fn less<'n>(ending: &[u8], number: &'n [u8]) -> &'n [u8]
    ensures { result.now ≡ spec.less ending.now number.now }
{
    without(ending, number).unwrap_or(number)
}

/// The number of a piece, as `2` of `v2.0`.
pub(crate) fn number(piece: &[u8]) -> &[u8]
    ensures { result.now ≡ spec.number piece.now }
{
    less(b".0", less(b".", digits(from_digit(piece))))
}

fn is_noise(word: &[u8]) -> bool
    ensures { result ≡ spec.is_noise word.now }
{
    word.is_empty()
        || same(word, b"the")
        || same(word, b"a")
        || same(word, b"license")
        || same(word, b"licence")
        || same(word, b"licensed")
        || same(word, b"unlicensed")
        || same(word, b"version")
        || same(word, b"v")
        || same(word, b"gnu")
        || same(word, b"only")
        || same(word, b"or")
        || same(word, b"later")
        || same(word, b"international")
        || same(word, b"unported")
        || same(word, b"universal")
}

// Words of another licence that has most of the words.
fn names_another(word: &[u8]) -> bool
    ensures { result ≡ spec.names_another word.now }
{
    same(word, b"affero")
        || same(word, b"lesser")
        || same(word, b"library")
        || same(word, b"free")
        || same(word, b"documentation")
        || same(word, b"commons")
        || same(word, b"perl")
}

// Words of an older, a newer or a changed text.
fn names_an_age(word: &[u8]) -> bool
    ensures { result ≡ spec.names_an_age word.now }
{
    same(word, b"old")
        || same(word, b"original")
        || same(word, b"new")
        || same(word, b"revised")
        || same(word, b"simplified")
        || same(word, b"modification")
        || same(word, b"shortened")
        || same(word, b"variant")
        || same(word, b"clear")
        || same(word, b"zero")
}

// Words of a text for one project, or of what it asks besides.
fn names_a_holder(word: &[u8]) -> bool
    ensures { result ≡ spec.names_a_holder word.now }
{
    same(word, b"netbsd")
        || same(word, b"freebsd")
        || same(word, b"openbsd")
        || same(word, b"patent")
        || same(word, b"attribution")
        || same(word, b"advertising")
        || same(word, b"acknowledgement")
        || same(word, b"nuclear")
        || same(word, b"views")
        || same(word, b"protection")
}

// Words of an exception or a limit.
fn names_a_limit(word: &[u8]) -> bool
    ensures { result ≡ spec.names_a_limit word.now }
{
    same(word, b"classpath")
        || same(word, b"exception")
        || same(word, b"font")
        || same(word, b"invariants")
        || same(word, b"commercial")
        || same(word, b"noncommercial")
        || same(word, b"derivatives")
        || same(word, b"sharealike")
}

// Whether the word makes another licence of one, as `Affero` does.
fn is_telling(word: &[u8]) -> bool
    ensures { result ≡ spec.is_telling word.now }
{
    names_another(word) || names_an_age(word) || names_a_holder(word) || names_a_limit(word)
}

fn is_kept(name: &[u8], full_name: &[u8], word: &[u8]) -> bool
    ensures { result ≡ spec.is_kept name.now full_name.now word.now }
{
    !is_telling(word) || has_word(name, word) || has_word(full_name, word)
}

/// Whether every telling word of the phrase is one of either text.
pub(crate) fn keeps_telling(name: &[u8], full_name: &[u8], phrase: &[u8]) -> bool
    ensures { result ≡ spec.keeps_telling name.now full_name.now phrase.now }
{
    phrase
        .split(|byte| !is_piece_byte(*byte))
        .all(|piece| is_kept(name, full_name, word(piece)))
}

pub(crate) fn has_word(text: &[u8], wanted: &[u8]) -> bool
    ensures { result ≡ spec.has_word text.now wanted.now }
{
    text.split(|byte| !is_piece_byte(*byte))
        .any(|piece| same(word(piece), wanted))
}

fn has_number(text: &[u8], wanted: &[u8]) -> bool
    ensures { result ≡ spec.has_number text.now wanted.now }
{
    text.split(|byte| !is_piece_byte(*byte))
        .any(|piece| number(piece) == wanted)
}

/// Whether every word of `a` is one of `b`, noise aside.
pub(crate) fn has_words(b: &[u8], a: &[u8]) -> bool
    ensures { result ≡ spec.has_words b.now a.now }
{
    a.split(|byte| !is_piece_byte(*byte))
        .all(|piece| is_noise(word(piece)) || has_word(b, word(piece)))
}

/// Whether every number of `a` is one of `b`.
pub(crate) fn has_numbers(b: &[u8], a: &[u8]) -> bool
    ensures { result ≡ spec.has_numbers b.now a.now }
{
    a.split(|byte| !is_piece_byte(*byte)).all(|piece| number(piece).is_empty()
        || has_number(b, number(piece)))
}
