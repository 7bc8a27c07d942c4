//! Text in a page of HTML, which nobody who wrote the text can make markup of.
//!
//! `specs/PageHead.antt` says what a page begins with that loads nothing, runs nothing and hides nothing of its body; the
//! crates that write pages prove it of theirs.

ghost use Rattle.std.specs.Prelude.{◌≡◌, ◌++◌, Some, OnOk, OnErr, encode_utf8, length, take};
ghost use Rattle.foreign_text.specs.PageText.{HasNoHidden, HasNoMarkup, is_blank, is_hidden, page_text, page_char, read_text, shown_text};

use std::alloc::AllocError;

/// Appends the text to a page, to stand in an element or in an attribute's value between quotes, single or double. What
/// would be markup is an entity: `&amp;`, `&lt;`, `&gt;`, `&quot;` and `&#39;`. A character that is not seen, and is
/// none of HTML's blanks (tab, newline, form feed, carriage return), is `U+FFFD`: a control character, a mark of format (a
/// direction, a width of zero, a tag), a separator of lines or paragraphs, or one that Unicode has not assigned.
///
/// # Errors
///
/// Memory was refused, and the page is as it was.
pub fn put_text(page: &mut Vec<u8>, text: &str) -> Result<(), AllocError>
    ensures ok { OnOk result (page.new.items ≡ page.old.items ++ page_text text.now) }
    ensures err { OnErr result (page.new.items ≡ page.old.items) }
    ensures no_markup { HasNoMarkup (page_text text.now) }
    ensures reads_back { read_text (page_text text.now) ≡ Some (shown_text text.now) }
    ensures exact { HasNoHidden text.now → read_text (page_text text.now) ≡ Some text.now }
{
    let before = page.len();
    let put = put_chars(page, text);
    if put.is_err() {
        page.truncate(before);
    }
    put
}

fn put_chars(page: &mut Vec<u8>, text: &str) -> Result<(), AllocError>
    ensures ok { OnOk result (page.new.items ≡ page.old.items ++ page_text text.now) }
    ensures err { OnErr result (take (length page.old.items) page.new.items ≡ page.old.items) }
{
    for letter in text.chars() {
        put_char(page, letter)?;
    }
    Ok(())
}

fn put_char(page: &mut Vec<u8>, letter: char) -> Result<(), AllocError>
    ensures ok { OnOk result (page.new.items ≡ page.old.items ++ page_char letter) }
    ensures err { OnErr result (page.new.items ≡ page.old.items) }
{
    match letter {
        '&' => page.extend_from_slice(b"&amp;"),
        '<' => page.extend_from_slice(b"&lt;"),
        '>' => page.extend_from_slice(b"&gt;"),
        '"' => page.extend_from_slice(b"&quot;"),
        '\'' => page.extend_from_slice(b"&#39;"),
        hidden if is_hidden(hidden) => put_seen(page, '\u{fffd}'),
        seen => put_seen(page, seen),
    }
}

fn put_seen(page: &mut Vec<u8>, letter: char) -> Result<(), AllocError>
    ensures ok { OnOk result (page.new.items ≡ page.old.items ++ encode_utf8 letter) }
    ensures err { OnErr result (page.new.items ≡ page.old.items) }
{
    let mut bytes = [0u8; 4];
    page.extend_from_slice(letter.encode_utf8(&mut bytes).as_bytes())
}

// Whether the character is not shown as it is, and is none of HTML's blanks.
fn is_hidden(letter: char) -> bool
    ensures { result ≡ is_hidden letter }
{
    !is_blank(letter) && crate::hidden::is_hidden(letter)
}

fn is_blank(letter: char) -> bool
    ensures { result ≡ is_blank letter }
{
    matches!(letter, '\t' | '\n' | '\x0c' | '\r')
}
