// Tags, comments and CDATA.

ghost use Rattle.std.specs.Prelude.{◌≡◌, ◌≤◌, ◌<◌, ◌+◌, ◌^◌, IfSome, length};
ghost use Rattle.std.specs.List.{prefix_len};
ghost use Rattle.std.specs.Char.{is_ascii_whitespace};
ghost use Rattle.std.specs.Option.{option_copied};
ghost use Rattle.text_places.specs.Tags.{
  through,
  comment_len,
  name_end,
  trimmed_len,
  blank_span,
  tag_len,
  text_len,
  is_open_tag,
  ends_element,
  element_behind,
};

use crate::Span;
use crate::element_texts::Element;

// How many bytes there are up to the end of the mark; all of them where it doesn't occur.
fn through(mark: &[u8], text: &[u8]) -> usize
    ensures value { result ≡ through mark.now text.now }
    ensures within { result ≤ length text.now }
{
    for i in 0..text.len() {
        if text[i..].starts_with(mark) {
            return i + mark.len();
        }
    }
    text.len()
}

/// How long the comment or CDATA is that the text begins with, or 0.
pub fn comment_len(text: &[u8]) -> usize
    ensures value { result ≡ comment_len text.now }
    ensures within { result ≤ length text.now }
{
    if text.starts_with(b"<!--") {
        4 + through(b"-->", &text[4..])
    } else if text.starts_with(b"<![CDATA[") {
        9 + through(b"]]>", &text[9..])
    } else {
        0
    }
}

/// What stands behind `<` and the name at the front of the text.
pub fn name_end<'t>(name: &[u8], text: &'t [u8]) -> Option<&'t [u8]>
    ensures value { option_copied result ≡ name_end name.now text.now }
    ensures within { IfSome result (λ behind. length behind.now < length text.now) }
{
    match text {
        [b'<', behind @ ..] if behind.starts_with(name) => Some(&behind[name.len()..]),
        _ => None,
    }
}

// How many blanks stand at the front.
fn blank_len(text: &[u8]) -> usize
    ensures value { result ≡ prefix_len is_ascii_whitespace text.now }
    ensures within { result ≤ length text.now }
{
    text.iter()
        .take_while(|byte| byte.is_ascii_whitespace())
        .count()
}

// How long it is without the blanks at its end.
fn trimmed_len(text: &[u8]) -> usize
    ensures value { result ≡ trimmed_len text.now }
    ensures within { result ≤ length text.now }
{
    text.trim_ascii_end().len()
}

// Where these bytes, which begin there, stand without the blanks round them.
fn blank_span(start: usize, bytes: &[u8]) -> Span
    requires { start + length bytes.now < 2 ^ 64 }
    ensures value { result ≡ blank_span start bytes.now }
{
    let front = blank_len(bytes);
    Span {
        start: start + front,
        end: start + front + trimmed_len(&bytes[front..]),
    }
}

// How many bytes stand before the first `<` or `>`.
fn tag_len(text: &[u8]) -> usize
    ensures value { result ≡ tag_len text.now }
    ensures within { result ≤ length text.now }
{
    text.iter()
        .take_while(|byte| **byte != b'<' && **byte != b'>')
        .count()
}

// How many bytes stand before the first `<`.
fn text_len(text: &[u8]) -> usize
    ensures value { result ≡ text_len text.now }
    ensures within { result ≤ length text.now }
{
    text.iter().take_while(|byte| **byte != b'<').count()
}

fn is_open_tag(attributes: &[u8]) -> bool
    ensures { result ≡ is_open_tag attributes.now }
{
    match attributes {
        [] => true,
        [first, ..] => first.is_ascii_whitespace() && !attributes.ends_with(b"/"),
    }
}

fn ends_element(name: &[u8], text: &[u8]) -> bool
    ensures { result ≡ ends_element name.now text.now }
{
    match text {
        [b'<', b'/', behind @ ..] if behind.starts_with(name) => {
            let rest = &behind[name.len()..];
            rest[blank_len(rest)..].starts_with(b">")
        }
        _ => false,
    }
}

/// The element whose tag goes on with these bytes behind its name, at the end of the file, and how many bytes are left
/// behind its text.
pub fn element_behind(name: &[u8], end: usize, behind: &[u8]) -> Option<(Element, usize)>
    requires { length behind.now ≤ end }
    ensures value { result ≡ element_behind name.now end behind.now }
    ensures within { IfSome result (λ found. found.1 ≤ length behind.now) }
{
    let tag = tag_len(behind);
    let [b'>', inner @ ..] = &behind[tag..] else {
        return None;
    };
    let text = text_len(inner);
    if !is_open_tag(&behind[..tag]) || !ends_element(name, &inner[text..]) {
        return None;
    }
    let element = Element {
        attributes: blank_span(end - behind.len(), &behind[..tag]),
        text: blank_span(end - inner.len(), &inner[..text]),
    };
    Some((element, inner.len() - text))
}
