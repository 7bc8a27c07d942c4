// The values of the field in a file, line by line.

ghost use Rattle.std.specs.Prelude.{◌≡◌, ◌++◌, ◌+◌, ◌<◌, ◌≤◌, ◌==◌, not, IsTrue, IfOk, length, drop};
ghost use Rattle.std.specs.List.{prefix_len};
ghost use Rattle.text_places.specs.Order.{AreInOrder};
ghost use Rattle.text_places.specs.Fields.{
  has_items,
  begins_list,
  is_passed,
  is_empty_line,
  begins_section,
  list_read,
  scalar_read,
  text_read,
  field_read,
  place_read,
  line_read,
  first_place,
  fields_of,
};
ghost use Rattle.text_places.specs.Names.{field_text};

use crate::Span;
use crate::field_lines::{Grammar, Notation};
use crate::names::{begins_comment, behind_blanks, field_text, item_text};
use crate::places::Place;
use crate::texts::{has_quotes, opening, push_listed, scalar, span_at};
use std::alloc::{AllocError, Global};

fn has_items(notation: Notation) -> bool
    ensures { result ≡ has_items notation }
{
    matches!(notation, Notation::Yaml)
}

fn begins_list(notation: Notation, text: &[u8]) -> bool
    ensures value { result ≡ begins_list notation text.now }
    ensures within { IsTrue result → 0 < length text.now }
{
    match text {
        [] => false,
        [first, ..] => has_quotes(notation) && *first == opening(notation),
    }
}

fn is_passed(grammar: &Grammar<'_>, line: &[u8]) -> bool
    ensures { result ≡ is_passed grammar.now line.now }
{
    let text = behind_blanks(line);
    text.is_empty() || begins_comment(grammar.comment, text)
}

fn is_empty_line(line: &[u8]) -> bool
    ensures { result ≡ is_empty_line line.now }
{
    match line {
        [] => true,
        [only] => *only == b'\r',
        _ => false,
    }
}

fn begins_section(section: &[u8], line: &[u8]) -> bool
    ensures { result ≡ begins_section section.now line.now }
{
    !section.is_empty() && line.starts_with(&[b'['])
}

fn read_list(
    grammar: &Grammar<'_>,
    end: usize,
    text: &[u8],
    found: &mut Vec<Span>,
) -> Result<Place, AllocError>
    requires { length text.now ≤ end }
    ensures items { IfOk result (λ _.
        found.new.items ≡ found.old.items ++ (list_read grammar.now end text.now).values) }
    ensures place { IfOk result (λ place. place ≡ (list_read grammar.now end text.now).place) }
{
    if push_listed(grammar, end, text, found)? {
        Ok(Place::InList)
    } else {
        Ok(Place::Fields)
    }
}

fn read_scalar(
    grammar: &Grammar<'_>,
    end: usize,
    text: &[u8],
    place: Place,
    found: &mut Vec<Span>,
) -> Result<Place, AllocError>
    requires { length text.now ≤ end }
    ensures items { IfOk result (λ _.
        found.new.items ≡ found.old.items ++ (scalar_read grammar.now end text.now place).values) }
    ensures place { IfOk result (λ after. after ≡ place) }
{
    if let Some(value) = scalar(grammar, false, text) {
        found.push(span_at(end - text.len(), value))?;
    }
    Ok(place)
}

fn read_text(
    grammar: &Grammar<'_>,
    end: usize,
    text: &[u8],
    found: &mut Vec<Span>,
) -> Result<Place, AllocError>
    requires { length text.now ≤ end }
    ensures items { IfOk result (λ _.
        found.new.items ≡ found.old.items ++ (text_read grammar.now end text.now).values) }
    ensures place { IfOk result (λ place. place ≡ (text_read grammar.now end text.now).place) }
{
    if begins_list(grammar.notation, text) {
        read_list(grammar, end, &text[1..], found)
    } else if has_items(grammar.notation) && is_passed(grammar, text) {
        Ok(Place::Items)
    } else {
        read_scalar(grammar, end, text, Place::Fields, found)
    }
}

fn read_field(
    grammar: &Grammar<'_>,
    end: usize,
    line: &[u8],
    found: &mut Vec<Span>,
) -> Result<Place, AllocError>
    requires { length line.now ≤ end }
    ensures items { IfOk result (λ _. found.new.items ≡
        found.old.items ++ (field_read grammar.now end (field_text grammar.now line.now)).values) }
    ensures place { IfOk result (λ place.
        place ≡ (field_read grammar.now end (field_text grammar.now line.now)).place) }
{
    match field_text(grammar, line) {
        Some(text) => read_text(grammar, end, text, found),
        None => Ok(Place::Fields),
    }
}

fn read_at(
    grammar: &Grammar<'_>,
    place: Place,
    end: usize,
    line: &[u8],
    found: &mut Vec<Span>,
) -> Result<Place, AllocError>
    requires { length line.now ≤ end }
    ensures items { IfOk result (λ _.
        found.new.items ≡ found.old.items ++ (place_read grammar.now place end line.now).values) }
    ensures place { IfOk result (λ after.
        after ≡ (place_read grammar.now place end line.now).place) }
{
    match place {
        Place::Outside => Ok(Place::Outside),
        Place::Fields => read_field(grammar, end, line, found),
        Place::InList => read_list(grammar, end, line, found),
        Place::Items => match item_text(line) {
            Some(text) => read_scalar(grammar, end, text, Place::Items, found),
            None => read_field(grammar, end, line, found),
        },
    }
}

fn read_line(
    grammar: &Grammar<'_>,
    place: Place,
    end: usize,
    line: &[u8],
    found: &mut Vec<Span>,
) -> Result<Place, AllocError>
    requires { length line.now ≤ end }
    ensures items { IfOk result (λ _.
        found.new.items ≡ found.old.items ++ (line_read grammar.now place end line.now).values) }
    ensures place { IfOk result (λ after.
        after ≡ (line_read grammar.now place end line.now).place) }
{
    if grammar.is_header && is_empty_line(line) {
        Ok(Place::Outside)
    } else if begins_section(grammar.section, line) {
        Ok(if line.starts_with(grammar.section) {
            Place::Fields
        } else {
            Place::Outside
        })
    } else if is_passed(grammar, line) {
        Ok(place)
    } else {
        read_at(grammar, place, end, line, found)
    }
}

fn first_place(grammar: &Grammar<'_>) -> Place
    ensures { result ≡ first_place grammar.now }
{
    if grammar.section.is_empty() {
        Place::Fields
    } else {
        Place::Outside
    }
}

// How many bytes stand before the first newline.
fn line_len(bytes: &[u8]) -> usize
    ensures value { result ≡ prefix_len (λ b. not (b == 10)) bytes.now }
    ensures within { result ≤ length bytes.now }
{
    bytes.iter().take_while(|byte| **byte != b'\n').count()
}

// What stands behind the first bytes and one more.
fn behind(bytes: &[u8], len: usize) -> &[u8]
    ensures { result.now ≡ drop (len + 1) bytes.now }
{
    match bytes.get(len..) {
        Some([_, rest @ ..]) => rest,
        _ => &[],
    }
}

/// The places of the field's values.
pub fn spans(alloc: Global, bytes: &[u8], grammar: &Grammar<'_>) -> Result<Vec<Span>, AllocError>
    ensures value { IfOk result (λ found. found.items ≡ fields_of grammar.now bytes.now) }
    ensures in_order { IfOk result (λ found. AreInOrder 0 found.items (length bytes.now)) }
{
    let mut found = Vec::new(alloc);
    let mut place = first_place(grammar);
    let mut rest = bytes;
    while !rest.is_empty() {
        let len = line_len(rest);
        let end = bytes.len() - rest.len() + len;
        place = read_line(grammar, place, end, &rest[..len], &mut found)?;
        rest = behind(rest, len);
    }
    Ok(found)
}
