// Sinks, and what is written to each.

ghost use Rattle.std.specs.Prelude.{◌≡◌, ◌++◌, OnOk, IfOk, Some, codes, string_bytes, flat_map, encode_utf8, chars};
ghost use Rattle.foreign_text.specs.Written.{char_for, text_for, visible, numbered, percent, percents, is_command_mark, is_property_mark, is_path_char, message_char};
ghost use Rattle.foreign_text.specs.Read.{IsSafe, read};

use crate::hidden::is_hidden;
use std::alloc::{AllocError, Global};

/// Where a text goes, which says what may not stand in it.
#[derive(Clone, Copy, Debug, PartialEq, Eq)]
pub enum Sink {
    /// One line of a terminal. A character that is not shown as it is stands as its number, as `\u{1b}`, and a
    /// backslash as two.
    Line,
    /// Lines of a terminal: as one line, but that a newline stands as it is.
    Lines,
    /// What a workflow command says: as lines, and `%25` and `%0A` for a percent sign and a newline.
    Command,
    /// The value of a property of a workflow command: besides, `%3A` and `%2C` for a colon and a comma.
    Property,
    /// The path of a URI: a byte that is none of a letter, a digit, `-`, `.`, `_`, `~` and `/` is `%` and two digits.
    Path,
    /// The message of a result in SARIF, where braces and brackets would be placeholders and links: `{{`, `}}`, `\[`,
    /// `\]`, and a backslash as two.
    Message,
}

/// The text as the sink may have it.
///
/// # Errors
///
/// Memory was refused.
pub fn text_for(alloc: Global, sink: Sink, text: &str) -> Result<String, AllocError>
    ensures value { IfOk result (λ line. string_bytes line ≡ text_for sink text.now) }
    ensures safe { IsSafe sink (text_for sink text.now) }
    ensures reads_back { read sink (text_for sink text.now) ≡ Some text.now }
{
    let mut line = String::new(alloc);
    put_text(&mut line, sink, text)?;
    Ok(line)
}

/// Appends the text as the sink may have it.
///
/// # Errors
///
/// Memory was refused, and of the text a beginning may have been appended.
pub fn put_text(line: &mut String, sink: Sink, text: &str) -> Result<(), AllocError>
    ensures ok { OnOk result (
        string_bytes line.new ≡ string_bytes line.old ++ text_for sink text.now) }
    ensures safe { IsSafe sink (text_for sink text.now) }
    ensures reads_back { read sink (text_for sink text.now) ≡ Some text.now }
{
    for letter in text.chars() {
        put_char(line, sink, letter)?;
    }
    Ok(())
}

fn put_char(line: &mut String, sink: Sink, letter: char) -> Result<(), AllocError>
    ensures { OnOk result (
        string_bytes line.new ≡ string_bytes line.old ++ char_for sink letter) }
{
    match sink {
        Sink::Line => put_visible(line, letter),
        Sink::Lines if letter == '\n' => line.push('\n'),
        Sink::Lines => put_visible(line, letter),
        Sink::Command if is_command_mark(letter) => put_percent(line, letter as u8),
        Sink::Command => put_visible(line, letter),
        Sink::Property if is_property_mark(letter) => put_percent(line, letter as u8),
        Sink::Property => put_visible(line, letter),
        Sink::Path if is_path_char(letter) => line.push(letter),
        Sink::Path => put_percents(line, letter),
        Sink::Message => put_message_char(line, letter),
    }
}

/// Appends a character as a line of a terminal may have it.
pub(crate) fn put_visible(line: &mut String, letter: char) -> Result<(), AllocError>
    ensures { OnOk result (string_bytes line.new ≡ string_bytes line.old ++ visible letter) }
{
    if letter == '\\' {
        return line.push_str("\\\\");
    }
    if is_hidden(letter) {
        return put_numbered(line, letter);
    }
    line.push(letter)
}

/// Appends a character by its number.
pub(crate) fn put_numbered(line: &mut String, letter: char) -> Result<(), AllocError>
    ensures { OnOk result (string_bytes line.new ≡ string_bytes line.old ++ numbered letter) }
{
    match write!(line, "\\u{{{:x}}}", u32::from(letter)) {
        Ok(()) => Ok(()),
        Err(_) => Err(AllocError),
    }
}

fn put_percents(line: &mut String, letter: char) -> Result<(), AllocError>
    ensures { OnOk result (
        string_bytes line.new ≡ string_bytes line.old ++ percents letter) }
{
    let mut bytes = [0u8; 4];
    for byte in letter.encode_utf8(&mut bytes).as_bytes() {
        put_percent(line, *byte)?;
    }
    Ok(())
}

fn put_percent(line: &mut String, byte: u8) -> Result<(), AllocError>
    ensures { OnOk result (string_bytes line.new ≡ string_bytes line.old ++ percent byte) }
{
    match write!(line, "%{:X}{:X}", byte / 16, byte % 16) {
        Ok(()) => Ok(()),
        Err(_) => Err(AllocError),
    }
}

fn put_message_char(line: &mut String, letter: char) -> Result<(), AllocError>
    ensures { OnOk result (
        string_bytes line.new ≡ string_bytes line.old ++ message_char letter) }
{
    match letter {
        '{' => line.push_str("{{"),
        '}' => line.push_str("}}"),
        '[' => line.push_str("\\["),
        ']' => line.push_str("\\]"),
        '\\' => line.push_str("\\\\"),
        other => line.push(other),
    }
}

fn is_command_mark(letter: char) -> bool
    ensures { result ≡ is_command_mark letter }
{
    matches!(letter, '%' | '\n')
}

fn is_property_mark(letter: char) -> bool
    ensures { result ≡ is_property_mark letter }
{
    is_command_mark(letter) || matches!(letter, ':' | ',')
}

fn is_path_char(letter: char) -> bool
    ensures { result ≡ is_path_char letter }
{
    matches!(letter, 'A'..='Z' | 'a'..='z' | '-'..='9' | '_' | '~')
}
