// The line that tells a trouble.

ghost use Rattle.std.specs.Prelude.{◌≡◌, ◌++◌, IfOk, OnOk, option_map, string_bytes};
ghost use Rattle.foreign_text.specs.Read.{IsSafe};
ghost use Rattle.foreign_text.specs.declared.sinks.Sink.TheVariants.{Line};
ghost use Rattle.package_items.specs.Faults.{shown, shown_char};
ghost use Rattle.spdx_troubles.specs.Lines as spec;
ghost use Rattle.spdx_troubles.specs.Lines.{IsLineOf, IsOneLine};

use crate::trouble::Trouble;
use foreign_text::{Sink, is_hidden, put_text, text_for};
use std::alloc::{AllocError, Global};
use std::io::{self, ErrorKind};

// Why it is told: what was given as the reason, as a line may have it, and what the system says.
#[derive(Clone, Copy)]
struct Reasons<'t> {
    given: &'t str,
    error: &'t str,
}

impl Trouble {
    /// The line that tells it. A character of a name, a text or an error that a terminal would obey or not show stands there
    /// by its number, as `\u{1b}`.
    ///
    /// # Errors
    ///
    /// Memory was refused.
    pub fn line(&self, alloc: Global) -> Result<String, AllocError>
        ensures exact { IfOk result (λ line. IsLineOf self.now (string_bytes line)) }
        ensures one { IfOk result (λ line. IsOneLine (string_bytes line)) }
    {
        let error = error_text(alloc, self)?;
        let told = told(alloc, self, error.as_str())?;
        let mut line = String::from_str(alloc, "spdx: ")?;
        put_shown(&mut line, told.as_str())?;
        line.push('\n')?;
        Ok(line)
    }
}

// What the system says of it, if it has said anything.
fn error_text(alloc: Global, trouble: &Trouble) -> Result<String, AllocError> {
    match trouble {
        Trouble::Unreadable(_, error) | Trouble::Unwritable(_, error) | Trouble::Owner(_, error) =>
            format!(in alloc; "{error}"),
        Trouble::Nameless => {
            let error = io::Error::from(ErrorKind::InvalidFilename);
            format!(in alloc; "{error}")
        }
        _ => Ok(String::new(alloc)),
    }
}

// Of what it is, and why.
fn told(alloc: Global, trouble: &Trouble, error: &str) -> Result<String, AllocError>
    ensures { IfOk result (λ told. string_bytes told ≡ spec.told error.now trouble.now) }
{
    let given = text_for(alloc, Sink::Line, given_of(trouble))?;
    let mut told = String::from_str(alloc, before(trouble))?;
    put_text(&mut told, Sink::Line, name_of(trouble))?;
    let reasons = Reasons {
        given: given.as_str(),
        error,
    };
    put_behind(&mut told, trouble, reasons)?;
    Ok(told)
}

// What it is about.
fn name_of(trouble: &Trouble) -> &str
    ensures { result.now ≡ spec.name_of trouble.now }
{
    match trouble {
        Trouble::Unreadable(name, _)
        | Trouble::NotUtf8(name)
        | Trouble::Unnamed(name, _)
        | Trouble::Folder(name)
        | Trouble::Broken(name)
        | Trouble::List(name, _)
        | Trouble::Made(name, _)
        | Trouble::Source(name, _)
        | Trouble::Manifest(name, _, _)
        | Trouble::NoManifest(name)
        | Trouble::Empty(name)
        | Trouble::Policy(name, _)
        | Trouble::Accepted(name, _)
        | Trouble::NoPackage(name)
        | Trouble::NoChoice(name, _)
        | Trouble::Unmeant(name, _)
        | Trouble::Text(name, _)
        | Trouble::NoText(name, _)
        | Trouble::Unlisted(name, _)
        | Trouble::Unwritable(name, _)
        | Trouble::Changed(name)
        | Trouble::Linked(name)
        | Trouble::Owner(name, _)
        | Trouble::Lost(name)
        | Trouble::Guessed(name, _)
        | Trouble::LeftBehind(name)
        | Trouble::Shared(name)
        | Trouble::Special(name)
        | Trouble::Above(name) => name.as_str(),
        Trouble::Nameless => "SPDX_LIST",
        Trouble::NoExtras(_) => "the extras inside",
        Trouble::Output | Trouble::Memory => "",
    }
}

// The reason that was given, as it was given.
fn given_of(trouble: &Trouble) -> &str
    ensures { result.now ≡ spec.given_of trouble.now }
{
    match trouble {
        Trouble::Accepted(_, why)
        | Trouble::NoChoice(_, why)
        | Trouble::Unmeant(_, why)
        | Trouble::Text(_, why)
        | Trouble::NoText(_, why)
        | Trouble::Unlisted(_, why) => why.as_str(),
        _ => "",
    }
}

// What stands before the name.
fn before(trouble: &Trouble) -> &'static str
    ensures { result.now ≡ spec.before trouble.now }
{
    match trouble {
        Trouble::Accepted(..) => "--accept: ",
        Trouble::NoPackage(_) => "--explain: no package ",
        Trouble::Empty(_) => "no packages in ",
        Trouble::Text(..) => "the text of ",
        Trouble::Output => "write fault",
        Trouble::Memory => "out of memory",
        _ => "",
    }
}

// What stands behind the name where that is always the same.
fn words(trouble: &Trouble) -> Option<&'static str>
    ensures { option_map (λ w. w.now) result ≡ spec.words trouble.now }
{
    match trouble {
        Trouble::NotUtf8(_) => Some(": a name that is no UTF-8 can't be opened"),
        Trouble::Folder(_) => Some(": a folder, where a file is wanted"),
        Trouble::Broken(_) => Some(": read fault"),
        Trouble::NoManifest(_) => Some(": no manifest by its name; --as FORM reads it as one"),
        Trouble::Special(_) => Some(": no regular file; left as it is"),
        Trouble::Above(_) => Some(
            ": no diff names a file above its folder; run spdx there, or use --write",
        ),
        Trouble::Changed(_) => Some(": it changed since it was read; left as it is"),
        Trouble::Linked(_) => Some(
            ": it has other names, which would keep the old bytes; left as it is: see --break-links",
        ),
        Trouble::Lost(_) => Some(": it doesn't run as its owner or group any more"),
        Trouble::LeftBehind(_) => Some(
            ": left by a run that was killed; it may be removed, unless one is at work",
        ),
        Trouble::Shared(_) => Some(
            ": in several documents, each of which may mean another licence by it",
        ),
        _ => None,
    }
}

// Appends what stands behind the name.
fn put_behind(line: &mut String, trouble: &Trouble, reasons: Reasons<'_>) -> Result<(), AllocError>
    ensures { OnOk result (string_bytes line.new ≡ string_bytes line.old
        ++ spec.behind reasons.entry.given.now reasons.entry.error.now trouble.now) }
{
    if let Some(words) = words(trouble) {
        return line.push_str(words);
    }
    put_reason(line, trouble, reasons)
}

fn put_reason(line: &mut String, trouble: &Trouble, reasons: Reasons<'_>) -> Result<(), AllocError>
    ensures { OnOk result (string_bytes line.new ≡ string_bytes line.old
        ++ spec.reason reasons.entry.given.now reasons.entry.error.now trouble.now) }
{
    let Reasons { given, error } = reasons;
    match trouble {
        Trouble::Unreadable(..) | Trouble::Nameless => write!(line, ": {error}"),
        Trouble::Unwritable(..) => write!(line, ": not written: {error}"),
        Trouble::Owner(..) => write!(
            line,
            ": its owner or group can't be kept: {error}; left as it is"
        ),
        Trouble::Unnamed(_, count) => {
            write!(line, ": left out: {count} with a name that is no UTF-8")
        }
        Trouble::List(_, fault) => write!(line, ": no list: {fault}"),
        Trouble::Made(_, fault) => write!(line, ": no list: {fault}"),
        Trouble::NoExtras(fault) => write!(line, ": no list: {fault}"),
        Trouble::Source(_, fault) => write!(line, ": {fault}"),
        Trouble::Manifest(_, why, at) => { write!(line, ": line {at}: {why}; left as it is") }
        Trouble::Policy(_, fault) => write!(line, ": {fault}"),
        Trouble::Accepted(..) | Trouble::NoChoice(..) | Trouble::Unmeant(..) | Trouble::Text(..) =>
            write!(line, ": {given}"),
        Trouble::NoText(..) => write!(line, ": no text of {given}"),
        Trouble::Unlisted(..) => write!(line, ": not in the list{given}"),
        Trouble::Guessed(_, form) => write!(line, ": read as {form}"),
        _ => Ok(()),
    }
}

// Appends the text, but that what a terminal would obey or not show stands by its number.
fn put_shown(line: &mut String, text: &str) -> Result<(), AllocError>
    ensures ok { OnOk result (
        string_bytes line.new ≡ string_bytes line.old ++ shown text.now) }
    ensures safe { IsSafe Line (shown text.now) }
{
    for letter in text.chars() {
        put_shown_char(line, letter)?;
    }
    Ok(())
}

fn put_shown_char(line: &mut String, letter: char) -> Result<(), AllocError>
    ensures { OnOk result (
        string_bytes line.new ≡ string_bytes line.old ++ shown_char letter) }
{
    if !is_hidden(letter) {
        return line.push(letter);
    }
    write!(line, "\\u{{{:x}}}", u32::from(letter))
}
