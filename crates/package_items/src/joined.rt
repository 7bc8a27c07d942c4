// Several licenses of one package.

ghost use Rattle.std.specs.Prelude.{◌≡◌, ◌++◌, IfOk, OnOk, map, flat_map, string_bytes};
ghost use Rattle.std.specs.List.{find, list_all};
ghost use Rattle.std.specs.Option.{option_copied};
ghost use Rattle.package_items.specs.Rows.{license_of};
ghost use Rattle.package_items.specs.Texts as said;

use crate::package::License;
use crate::texts::is_unstated;
use std::alloc::{AllocError, Global};

fn is_term(text: &str) -> bool
    ensures { result ≡ list_all said.is_term_byte text.now }
{
    text.as_bytes().iter().all(|b| is_term_byte(*b))
}

fn is_term_byte(b: u8) -> bool
    ensures { result ≡ said.is_term_byte b }
{
    b.is_ascii_alphanumeric() || b == b'-' || b == b'.' || b == b'+' || b == b':'
}

fn put_part(line: &mut String, part: &str) -> Result<(), AllocError>
    ensures { OnOk result (string_bytes line.new ≡ string_bytes line.old ++ said.part part.now) }
{
    if is_term(part) {
        return line.push_str(part);
    }
    line.push('(')?;
    line.push_str(part)?;
    line.push(')')
}

// The parts of an expression behind its first, each behind the word.
fn put_rest(line: &mut String, word: &str, rest: &[&str]) -> Result<(), AllocError>
    ensures { OnOk result (string_bytes line.new ≡ string_bytes line.old
        ++ flat_map (said.behind_word word.now) (map (λ t. t.now) rest.now)) }
{
    for part in rest {
        line.push_str(word)?;
        put_part(line, part)?;
    }
    Ok(())
}

fn joined(alloc: Global, word: &str, texts: &[&str]) -> Result<String, AllocError>
    ensures { IfOk result (λ s.
        string_bytes s ≡ said.joined word.now (map (λ t. t.now) texts.now)) }
{
    let mut line = String::new(alloc);
    match texts {
        [] => {}
        [one] => line.push_str(one)?,
        [first, rest @ ..] => {
            put_part(&mut line, first)?;
            put_rest(&mut line, word, rest)?;
        }
    }
    Ok(line)
}

fn are_unstated(texts: &[&str]) -> bool
    ensures { result ≡ list_all said.is_unstated (map (λ t. t.now) texts.now) }
{
    for one in texts {
        if !is_unstated(one) {
            return false;
        }
    }
    true
}

// Whether the parentheses of the text don't close.
fn is_open(text: &str) -> bool
    ensures { result ≡ said.is_open text.now }
{
    let mut depth: usize = 0;
    for byte in text.as_bytes() {
        if *byte == b'(' {
            depth += 1;
        } else if *byte == b')' {
            if depth == 0 {
                return true;
            }
            depth -= 1;
        }
    }
    depth != 0
}

// The first text whose parentheses don't close.
fn first_open<'t>(texts: &[&'t str]) -> Option<&'t str>
    ensures { option_copied result ≡ find said.is_open (map (λ t. t.now) texts.now) }
{
    for one in texts {
        if is_open(one) {
            return Some(*one);
        }
    }
    None
}

/// What the texts of several licenses say together, joined by the word, as ` OR `.
#[tactic(auto, unfolding(crate::specs::Texts::license_of_all))]
pub fn license_of_all(alloc: Global, word: &str, texts: &[&str]) -> Result<License, AllocError>
    ensures { IfOk result (λ l.
        license_of l ≡ said.license_of_all word.now (map (λ t. t.now) texts.now)) }
{
    if are_unstated(texts) {
        return Ok(License::Unstated);
    }
    match first_open(texts) {
        Some(open) => Ok(License::Stated(String::from_str(alloc, open)?)),
        None => Ok(License::Stated(joined(alloc, word, texts)?)),
    }
}
