//! What each line of an input means, as it is written.

ghost use Rattle.std.specs.Prelude.{◌≡◌, ◌≤◌, ◌==◌, ◌++◌, ◌∷◌, ℕ, List, [], IfOk, OnOk, length, map, take};
ghost use Rattle.std.specs.List.{slice_split};
ghost use Rattle.line_engine.specs.Lines.{last_line};
ghost use Rattle.meaning_program.specs.LineLaws.{TellsNothing, WritesEachLine};
ghost use Rattle.meaning_program.specs.Simplified as spec;

use crate::reading::{mode_by, read_as};
use crate::trouble::why_of;
use spdx_catalogue::{Catalogue, Failure};
use spdx_meaning::meaning_of;
use spdx_meaning::text::text_laws::meaning_text_is_read;
use std::alloc::{AllocError, Global};

/// A line that has no meaning text.
#[derive(Debug, Drop)]
pub struct UnmeantLine {
    /// Counted from 1.
    pub number: usize,
    pub why: String,
}

/// What is written for the lines of an input, and those that have no meaning text.
#[derive(Drop)]
pub struct Simplified {
    pub text: Vec<u8>,
    pub unmeant: Vec<UnmeantLine>,
}

// The meaning text of a line, or why it has none.
#[derive(Drop)]
pub(crate) enum Answer {
    Meaning(String),
    Unmeant(String),
}

/// Writes for each line of the input the meaning text of its expression; a line that has none as it stands, without the
/// white space round about, and tells it with its number. A blank line stays blank.
///
/// # Errors
///
/// Memory was refused.
pub fn simplify_lines(
    alloc: Global,
    catalogue: &Catalogue,
    is_lax: bool,
    bytes: &[u8],
) -> Result<Simplified, AllocError>
    ensures ok { IfOk result (spec.IsSimplified catalogue.now is_lax bytes.now) }
    ensures told { IfOk result (TellsNothing catalogue.now is_lax bytes.now) }
    ensures each { IfOk result (WritesEachLine catalogue.now is_lax bytes.now) }
{
    meaning_text_is_read();
    catalogue.is_well_formed();
    let pieces = pieces(alloc, bytes)?;
    let simplified = simplified_lines(alloc, catalogue, is_lax, &pieces[..line_count(&pieces)])?;
    Ok(simplified)
}

// What stands between newlines, and behind the last one.
fn pieces(alloc: Global, bytes: &[u8]) -> Result<Vec<&[u8]>, AllocError>
    ensures { IfOk result (λ pieces.
        map (λ piece. piece.now) pieces.items ≡ slice_split (λ b. b == 10) bytes.now) }
{
    bytes.split(|byte| *byte == b'\n').collect(alloc)
}

// How many of the pieces are lines: behind the last newline stands one only where something does.
fn line_count(pieces: &[&[u8]]) -> usize
    ensures lines { (whole : List (List ℕ)) (rest : List ℕ) →
        map (λ piece. piece.now) pieces.now ≡ whole ++ rest ∷ [] →
        take result (map (λ piece. piece.now) pieces.now) ≡ whole ++ last_line rest }
    ensures fits { result ≤ length pieces.now }
{
    match pieces.last() {
        Some(last) if last.is_empty() => pieces.len() - 1,
        _ => pieces.len(),
    }
}

fn simplified_lines(
    alloc: Global,
    catalogue: &Catalogue,
    is_lax: bool,
    lines: &[&[u8]],
) -> Result<Simplified, AllocError>
    ensures { IfOk result (spec.AreSimplified catalogue.now is_lax
        (map (λ line. line.now) lines.now)) }
{
    let mut simplified = Simplified {
        text: Vec::new(alloc),
        unmeant: Vec::new(alloc),
    };
    for (index, line) in lines.iter().enumerate() {
        let line = trimmed(line);
        let answer = answer_to(alloc, catalogue, is_lax, line)?;
        put_answer(&mut simplified, index + 1, line, answer)?;
    }
    Ok(simplified)
}

fn trimmed(line: &[u8]) -> &[u8]
    ensures { result.now ≡ spec.trimmed line.now }
{
    line.trim_ascii()
}

fn answer_to(
    alloc: Global,
    catalogue: &Catalogue,
    is_lax: bool,
    line: &[u8],
) -> Result<Answer, AllocError>
    ensures { IfOk result (λ answer.
        spec.IsOfLine catalogue.now is_lax line.now (spec.answer_of answer)) }
{
    if line.is_empty() {
        return Ok(Answer::Meaning(String::new(alloc)));
    }
    let Ok(text) = str::from_utf8(line) else {
        return Ok(Answer::Unmeant(String::from_str(alloc, "not UTF-8")?));
    };
    let read = read_as(alloc, catalogue, is_lax, text)?;
    match meaning_of(alloc, catalogue, mode_by(is_lax), read.as_str()) {
        Ok(meaning) => Ok(Answer::Meaning(meaning)),
        Err(Failure::Refused(unmeant)) => Ok(Answer::Unmeant(why_of(alloc, &unmeant)?)),
        Err(Failure::Memory(error)) => Err(error),
    }
}

// Appends what is written for the line of that number, and what is told of it.
fn put_answer(
    simplified: &mut Simplified,
    number: usize,
    line: &[u8],
    answer: Answer,
) -> Result<(), AllocError>
    ensures text { OnOk result (simplified.new.text.items ≡ simplified.old.text.items
        ++ (spec.text_for line.now (spec.answer_of answer) ++ 10 ∷ [])) }
    ensures told { OnOk result (map spec.told_of simplified.new.unmeant.items
        ≡ map spec.told_of simplified.old.unmeant.items
        ++ spec.told_for number (spec.answer_of answer)) }
{
    match answer {
        Answer::Meaning(meaning) => simplified.text.extend_from_slice(meaning.as_bytes())?,
        Answer::Unmeant(why) => {
            simplified.text.extend_from_slice(line)?;
            simplified.unmeant.push(UnmeantLine { number, why })?;
        }
    }
    simplified.text.extend_from_slice(b"\n")
}
