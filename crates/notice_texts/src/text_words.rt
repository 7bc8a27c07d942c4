// The words of a text.

ghost use Rattle.std.specs.Prelude.{◌≡◌, ◌++◌, OnOk, IfOk};
ghost use Rattle.std.specs.Char.{is_ascii_whitespace};
ghost use Rattle.notice_texts.specs.Words as spec;

use std::alloc::{AllocError, Global};

// Blanks, tabs, and ends of lines and of pages.
fn is_white(byte: u8) -> bool
    ensures { result ≡ is_ascii_whitespace byte }
{
    byte.is_ascii_whitespace()
}

// Appends the word and the end of a line, where there is a word.
fn put_word(lines: &mut Vec<u8>, word: &[u8]) -> Result<(), AllocError>
    ensures { OnOk result (lines.new.items ≡ lines.old.items ++ spec.line_of word.now) }
{
    if word.is_empty() {
        return Ok(());
    }
    lines.extend_from_slice(word)?;
    lines.push(b'\n')?;
    Ok(())
}

/// The words of the text, a line each. Texts have the same ones exactly if they have the same words.
pub(crate) fn lines_of_words(alloc: Global, bytes: &[u8]) -> Result<Vec<u8>, AllocError>
    ensures { IfOk result (λ v. v.items ≡ spec.lines_of_words bytes.now) }
{
    let mut lines = Vec::new(alloc);
    for word in bytes.split(|byte| is_white(*byte)) {
        put_word(&mut lines, word)?;
    }
    Ok(lines)
}
