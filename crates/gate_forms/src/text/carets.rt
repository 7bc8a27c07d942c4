// Carets under a part of an expression.

ghost use Rattle.std.specs.Prelude.{◌≡◌, ◌<◌, ◌++◌, OnOk, IfOk, replicate, string_bytes, IsCharBoundary};
ghost use Rattle.finding_forms.specs.Finding.{place_in};
ghost use Rattle.gate_forms.specs.Human.{before_of, marked_of, caret_part, shown_width};

use finding_forms::{Style, begin_paint, end_paint};
use foreign_text::{Sink, text_for};
use std::alloc::{AllocError, Global};
use unicode_width::UnicodeWidthStr;

// A text up to a part of it, and the part.
#[derive(Clone, Copy)]
struct Span<'t> {
    before: &'t str,
    marked: &'t str,
}

// The place in the text, which is its end where the place is none.
fn place_in(text: &str, at: usize) -> usize
    ensures place { result ≡ place_in text.now at }
    ensures boundary { IsCharBoundary text.now result }
{
    if text.is_char_boundary(at) {
        at
    } else {
        text.len()
    }
}

fn span_of<'t>(text: &'t str, start: usize, end: usize) -> Span<'t>
    ensures before { result.before.now ≡ before_of text.now start }
    ensures marked { result.marked.now ≡ marked_of text.now start end }
{
    let from = place_in(text, start);
    let to = place_in(text, end).max(from);
    Span {
        before: &text[..from],
        marked: &text[from..to],
    }
}

/// Appends carets under the part of the expression, one at least, and a blank.
pub(crate) fn put_carets(
    alloc: Global,
    lines: &mut String,
    style: Style,
    expression: &str,
    start: usize,
    end: usize,
) -> Result<(), AllocError>
    ensures { OnOk result (string_bytes lines.new ≡
        string_bytes lines.old ++ caret_part style expression.now start end) }
{
    let span = span_of(expression, start, end);
    let before = shown_width(alloc, span.before)?;
    let marked = shown_width(alloc, span.marked)?;
    lines.push_str("  ")?;
    put_copies(lines, ' ', before)?;
    begin_paint(lines, style, "[1;31m")?;
    put_copies(lines, '^', marked.max(1))?;
    end_paint(lines, style)?;
    lines.push(' ')
}

// How many columns of a terminal the text takes as it is shown.
fn shown_width(alloc: Global, text: &str) -> Result<usize, AllocError>
    ensures { IfOk result (λ width. width ≡ shown_width text.now) }
{
    let shown = text_for(alloc, Sink::Line, text)?;
    Ok(shown.as_str().width())
}

pub(crate) fn put_copies(lines: &mut String, letter: char, count: usize) -> Result<(), AllocError>
    requires { letter < 128 }
    ensures { OnOk result (
        string_bytes lines.new ≡ string_bytes lines.old ++ replicate count letter) }
{
    for _ in 0..count {
        lines.push(letter)?;
    }
    Ok(())
}
