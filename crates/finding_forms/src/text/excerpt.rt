// A long text shown round a place in it, and carets under a fault that begins there.

ghost use Rattle.std.specs.Prelude.{◌≡◌, ◌++◌, ◌≤◌, OnOk, IfOk, IsCharBoundary, length, string_bytes};
ghost use Rattle.finding_forms.specs.Excerpt.{carets_behind, carets_under, dots, excerpt, excerpt_line, head_of, marked_of, shown_from, shown_to, shown_width, width, IsPart, IsShownWhole, MarksAll, ShowsFault, StandsUnder};
ghost use Rattle.finding_forms.specs.Finding.{place_in};

use crate::findings::place_in;
use crate::forms::Style;
use crate::text::paint::{begin_paint, end_paint, put_copies};
use foreign_text::{Sink, put_text, text_for};
use std::alloc::{AllocError, Global};
use unicode_width::UnicodeWidthStr;

/// Appends a text as a line, two columns in. A text of at most 200 bytes is shown whole; of a longer one whole
/// characters among the 60 bytes before `start` and the 120 from it on, and `..` for what is left out in front and
/// behind. A start that is within a character or past the end of the text stands for its end.
///
/// # Errors
///
/// Memory was refused, and of the line a beginning may have been appended.
pub fn put_excerpt_line(lines: &mut String, text: &str, start: usize) -> Result<(), AllocError>
    ensures ok { OnOk result (string_bytes lines.new ≡
        string_bytes lines.old ++ excerpt_line text.now start) }
    ensures part { IsPart text.now start }
    ensures whole { IsShownWhole text.now start }
    ensures bound { length (excerpt text.now start) ≤ 200 }
    ensures fault { ShowsFault text.now start }
{
    put_shown(lines, text, start)
}

/// Appends carets under what `put_excerpt_line` shows of the fault that begins at `start` and ends at `end`, in bytes
/// of the text, counted by the columns of a terminal. There is one caret at least. An end that is within a character
/// or past the end of the text stands for its end, and a fault that ends before it begins is empty.
///
/// # Errors
///
/// Memory was refused, and of the carets a beginning may have been appended.
pub fn put_carets_under(
    alloc: Global,
    lines: &mut String,
    style: Style,
    text: &str,
    start: usize,
    end: usize,
) -> Result<(), AllocError>
    ensures ok { OnOk result (string_bytes lines.new ≡
        string_bytes lines.old ++ carets_under style text.now start end) }
    ensures under { StandsUnder text.now start end }
    ensures all { MarksAll text.now start end }
{
    put_marks(alloc, lines, style, text, start, end)
}

// What is shown of a text, in its bytes, and the place round which it is shown.
#[derive(Clone, Copy)]
struct Window {
    from: usize,
    at: usize,
    to: usize,
}

fn window_of(text: &str, start: usize) -> Window
    ensures from { result.from ≡ shown_from text.now start }
    ensures at { result.at ≡ place_in text.now start }
    ensures to { result.to ≡ shown_to text.now start }
    ensures in_order { (result.from ≤ result.at) × (result.at ≤ result.to) }
    ensures begins { IsCharBoundary text.now result.from }
    ensures middle { IsCharBoundary text.now result.at }
    ensures ends { IsCharBoundary text.now result.to }
{
    let at = place_in(text, start);
    if text.len() <= 200 {
        return Window {
            from: 0,
            at,
            to: text.len(),
        };
    }
    Window {
        from: text.ceil_char_boundary(at.saturating_sub(60)),
        at,
        to: text.floor_char_boundary(at.saturating_add(120).min(text.len())),
    }
}

fn put_shown(lines: &mut String, text: &str, start: usize) -> Result<(), AllocError>
    ensures { OnOk result (string_bytes lines.new ≡
        string_bytes lines.old ++ excerpt_line text.now start) }
{
    let window = window_of(text, start);
    lines.push_str("  ")?;
    put_dots(lines, &text[..window.from])?;
    put_text(lines, Sink::Line, &text[window.from..window.to])?;
    put_dots(lines, &text[window.to..])?;
    lines.push('\n')?;
    Ok(())
}

fn put_marks(
    alloc: Global,
    lines: &mut String,
    style: Style,
    text: &str,
    start: usize,
    end: usize,
) -> Result<(), AllocError>
    ensures { OnOk result (string_bytes lines.new ≡
        string_bytes lines.old ++ carets_under style text.now start end) }
{
    let before = head_width(alloc, text, start)?;
    let marked = shown_width(alloc, marked_of(text, start, end))?;
    put_carets(lines, style, before, marked)
}

// So many blanks, and so many carets.
fn put_carets(
    lines: &mut String,
    style: Style,
    blanks: usize,
    carets: usize,
) -> Result<(), AllocError>
    ensures { OnOk result (string_bytes lines.new ≡
        string_bytes lines.old ++ carets_behind style blanks carets) }
{
    put_copies(lines, ' ', blanks)?;
    begin_paint(lines, style, "[1;31m")?;
    put_copies(lines, '^', carets.max(1))?;
    end_paint(lines, style)?;
    Ok(())
}

// How many columns of a terminal the line takes up to the fault.
fn head_width(alloc: Global, text: &str, start: usize) -> Result<usize, AllocError>
    ensures { IfOk result (λ columns. columns ≡ width (head_of text.now start)) }
{
    let head = head_of(alloc, text, start)?;
    Ok(head.as_str().width())
}

// The line up to the fault.
fn head_of(alloc: Global, text: &str, start: usize) -> Result<String, AllocError>
    ensures { IfOk result (λ head. string_bytes head ≡ head_of text.now start) }
{
    let window = window_of(text, start);
    let mut head = String::new(alloc);
    head.push_str("  ")?;
    put_dots(&mut head, &text[..window.from])?;
    put_text(&mut head, Sink::Line, &text[window.from..window.at])?;
    Ok(head)
}

// What is shown of the fault.
fn marked_of(text: &str, start: usize, end: usize) -> &str
    ensures { result.now ≡ marked_of text.now start end }
{
    let window = window_of(text, start);
    let end = place_in(text, end).max(window.at);
    &text[window.at..end.min(window.to)]
}

// Two dots for what is left out.
fn put_dots(lines: &mut String, left_out: &str) -> Result<(), AllocError>
    ensures { OnOk result (
        string_bytes lines.new ≡ string_bytes lines.old ++ dots left_out.now) }
{
    if left_out.is_empty() {
        return Ok(());
    }
    lines.push_str("..")
}

// How many columns of a terminal the text takes as it is shown.
fn shown_width(alloc: Global, text: &str) -> Result<usize, AllocError>
    ensures { IfOk result (λ columns. columns ≡ shown_width text.now) }
{
    let shown = text_for(alloc, Sink::Line, text)?;
    Ok(shown.as_str().width())
}
