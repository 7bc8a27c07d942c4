// Colours of a terminal.

ghost use Rattle.std.specs.Prelude.{◌≡◌, ◌<◌, ◌++◌, OnErr, OnOk, replicate, string_bytes};
ghost use Rattle.finding_forms.specs.Paint.{Stays, paint_begins, paint_ends, painted};

use crate::forms::Style;
use std::alloc::AllocError;

pub(crate) fn put_copies(lines: &mut String, letter: char, count: usize) -> Result<(), AllocError>
    requires { letter < 128 }
    ensures { OnOk result (
        string_bytes lines.new ≡ string_bytes lines.old ++ replicate count letter) }
{
    for _ in 0..count {
        lines.push(letter)?;
    }
    Ok(())
}

/// Appends the text in a colour, which is written as the sequence behind ESC that begins it, as `[1;31m`; without colours
/// the text alone.
///
/// # Errors
///
/// Memory was refused. What stood there stands.
pub fn put_painted(
    lines: &mut String,
    style: Style,
    colour: &str,
    text: &str,
) -> Result<(), AllocError>
    ensures ok { OnOk result (string_bytes lines.new ≡
        string_bytes lines.old ++ painted style colour.now text.now) }
    ensures err { OnErr result (Stays (string_bytes lines.old) (string_bytes lines.new)) }
{
    begin_paint(lines, style, colour)?;
    lines.push_str(text)?;
    end_paint(lines, style)?;
    Ok(())
}

/// Appends what begins a colour, as [`put_painted`] has it; nothing without colours.
///
/// # Errors
///
/// Memory was refused. What stood there stands.
pub fn begin_paint(lines: &mut String, style: Style, colour: &str) -> Result<(), AllocError>
    ensures ok { OnOk result (
        string_bytes lines.new ≡ string_bytes lines.old ++ paint_begins style colour.now) }
    ensures err { OnErr result (Stays (string_bytes lines.old) (string_bytes lines.new)) }
{
    match style {
        Style::Plain => Ok(()),
        Style::Coloured => {
            lines.push('\x1b')?;
            lines.push_str(colour)
        }
    }
}

/// Appends what ends each colour; nothing without colours.
///
/// # Errors
///
/// Memory was refused, and the text is as it was.
pub fn end_paint(lines: &mut String, style: Style) -> Result<(), AllocError>
    ensures ok { OnOk result (
        string_bytes lines.new ≡ string_bytes lines.old ++ paint_ends style) }
    ensures err { OnErr result (string_bytes lines.new ≡ string_bytes lines.old) }
{
    match style {
        Style::Plain => Ok(()),
        Style::Coloured => lines.push_str("\x1b[0m"),
    }
}
