// The line of totals.

ghost use Rattle.std.specs.Prelude.{◌≡◌, ◌++◌, OnOk, OnErr, IfOk, codes, decimal, string_bytes};
ghost use Rattle.finding_forms.specs.Totals.{counted, totals_text};

use std::alloc::{AllocError, Global};

/// Appends the line of totals: `7 expressions in 1 file, 2 refused`.
///
/// # Errors
///
/// Memory was refused, and the text is as it was.
pub fn put_totals(
    alloc: Global,
    text: &mut Vec<u8>,
    expressions: u64,
    files: u64,
    refused: u64,
) -> Result<(), AllocError>
    ensures ok { OnOk result (
        text.new.items ≡ text.old.items ++ totals_text expressions files refused) }
    ensures err { OnErr result (text.new.items ≡ text.old.items) }
{
    let line = totals_line(alloc, expressions, files, refused)?;
    text.extend_from_slice(line.as_bytes())
}

fn totals_line(
    alloc: Global,
    expressions: u64,
    files: u64,
    refused: u64,
) -> Result<String, AllocError>
    ensures { IfOk result (λ line. string_bytes line ≡ totals_text expressions files refused) }
{
    let mut line = String::new(alloc);
    put_counted(&mut line, expressions, "expression")?;
    line.push_str(" in ")?;
    put_counted(&mut line, files, "file")?;
    put_refused(&mut line, refused)?;
    Ok(line)
}

// So many of a noun.
fn put_counted(line: &mut String, count: u64, noun: &str) -> Result<(), AllocError>
    ensures { OnOk result (
        string_bytes line.new ≡ string_bytes line.old ++ counted count noun.now) }
{
    let ending = if count == 1 { "" } else { "s" };
    match write!(line, "{count} {noun}{ending}") {
        Ok(()) => Ok(()),
        Err(_) => Err(AllocError),
    }
}

// How many are refused, and the end of the line.
fn put_refused(line: &mut String, refused: u64) -> Result<(), AllocError>
    ensures { OnOk result (string_bytes line.new ≡ string_bytes line.old ++
        (codes ", " ++ (decimal refused ++ codes " refused\n"))) }
{
    match write!(line, ", {refused} refused\n") {
        Ok(()) => Ok(()),
        Err(_) => Err(AllocError),
    }
}
