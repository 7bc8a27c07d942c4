// How the answer to a line begins.

ghost use Rattle.std.specs.Prelude.{◌≡◌, ℕ, List, ◌++◌, IfOk, IfErr, OnOk, MatchOption, option_map, string_bytes, unwrap_or};
ghost use Rattle.spdx_requirement.specs.Failures.{IfRefused};
ghost use Rattle.spdx_parser.specs.Meaning.{IsRefused};
ghost use Rattle.spdx.specs.Meaning.{IsReadFrom};
ghost use Rattle.spdx_lines.specs.Answer.{AcceptsSo, RefusesSo};
ghost use Rattle.spdx_lines.specs.Verdict.{parse_mode, IsColumn};

use crate::lines::LineMode;
use crate::text::put_refused;
use spdx::{Catalogue, Expression, Failure, ParseError};
use std::alloc::{AllocError, Global};

// The expression of a line and its second column, where that is not the line itself: its canonical text, or by `Normal`
// the normal text of its tree.
fn read_line<'c, 't>(
    alloc: Global,
    catalogue: &'c Catalogue,
    mode: LineMode,
    line: &'t str,
) -> Result<(Expression<'c>, Option<String>), Failure<ParseError<'t>>>
    ensures ok { IfOk result (λ both. IsReadFrom catalogue.now (parse_mode mode) line.now both.0) }
    ensures err { IfErr result (IfRefused (λ error.
        IsRefused catalogue.now (parse_mode mode) line.now error)) }
    ensures column { IfOk result (λ both. (column : List ℕ) →
        IsColumn catalogue.now mode line.now both.0.tree column →
        unwrap_or (option_map string_bytes both.1) line.now ≡ column) }
{
    match mode {
        LineMode::Strict | LineMode::Lax => {
            Expression::parse_canonical(alloc, catalogue, line, mode.parse_mode())
        }
        LineMode::Normal => {
            let expression = Expression::parse_mode(alloc, catalogue, line, mode.parse_mode())?;
            let normal = expression.normal_text(alloc)?;
            Ok((expression, Some(normal)))
        }
    }
}

// Appends the second column, which is the line where there is no other.
fn put_column(text: &mut Vec<u8>, column: &Option<String>, line: &str) -> Result<(), AllocError>
    ensures { OnOk result (text.new.items ≡
        text.old.items ++ unwrap_or (option_map string_bytes column.now) line.now) }
{
    match column {
        Some(column) => text.extend_from_slice(column.as_bytes()),
        None => text.extend_from_slice(line.as_bytes()),
    }
}

/// Appends the answer to a line that is refused, or the first two columns of that to an accepted one, whose expression
/// is handed out.
pub(crate) fn begin_answer<'c>(
    alloc: Global,
    catalogue: &'c Catalogue,
    mode: LineMode,
    line: &[u8],
    text: &mut Vec<u8>,
) -> Result<Option<Expression<'c>>, AllocError>
    ensures { IfOk result (λ found. MatchOption found
        (RefusesSo catalogue.now mode line.now text.old.items text.new.items)
        (λ e. AcceptsSo catalogue.now mode line.now text.old.items text.new.items e.tree)) }
{
    let Ok(line) = str::from_utf8(line) else {
        text.extend_from_slice(b"bad-utf8\n")?;
        return Ok(None);
    };
    match read_line(alloc, catalogue, mode, line) {
        Ok((expression, column)) => {
            text.extend_from_slice(b"accepted\t")?;
            put_column(text, &column, line)?;
            Ok(Some(expression))
        }
        Err(Failure::Refused(error)) => {
            put_refused(text, &error)?;
            Ok(None)
        }
        Err(Failure::Memory(error)) => Err(error),
    }
}
