//! The requirements of expressions, one on each line.

ghost use Rattle.std.specs.Prelude.{◌≡◌, ◌++◌, OnOk, OnErr, IfOk, IfErr, map};
ghost use Rattle.spdx_calls.specs.Faults.{IsTextFault};
ghost use Rattle.spdx_calls.specs.Answers.{PutsRequirements, line_of, lines_text};
ghost use Rattle.spdx_parser.specs.Tree.{leaves};
ghost use Rattle.spdx_requirement.specs.Items.{requirement_of};

use crate::buffer::{Put, put_text};
use crate::fault::CallFault;
use crate::reading::read;
use spdx::{Catalogue, Expression, LicenseReq, ParseMode};
use std::alloc::{AllocError, Global};
use std::io::Write;

/// Puts the requirements of an expression that this mode reads into the buffer, from left to right, each with a newline
/// behind it.
///
/// # Errors
///
/// Those of `check`. Nothing is written then.
pub fn requirements(
    alloc: Global,
    catalogue: &Catalogue,
    mode: ParseMode,
    text: &[u8],
    out: &mut [u8],
) -> Result<Put, CallFault>
    ensures ok { IfOk result (PutsRequirements catalogue.now mode text.now out.old out.new) }
    ensures err { IfErr result (IsTextFault catalogue.now mode text.now) }
    ensures unwritten { OnErr result (out.new ≡ out.old) }
{
    let expression = read(alloc, catalogue, mode, text)?;
    let lines = lines_in(alloc, &expression)?;
    Ok(put_text(&lines, out))
}

// The requirements of an expression, each with a newline behind it.
fn lines_in(alloc: Global, expression: &Expression<'_>) -> Result<Vec<u8>, AllocError>
    ensures { IfOk result (λ text. text.items ≡ lines_text (leaves expression.now.tree)) }
{
    let mut text = Vec::new(alloc);
    for requirement in expression.requirements() {
        put_line(&mut text, &requirement.req)?;
    }
    Ok(text)
}

/// The requirements, each with a newline behind it.
pub(crate) fn requirement_lines(
    alloc: Global,
    requirements: &[LicenseReq<'_>],
) -> Result<Vec<u8>, AllocError>
    ensures { IfOk result (λ text.
        text.items ≡ lines_text (map requirement_of requirements.now)) }
{
    let mut text = Vec::new(alloc);
    for requirement in requirements {
        put_line(&mut text, requirement)?;
    }
    Ok(text)
}

fn put_line(text: &mut Vec<u8>, requirement: &LicenseReq<'_>) -> Result<(), AllocError>
    ensures { OnOk result (
        text.new.items ≡ text.old.items ++ line_of (requirement_of requirement.now)) }
{
    match writeln!(text, "{requirement}") {
        Ok(()) => Ok(()),
        Err(_) => Err(AllocError),
    }
}
