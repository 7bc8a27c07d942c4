// The texts of verdicts.

ghost use Rattle.std.specs.Prelude.{◌≡◌, ℕ, ◌++◌, List, IfOk, IfErr, OnOk, codes, map};
ghost use Rattle.std.specs.List.{flat_map, join_by};
ghost use Rattle.std.specs.Fmt.{decimal};
ghost use Rattle.spdx_requirement.specs.Failures.{IfRefused};
ghost use Rattle.spdx_requirement.specs.Items.{requirement_of};
ghost use Rattle.spdx_requirement.specs.Texts.{requirement_text};
ghost use Rattle.spdx_lexer.specs.Code.{span_of};
ghost use Rattle.spdx_lexer.specs.Faults.{fault_of};
ghost use Rattle.spdx_parser.specs.Tree.{Tree};
ghost use Rattle.spdx_minimize.specs.Choice.{Choice, chosen};
ghost use Rattle.spdx_minimize.specs.MinimizeFaults.{refused_choice};
ghost use Rattle.spdx_lines.specs.Verdict.{Refused, choice_text, refusal_text, verdict_text};

use spdx::expression::MinimizeError;
use spdx::{Failure, LicenseReq, ParseError};
use std::alloc::AllocError;
use std::io::Write;

/// Appends the place of a fault, and what it says.
pub(crate) fn put_refusal(text: &mut Vec<u8>, error: &ParseError<'_>) -> Result<(), AllocError>
    ensures { OnOk result (text.new.items ≡
        text.old.items ++ refusal_text (fault_of error.now.reason) (span_of error.now.span)) }
{
    let (start, end, reason) = (error.span.start, error.span.end, error.reason);
    match write!(text, "{start}..{end} {reason}") {
        Ok(()) => Ok(()),
        Err(_) => Err(AllocError),
    }
}

/// Appends the line of a text that is refused.
pub(crate) fn put_refused(text: &mut Vec<u8>, error: &ParseError<'_>) -> Result<(), AllocError>
    ensures { OnOk result ((behind : Tree → List ℕ) → text.new.items ≡ text.old.items ++
        verdict_text behind (Refused (fault_of error.now.reason) (span_of error.now.span))) }
{
    text.extend_from_slice(b"refused ")?;
    put_refusal(text, error)?;
    text.push(b'\n')?;
    Ok(())
}

/// Appends what was found of a choice: the requirements that are chosen, or why there is none.
pub(crate) fn put_choice(
    text: &mut Vec<u8>,
    found: Result<Vec<LicenseReq<'_>>, Failure<MinimizeError>>,
) -> Result<(), AllocError>
    ensures { OnOk result ((choice : Choice) →
        IfOk found.entry (λ reqs. choice ≡ chosen (map requirement_of reqs.items)) →
        IfErr found.entry (IfRefused (λ e. choice ≡ refused_choice e)) →
        text.new.items ≡ text.old.items ++ choice_text choice) }
{
    match found {
        Ok(requirements) => put_requirements(text, &requirements),
        Err(Failure::Refused(MinimizeError::TooManyRequirements(count))) => put_count(text, count),
        Err(Failure::Refused(MinimizeError::RequirementsUnmet)) => text.extend_from_slice(b"unmet"),
        Err(Failure::Memory(error)) => Err(error),
    }
}

fn put_count(text: &mut Vec<u8>, count: usize) -> Result<(), AllocError>
    ensures { OnOk result (
        text.new.items ≡ text.old.items ++ (codes "too-many " ++ decimal count)) }
{
    match write!(text, "too-many {count}") {
        Ok(()) => Ok(()),
        Err(_) => Err(AllocError),
    }
}

// The requirements, with commas between them.
fn put_requirements(text: &mut Vec<u8>, requirements: &[LicenseReq<'_>]) -> Result<(), AllocError>
    ensures { OnOk result (text.new.items ≡ text.old.items ++
        join_by requirement_text (codes ", ") (map requirement_of requirements.now)) }
{
    let Some((first, others)) = requirements.split_first() else {
        return Ok(());
    };
    put_requirement(text, first)?;
    put_others(text, others)
}

fn put_others(text: &mut Vec<u8>, requirements: &[LicenseReq<'_>]) -> Result<(), AllocError>
    ensures { OnOk result (text.new.items ≡ text.old.items ++
        flat_map (λ r. codes ", " ++ requirement_text r) (map requirement_of requirements.now)) }
{
    for requirement in requirements {
        text.extend_from_slice(b", ")?;
        put_requirement(text, requirement)?;
    }
    Ok(())
}

fn put_requirement(text: &mut Vec<u8>, requirement: &LicenseReq<'_>) -> Result<(), AllocError>
    ensures { OnOk result (
        text.new.items ≡ text.old.items ++ requirement_text (requirement_of requirement.now)) }
{
    match write!(text, "{requirement}") {
        Ok(()) => Ok(()),
        Err(_) => Err(AllocError),
    }
}
