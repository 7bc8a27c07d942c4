// Requirements with the names of the texts that they want.

ghost use Rattle.std.specs.Prelude.{◌≡◌, IfOk, map};
ghost use Rattle.spdx_requirement.specs.Items.{requirement_of};
ghost use Rattle.spdx_parser.specs.Tree.{leaves};
ghost use Rattle.package_choices.specs.Accepted.{held};
ghost use Rattle.choice_program.specs.Named.{named, shown, shown_all};

use spdx::Expression;
use spdx_catalogue::LicenseReq;
use spdx_licensee::{RequirementTexts, texts_of};
use std::alloc::{AllocError, Global};

/// Those of each choice.
pub(crate) fn all_named(
    alloc: Global,
    choices: &[Vec<LicenseReq<'_>>],
) -> Result<Vec<Vec<RequirementTexts>>, AllocError>
    ensures { IfOk result (λ all. shown_all all.items ≡ map (map named) (held choices.now)) }
{
    let mut all = Vec::new(alloc);
    for choice in choices {
        all.push(named_of(alloc, choice)?)?;
    }
    Ok(all)
}

fn named_of(
    alloc: Global,
    requirements: &[LicenseReq<'_>],
) -> Result<Vec<RequirementTexts>, AllocError>
    ensures { IfOk result (λ all.
        map shown all.items ≡ map named (map requirement_of requirements.now)) }
{
    let mut all = Vec::new(alloc);
    for requirement in requirements {
        all.push(texts_of(alloc, requirement)?)?;
    }
    Ok(all)
}

/// Those of an expression.
pub(crate) fn named_in(
    alloc: Global,
    expression: &Expression<'_>,
) -> Result<Vec<RequirementTexts>, AllocError>
    ensures { IfOk result (λ all. map shown all.items ≡ map named (leaves expression.now.tree)) }
{
    let mut all = Vec::new(alloc);
    for requirement in expression.requirements() {
        all.push(texts_of(alloc, &requirement.req)?)?;
    }
    Ok(all)
}
