// What is told of each judgement of a report.

ghost use Rattle.std.specs.Prelude.{◌≡◌, IfOk, All, map};
ghost use Rattle.std.specs.List.{AllZip};
ghost use Rattle.gate_program.specs.Tellings.{IsBreakdownOf, IsShownIn, judgement_in};

use gate_told::{Breakdown, JudgedTexts};
use spdx_catalogue::Catalogue;
use spdx_gate::Judgement;
use spdx_policy::Policy;
use std::alloc::{AllocError, Global};

/// A judgement, and the texts that are told of it.
#[derive(Drop)]
pub(crate) struct TextsOf<'r, 'c> {
    pub(crate) judgement: &'r Judgement<'c>,
    pub(crate) shown: JudgedTexts,
}

/// The texts of each judgement.
pub(crate) fn texts_of_each<'r, 'c>(
    alloc: Global,
    catalogue: &Catalogue,
    policy: &Policy<'_>,
    judgements: &'r [Judgement<'c>],
) -> Result<Vec<TextsOf<'r, 'c>>, AllocError>
    ensures each { IfOk result (λ all. All (IsShownIn catalogue.now policy.now) all.items) }
    ensures of { IfOk result (λ all. map judgement_in all.items ≡ judgements.now) }
{
    let mut all = Vec::new(alloc);
    for judgement in judgements {
        all.push(TextsOf {
            judgement,
            shown: JudgedTexts::of(alloc, catalogue, policy, judgement)?,
        })?;
    }
    Ok(all)
}

/// What these texts tell of each judgement.
pub(crate) fn breakdowns_of<'s>(
    alloc: Global,
    all: &'s [TextsOf<'_, '_>],
) -> Result<Vec<Breakdown<'s>>, AllocError>
    ensures { IfOk result (λ breakdowns. AllZip IsBreakdownOf all.now breakdowns.items) }
{
    let mut breakdowns = Vec::new(alloc);
    for one in all {
        breakdowns.push(Breakdown::of(alloc, one.judgement, &one.shown)?)?;
    }
    Ok(breakdowns)
}
