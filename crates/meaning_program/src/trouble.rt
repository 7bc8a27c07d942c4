//! Why it isn't told what expressions mean.

ghost use Rattle.std.specs.Prelude.{◌≡◌, IfOk, string_bytes};
ghost use Rattle.meaning_program.specs.Troubles.{IsToldAs, why_text};

use list_program::ListTrouble;
use spdx_meaning::Unmeant;
use std::alloc::{AllocError, Global};

/// A text of which it isn't told what it means, and why.
#[derive(Debug, Drop)]
pub struct Unsaid {
    /// The text as it was read.
    pub text: String,
    pub why: String,
}

/// Why nothing is told.
#[derive(Drop)]
pub enum MeaningTrouble {
    List(ListTrouble),
    Unsaid(Unsaid),
    Memory,
}

impl From<AllocError> for MeaningTrouble {
    ghost use Rattle.std.specs.Prelude.{◌≡◌};
    ghost use Rattle.meaning_program.specs.declared.trouble.MeaningTrouble.TheVariants.{Memory};

    ghost from_gives = { λ _ t. t ≡ Memory };

    fn from(_error: AllocError) -> MeaningTrouble {
        MeaningTrouble::Memory
    }
}

impl From<ListTrouble> for MeaningTrouble {
    ghost use Rattle.std.specs.Prelude.{◌≡◌};
    ghost use Rattle.meaning_program.specs.declared.trouble.MeaningTrouble.TheVariants.{List};

    ghost from_gives = { λ list t. t ≡ List list };

    fn from(trouble: ListTrouble) -> MeaningTrouble {
        MeaningTrouble::List(trouble)
    }
}

// The text with why it has no meaning that is told.
pub(crate) fn told_as(alloc: Global, text: &str, why: &Unmeant<'_>) -> Result<Unsaid, AllocError>
    ensures { IfOk result (IsToldAs text.now why.now) }
{
    Ok(Unsaid {
        text: String::from_str(alloc, text)?,
        why: why_of(alloc, why)?,
    })
}

#[tactic(auto, unfolding(crate::specs::Troubles::why_text))]
pub(crate) fn why_of(alloc: Global, why: &Unmeant<'_>) -> Result<String, AllocError>
    ensures { IfOk result (λ text. string_bytes text ≡ why_text why.now) }
{
    match why {
        Unmeant::Unread(error) => {
            let reason = error.reason;
            let (start, end) = (error.span.start, error.span.end);
            format!(in alloc; "{reason}, in bytes {start} to {end}")
        }
        Unmeant::TooMany(many) => format!(in alloc; "{many}"),
    }
}
