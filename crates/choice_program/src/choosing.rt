// What packages are used under.

ghost use Rattle.std.specs.Prelude.{IfErr, IfOk, map};
ghost use Rattle.gate_program.specs.Asked.{lent};
ghost use Rattle.choice_program.specs.Choose.{IsChosenAmong, IsNoChoiceAmong};

use crate::accepted::{chosen_among, stated_by};
use crate::licensees::licensees_in;
use crate::unchosen::{Unchosen, Why};
use gate_program::PolicyTrouble;
use package_sources::Package;
use spdx_catalogue::Catalogue;
use spdx_lexer::error::Reason;
use spdx_lexer::token::ParseMode;
use spdx_licensee::RequirementTexts;
use std::alloc::{AllocError, AllocFailed, Global};

/// What packages are used under.
#[derive(Drop)]
pub struct Chosen {
    /// The requirements of each package's choice, in the packages' order.
    pub choices: Vec<Vec<RequirementTexts>>,
    /// All requirements of each package's expression.
    pub offered: Vec<Vec<RequirementTexts>>,
}

/// Why nothing is chosen.
#[derive(Drop)]
pub enum ChoiceTrouble {
    /// A name that is to be accepted is no licensee's.
    NoLicensee(String, Reason),
    /// There is no policy at the path.
    Policy(PolicyTrouble),
    /// These packages have no choice of their own.
    NoChoices(Vec<Unchosen>),
    /// Each package has a choice of its own, and there is none for all of them.
    NoneTogether(Why),
    Memory,
}

impl From<AllocError> for ChoiceTrouble {
    ghost use Rattle.std.specs.Prelude.{◌≡◌};
    ghost use Rattle.choice_program.specs.declared.choosing.ChoiceTrouble.TheVariants.{Memory};

    ghost from_gives = { λ _ t. t ≡ Memory };

    fn from(_error: AllocError) -> ChoiceTrouble {
        ChoiceTrouble::Memory
    }
}

impl From<PolicyTrouble> for ChoiceTrouble {
    ghost use Rattle.std.specs.Prelude.{◌≡◌};
    ghost use Rattle.choice_program.specs.declared.choosing.ChoiceTrouble.TheVariants.{Policy};

    ghost from_gives = { λ e t. t ≡ Policy e };

    fn from(trouble: PolicyTrouble) -> ChoiceTrouble {
        ChoiceTrouble::Policy(trouble)
    }
}

impl<T: Drop> From<AllocFailed<T>> for ChoiceTrouble {
    ghost use Rattle.std.specs.Prelude.{◌≡◌};
    ghost use Rattle.choice_program.specs.declared.choosing.ChoiceTrouble.TheVariants.{Memory};

    ghost from_gives = { λ _ t. t ≡ Memory };

    fn from(_failed: AllocFailed<T>) -> ChoiceTrouble {
        ChoiceTrouble::Memory
    }
}

/// What each package is used under: its least choice among the licences of a list with commas between them; or its own part of
/// one choice for all. Expressions are read in the mode.
///
/// # Errors
///
/// A name of the list is no licensee's, which is told of the first; else each package that states no expression is told, or
/// where all state one, each that has no choice; where each has one, and there is none for all of them together, that. Or
/// memory was refused.
#[tactic(auto, using(crate::proofs::Causes::unnamed, crate::proofs::Causes::unread, crate::proofs::Causes::unmet))]
pub fn choose_among(
    alloc: Global,
    catalogue: &Catalogue,
    list: &str,
    mode: ParseMode,
    one_for_all: bool,
    packages: &[&Package],
) -> Result<Chosen, ChoiceTrouble>
    ensures ok { IfOk result (IsChosenAmong catalogue.now list.now mode one_for_all
        (map lent packages.now)) }
    ensures err { IfErr result (IsNoChoiceAmong catalogue.now list.now mode one_for_all
        (map lent packages.now)) }
{
    let accepted = licensees_in(alloc, catalogue, list)?;
    let stated = stated_by(alloc, catalogue, mode, packages)?;
    let chosen = chosen_among(alloc, &stated, &accepted, one_for_all)?;
    Ok(chosen)
}
