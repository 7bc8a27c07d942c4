// Why packages have no choice.

ghost use Rattle.std.specs.Prelude.{◌≡◌, IfOk, OnOk, string_bytes};
ghost use Rattle.check_files.specs.Told.{Tells};
ghost use Rattle.package_commands.specs.Unchosen as spec;
ghost use Rattle.package_commands.specs.Unchosen.{
  AreNoChoicesTold,
  AreUnchosenTold,
  IsNoChoice,
  IsNoLicensee,
  IsOnly,
  all_together,
};

use choice_program::{ChoiceTrouble, Unchosen, Why};
use spdx_commands::Listener;
use spdx_lexer::error::Reason;
use spdx_troubles::Trouble;
use std::alloc::{AllocError, Global};

// Whom one choice for all is for.
const ALL: &str = "all packages together";

/// Tells why nothing is chosen.
///
/// # Errors
///
/// Memory was refused.
#[tactic(auto, using(crate::proofs::Choosing::unnamed_told, crate::proofs::Choosing::no_policy_told, crate::proofs::Choosing::unchosen_told, crate::proofs::Choosing::none_for_all_told))]
pub(crate) fn tell_unchosen<T: Listener>(
    alloc: Global,
    trouble: ChoiceTrouble,
    listener: &mut T,
) -> Result<(), AllocError>
    ensures { OnOk result (Tells (T.heard listener.old) (T.heard listener.new)
        (AreUnchosenTold trouble)) }
{
    match trouble {
        ChoiceTrouble::NoLicensee(name, reason) => {
            tell_no_licensee(alloc, name, reason, listener)?;
            Ok(())
        }
        ChoiceTrouble::Policy(trouble) => {
            listener.hear(alloc, Trouble::from(trouble))?;
            Ok(())
        }
        ChoiceTrouble::NoChoices(lacking) => {
            tell_each(alloc, lacking, listener)?;
            Ok(())
        }
        ChoiceTrouble::NoneTogether(why) => {
            tell_none_together(alloc, why, listener)?;
            Ok(())
        }
        ChoiceTrouble::Memory => Err(AllocError),
    }
}

#[tactic(auto, using(crate::proofs::Choosing::no_licensee_told))]
fn tell_no_licensee<T: Listener>(
    alloc: Global,
    name: String,
    reason: Reason,
    listener: &mut T,
) -> Result<(), AllocError>
    ensures { OnOk result (Tells (T.heard listener.old) (T.heard listener.new)
        (IsOnly (IsNoLicensee name reason))) }
{
    let why = format!(in alloc; "{reason}")?;
    listener.hear(alloc, Trouble::Accepted(name, why))?;
    Ok(())
}

#[tactic(auto, using(crate::proofs::Choosing::none_unchosen, crate::proofs::Choosing::one_unchosen))]
fn tell_each<T: Listener>(
    alloc: Global,
    lacking: Vec<Unchosen>,
    listener: &mut T,
) -> Result<(), AllocError>
    ensures { OnOk result (Tells (T.heard listener.old) (T.heard listener.new)
        (AreNoChoicesTold lacking.items)) }
{
    for one in lacking {
        let Unchosen { name, why } = one;
        let why = why_text(alloc, why)?;
        listener.hear(alloc, Trouble::NoChoice(name, why))?;
    }
    Ok(())
}

#[tactic(auto, using(crate::proofs::Choosing::none_together_told))]
fn tell_none_together<T: Listener>(
    alloc: Global,
    why: Why,
    listener: &mut T,
) -> Result<(), AllocError>
    ensures { OnOk result (Tells (T.heard listener.old) (T.heard listener.new)
        (IsOnly (IsNoChoice all_together why))) }
{
    let name = String::from_str(alloc, ALL)?;
    let why = why_text(alloc, why)?;
    listener.hear(alloc, Trouble::NoChoice(name, why))?;
    Ok(())
}

fn why_text(alloc: Global, why: Why) -> Result<String, AllocError>
    ensures { IfOk result (λ text. string_bytes text ≡ spec.why_text why) }
{
    match why {
        Why::Unstated => String::from_str(alloc, "without a licence"),
        Why::Unreadable(text, reason) => format!(in alloc; "{text}: {reason}"),
        Why::Unmet(error) => format!(in alloc; "{error}"),
        Why::NotAllowed => String::from_str(alloc, "not allowed by the policy"),
        Why::TooMany => String::from_str(alloc, "more than 1,024 requirements"),
    }
}
