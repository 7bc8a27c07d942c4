// The line that tells how many there are.

ghost use Rattle.notice_told.specs.Totals as spec;
ghost use Rattle.std.specs.Prelude.{◌≡◌, IfOk, string_bytes};

use crate::page::Totals;
use std::alloc::{AllocError, Global};

/// The line that tells the totals, with its end.
///
/// # Errors
///
/// Memory was refused.
#[tactic(auto, unfolding(crate::specs::Totals::totals_line))]
pub fn totals_line(alloc: Global, totals: &Totals) -> Result<String, AllocError>
    ensures { IfOk result (λ line. string_bytes line ≡ spec.totals_line totals.now) }
{
    let packages = counted(alloc, totals.packages, "package")?;
    let own = counted(alloc, totals.own, "own text")?;
    let general = counted(alloc, totals.general, "general text")?;
    let without = counted(alloc, totals.without, "package")?;
    let line = format!(in alloc; "{packages}: {own}, {general}, {without} without a text\n")?;
    Ok(line)
}

#[tactic(auto, unfolding(crate::specs::Totals::counted))]
fn counted(alloc: Global, count: usize, word: &str) -> Result<String, AllocError>
    ensures { IfOk result (λ text. string_bytes text ≡ spec.counted count word.now) }
{
    let ending = if count == 1 { "" } else { "s" };
    format!(in alloc; "{count} {word}{ending}")
}
