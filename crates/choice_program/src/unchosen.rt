// Packages that have no choice.

ghost use Rattle.std.specs.Prelude.{◌≡◌, IfOk, string_bytes};
ghost use Rattle.choice_program.specs.Unchosen.{told_name};

use package_sources::Package;
use spdx_lexer::error::Reason;
use spdx_minimize::MinimizeError;
use std::alloc::{AllocError, Global};

/// Why a package, or all of them together, have no choice.
#[derive(Drop)]
pub enum Why {
    /// It states no licence.
    Unstated,
    /// Its text is no expression.
    Unreadable(String, Reason),
    /// What is accepted doesn't suffice, or there is too much of it.
    Unmet(MinimizeError),
    /// What the policy allows doesn't suffice.
    NotAllowed,
    /// It has more requirements, or the policy allows more of them all, than are judged: more than 1,024.
    TooMany,
}

/// A package that has no choice.
#[derive(Drop)]
pub struct Unchosen {
    /// Its name, and its version where it has one.
    pub name: String,
    pub why: Why,
}

/// The package with why it has no choice.
///
/// # Errors
///
/// Memory was refused.
pub fn unchosen_for(alloc: Global, listed: &Package, why: Why) -> Result<Unchosen, AllocError>
    ensures name { IfOk result (λ u. string_bytes u.name ≡ told_name listed.now) }
    ensures why { IfOk result (λ u. u.why ≡ why) }
{
    Ok(Unchosen {
        name: told_name(alloc, listed)?,
        why,
    })
}

/// The package by its name, and by its version where it has one.
///
/// # Errors
///
/// Memory was refused.
pub fn told_name(alloc: Global, listed: &Package) -> Result<String, AllocError>
    ensures { IfOk result (λ name. string_bytes name ≡ told_name listed.now) }
{
    let name = listed.name.as_str();
    match &listed.version {
        Some(version) => format!(in alloc; "{name} {version}"),
        None => String::from_str(alloc, name),
    }
}
