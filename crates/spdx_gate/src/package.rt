//! Packages and verdicts.

/// A package, as its source has it.
#[derive(Clone, Copy, Debug)]
pub struct Package<'p> {
    /// Its name, which exceptions and clarifications are for.
    pub name: &'p str,
    /// Its version, if one is stated.
    pub version: Option<&'p str>,
    /// The text of its licence, if one is stated.
    pub license: Option<&'p str>,
}

/// What a policy says of a package.
#[derive(Clone, Copy, Debug, PartialEq, Eq)]
pub enum Verdict {
    /// Its expression passes, and would without any exception.
    Allowed,
    /// Its expression passes, and would not without the package's exceptions.
    ByException,
    /// It states no licence; whether the policy allows that.
    Unstated(bool),
    /// Its text is no expression.
    Unreadable,
    /// Its expression doesn't pass.
    Refused,
}

impl Verdict {
    ghost use Rattle.std.specs.Prelude.{◌≡◌};
    ghost use Rattle.spdx_gate.specs.Verdicts.{passes, verdict_by};

    /// Whether the package is allowed.
    pub fn is_allowed(self) -> bool
        ensures { result ≡ passes self }
    {
        match self {
            Verdict::Allowed | Verdict::ByException => true,
            Verdict::Unstated(is_allowed) => is_allowed,
            Verdict::Unreadable | Verdict::Refused => false,
        }
    }

    // Of an expression that passes or not, under the package's exceptions and under none.
    pub(crate) fn of(with_exceptions: bool, without: bool) -> Verdict
        ensures { result ≡ verdict_by with_exceptions without }
    {
        match (with_exceptions, without) {
            (false, _) => Verdict::Refused,
            (true, false) => Verdict::ByException,
            (true, true) => Verdict::Allowed,
        }
    }
}
