//! Marks of requirements.

ghost use Rattle.std.specs.Prelude.{◌≡◌};

/// What was decided of a requirement: it is allowed, or denied, or nothing was.
#[derive(Clone, Copy, PartialEq, Eq, Debug)]
pub enum Mark {
    Allowed,
    Denied,
    Open,
}

impl Mark {
    ghost use Rattle.spdx_why.specs.Marks.{allows, leaves_open};

    /// Whether the requirement is allowed.
    pub fn is_allowed(self) -> bool
        ensures { result ≡ allows self }
    {
        matches!(self, Mark::Allowed)
    }

    /// Whether nothing was decided.
    pub fn is_open(self) -> bool
        ensures { result ≡ leaves_open self }
    {
        matches!(self, Mark::Open)
    }
}
