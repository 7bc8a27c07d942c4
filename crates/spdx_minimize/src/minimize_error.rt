//! Why there is no choice of licensees.

ghost use Rattle.std.specs.Prelude.{◌≡◌, Some};
ghost use Rattle.spdx_minimize.specs.MinimizeTexts.{minimize_text, minimize_description};

use std::fmt;

/// Why there is no choice of licensees.
#[derive(Clone, Copy, Debug, PartialEq, Eq)]
pub enum MinimizeError {
    /// So many licensees are useful, which is more than 1,024.
    TooManyRequirements(usize),
    /// Not even all useful licensees together make the expressions true.
    RequirementsUnmet,
}

impl MinimizeError {
    /// What the error says, apart from the number.
    pub fn description(&self) -> &'static str
        ensures { result.now ≡ minimize_description self.now }
    {
        match self {
            MinimizeError::TooManyRequirements(_) => "too many requirements in license expression",
            MinimizeError::RequirementsUnmet => {
                "the expression was not satisfied by the provided list of licensees"
            }
        }
    }
}

impl fmt::Display for MinimizeError {
    ghost output = { λ e. Some (minimize_text e) };

    fn fmt<W: fmt::Write>(&self, f: &mut fmt::Formatter<W>) -> fmt::Result {
        match self {
            MinimizeError::TooManyRequirements(count) => write!(
                f,
                "the license expression required {count} licensees which exceeds the limit of 1024"
            ),
            MinimizeError::RequirementsUnmet => f.write_str(self.description()),
        }
    }
}

impl std::error::Error for MinimizeError {}
