// The totals of a check.

ghost use Rattle.std.specs.Prelude.{◌≡◌};
ghost use Rattle.spdx_check.specs.Totals.{status_of, with_file};

/// How many expressions were seen, in how many files, and how many of them were refused. Counts stay at `u64::MAX`.
#[derive(Clone, Copy, Default)]
pub struct Totals {
    /// The expressions.
    pub expressions: u64,
    /// The files.
    pub files: u64,
    /// The expressions that are refused.
    pub refused: u64,
    /// Whether a path could not be read.
    pub is_short: bool,
}

impl Totals {
    /// Adds a file: how many expressions it has, and how many of them are refused.
    pub fn add(&mut self, expressions: u64, refused: u64)
        ensures { self.new ≡ with_file self.old expressions refused }
    {
        self.expressions = self.expressions.saturating_add(expressions);
        self.refused = self.refused.saturating_add(refused);
        self.files = self.files.saturating_add(1);
    }

    /// The status of a program that checks: 2 where a path could not be read, else 1 where some
    /// expression was refused, else 0.
    pub fn status(&self) -> u8
        ensures { result ≡ status_of self.now }
    {
        if self.is_short {
            2
        } else if self.refused == 0 {
            0
        } else {
            1
        }
    }
}
