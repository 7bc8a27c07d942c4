// What a row of tries has shown.

use std::fmt;

/// How many cases were as they are wanted, or the first that was not.
#[derive(Drop)]
pub enum Shown {
    Cases(usize),
    Differs(usize),
}

impl fmt::Display for Shown {
    fn fmt<W: fmt::Write>(&self, f: &mut fmt::Formatter<W>) -> fmt::Result {
        match self {
            Shown::Cases(count) => write!(f, "{count} cases"),
            Shown::Differs(case) => write!(f, "case {case} differs"),
        }
    }
}
