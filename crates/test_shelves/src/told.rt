// Who is told of troubles, and keeps the lines.

use fix_program::Progress;
use spdx_commands::{Follower, Listener};
use spdx_troubles::Trouble;
use std::alloc::{AllocError, Global};

/// The lines that were told.
#[derive(Drop)]
pub(crate) struct Told {
    lines: Vec<String>,
}

impl Told {
    pub(crate) fn new(alloc: Global) -> Told {
        Told {
            lines: Vec::new(alloc),
        }
    }

    /// Takes the trouble at which a command stops, and gives its status.
    pub(crate) fn hear_last(&mut self, alloc: Global, trouble: Trouble) -> Result<u8, AllocError> {
        let status = trouble.status();
        self.hear(alloc, trouble)?;
        Ok(status)
    }

    /// What a row has of a command: the status, what is written, each line that is told, and behind a semicolon that of totals.
    pub(crate) fn answer(
        &self,
        alloc: Global,
        status: u8,
        written: &str,
        totals: Option<&str>,
    ) -> Result<String, AllocError> {
        let told = self.in_brackets(alloc)?;
        match totals {
            Some(line) => {
                let line = line.trim_end();
                format!(in alloc; "{status}:{written}{told}; {line}")
            }
            None => format!(in alloc; "{status}:{written}{told}"),
        }
    }

    /// Each in brackets behind a blank.
    pub(crate) fn in_brackets(&self, alloc: Global) -> Result<String, AllocError> {
        let mut told = String::new(alloc);
        for line in &self.lines {
            told.push_str(format!(in alloc; " [{line}]")?.as_str())?;
        }
        Ok(told)
    }
}

/// The line of totals, where there is one.
pub(crate) fn line_of(totals: &Option<String>) -> Option<&str> {
    match totals {
        Some(line) => Some(line.as_str()),
        None => None,
    }
}

impl Listener for Told {
    ghost use Rattle.check_files.specs.Told.{unkept};

    ghost heard = { λ _. unkept };

    fn hear(&mut self, alloc: Global, trouble: Trouble) -> Result<(), AllocError> {
        let line = trouble.line(alloc)?;
        let text = String::from_str(alloc, line.as_str().trim_end())?;
        self.lines.push(text)?;
        Ok(())
    }
}

impl Progress for Told {
    ghost Shows = { λ _ _. Unit {0} };

    fn seen(&mut self, _alloc: Global, _files: u64) -> Result<(), AllocError> {
        Ok(())
    }

    fn ended(&mut self) {}
}

impl Follower for Told {
    ghost steady = { λ _ _ _. tt };
}
