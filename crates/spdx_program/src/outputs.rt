// Where the program writes.

use line_engine::device::{Failed, Sink};

/// What is known of the outputs.
#[derive(Clone, Copy)]
pub struct Screen {
    /// Whether what people read has colours.
    pub colours: bool,
    /// Whether it is shown, where troubles are told, how far a walk is.
    pub progress: bool,
}

/// Takes bytes and lets them go, where it is to be quiet.
#[derive(Drop)]
pub(crate) struct Nowhere {}

impl Sink for Nowhere {
    ghost use Rattle.spdx_program.specs.Requests.{nowhere};

    ghost told = { λ _. nowhere };

    fn write(&mut self, bytes: &[u8]) -> Result<usize, Failed> {
        Ok(bytes.len())
    }

    fn flush(&mut self) -> Result<(), Failed> {
        Ok(())
    }

    fn failed(&self) -> bool {
        false
    }
}
