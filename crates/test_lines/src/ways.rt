// The calls that answer lines, each over a reader and a writer in memory.

ghost use Rattle.std.specs.Prelude.{◌<◌, ◌≤◌};

use crate::devices::{Feed, Tray};
use crate::worked::{LAX, Worked};
use spdx::{Catalogue, Licensee};
use spdx_lines::{Input, LineMode, Output, RunFault, Summary, run, run_all, run_all_in, run_in};
use std::alloc::Global;
use std::fmt;

/// A call, and how long its buffer is where it is handed one.
#[derive(Clone, Copy)]
pub enum Way {
    Run,
    RunIn(usize),
    RunAll,
    RunAllIn(usize),
}

pub const WAYS: [Way; 10] = [
    Way::Run,
    Way::RunIn(1),
    Way::RunIn(2),
    Way::RunIn(7),
    Way::RunIn(4096),
    Way::RunAll,
    Way::RunAllIn(1),
    Way::RunAllIn(2),
    Way::RunAllIn(7),
    Way::RunAllIn(4096),
];

impl Way {
    /// Whether one choice is for all lines.
    pub(crate) fn is_joint(self) -> bool {
        match self {
            Way::Run | Way::RunIn(_) => false,
            Way::RunAll | Way::RunAllIn(_) => true,
        }
    }

    // How long its buffer is.
    fn size(self) -> usize
        ensures some { 0 < result }
        ensures most { result ≤ 4096 }
    {
        match self {
            Way::Run | Way::RunAll => 4096,
            Way::RunIn(size) | Way::RunAllIn(size) => size.clamp(1, 4096),
        }
    }

    /// What is written for the worked lines of mode lax.
    pub(crate) fn output(self) -> &'static str {
        self.output_for(&LAX)
    }

    /// What is written for these lines.
    pub(crate) fn output_for(self, worked: &Worked) -> &'static str {
        if self.is_joint() {
            worked.joint
        } else {
            worked.each
        }
    }
}

impl fmt::Display for Way {
    fn fmt<W: fmt::Write>(&self, f: &mut fmt::Formatter<W>) -> fmt::Result {
        match self {
            Way::Run => write!(f, "run"),
            Way::RunIn(size) => write!(f, "run_in {size}"),
            Way::RunAll => write!(f, "run_all"),
            Way::RunAllIn(size) => write!(f, "run_all_in {size}"),
        }
    }
}

/// What a call answered.
pub type Answer = Result<Summary, RunFault>;

/// What a call answered, and what it left of its devices.
#[derive(Drop)]
pub struct Played<'a> {
    pub answer: Answer,
    pub feed: Feed<'a>,
    pub tray: Tray,
}

/// What lines are judged by.
#[derive(Drop)]
pub struct Judge<'c> {
    pub alloc: Global,
    pub catalogue: &'c Catalogue,
    pub mode: LineMode,
    pub accepted: Vec<Licensee<'c>>,
}

impl Judge<'_> {
    /// One call over fresh devices.
    pub(crate) fn play<'a>(&self, way: Way, feed: Feed<'a>, tray: Tray) -> Played<'a> {
        let mut input = Input::new(feed);
        let mut output = Output::new(tray);
        let answer = self.call(way, &mut input, &mut output);
        Played {
            answer,
            feed: input.into_inner(),
            tray: output.into_inner(),
        }
    }

    /// One call over these devices.
    pub(crate) fn call(
        &self,
        way: Way,
        input: &mut Input<Feed<'_>>,
        output: &mut Output<Tray>,
    ) -> Answer {
        let (alloc, catalogue, mode) = (self.alloc, self.catalogue, self.mode);
        let accepted = self.accepted.as_slice();
        let mut buffer = [0u8; 4096];
        let room = &mut buffer[..way.size()];
        match way {
            Way::Run => run(alloc, catalogue, mode, accepted, input, output),
            Way::RunIn(_) => run_in(alloc, catalogue, mode, accepted, input, output, room),
            Way::RunAll => run_all(alloc, catalogue, mode, accepted, input, output),
            Way::RunAllIn(_) => run_all_in(alloc, catalogue, mode, accepted, input, output, room),
        }
    }
}
