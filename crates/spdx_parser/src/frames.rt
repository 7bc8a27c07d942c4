// The frames in which open parentheses stand.

ghost use Rattle.std.specs.Prelude.{◌≡◌, ◌+◌, ◌^◌, ◌<◌, ◌==◌, [], ◌∷◌, length, OnOk, IsOk, MatchOption};
ghost use Rattle.spdx_parser.specs.Frames.{empty_frame};

use std::alloc::{AllocError, Global};
use std::marker::Model;

/// How many left sides of OR wait for their right side, and above them how many of AND.
#[derive(Clone, Copy)]
pub struct Frame {
    pub ors: usize,
    pub ands: usize,
}

/// A frame in which something waits, and how many empty ones stand directly around it.
#[derive(Clone, Copy)]
pub struct Run {
    frame: Frame,
    around: usize,
}

/// A stack of frames. Empty ones are counted, so that a parenthesis directly behind another takes
/// no memory.
#[derive(Drop)]
pub struct Frames {
    // how many empty frames are on top
    empty: usize,
    runs: Vec<Run>,
}

impl Model for Frames {
    ghost use Rattle.std.specs.Prelude.{List};
    ghost use Rattle.spdx_parser.specs.declared.frames.Frame.{Frame};

    ghost Value = { List Frame };

    ghost use Rattle.spdx_parser.specs.FramesModel.{view_of};

    ghost view = { view_of };
}

impl Frames {
    /// No frame.
    pub fn new(alloc: Global) -> Self
        ensures { result ≡ [] }
    {
        Frames {
            empty: 0,
            runs: Vec::new(alloc),
        }
    }

    /// Whether there is none.
    pub fn is_empty(&self) -> bool
        ensures { result ≡ (length self.now == 0) }
    {
        self.empty == 0 && self.runs.is_empty()
    }

    /// How many there are, in time linear in those in which something waits.
    pub fn count(&self) -> usize
        requires { length self.now < 2 ^ 64 }
        ensures { result ≡ length self.now }
    {
        let mut count = self.empty;
        for run in &self.runs {
            count += run.around + 1;
        }
        count
    }

    /// One more on top. An empty one takes no memory.
    pub fn push(&mut self, frame: Frame) -> Result<(), AllocError>
        requires { length self.old + 1 < 2 ^ 64 }
        ensures frames { OnOk result (self.new ≡ frame ∷ self.old) }
        ensures no_memory { frame ≡ empty_frame → IsOk result }
    {
        if frame.ors == 0 && frame.ands == 0 {
            self.empty += 1;
            return Ok(());
        }
        let around = self.empty;
        self.runs.push(Run { frame, around })?;
        self.empty = 0;
        Ok(())
    }

    /// Takes off the top one, if there is one.
    pub fn pop(&mut self) -> Option<Frame>
        ensures { MatchOption result (self.old ≡ []) (λ frame. self.old ≡ frame ∷ self.new) }
    {
        if self.empty > 0 {
            self.empty -= 1;
            return Some(Frame { ors: 0, ands: 0 });
        }
        let Run { frame, around } = self.runs.pop()?;
        self.empty = around;
        Some(frame)
    }
}
