// A line of more than 2 MiB.

use crate::devices::{Feed, Tray};
use crate::shown::Shown;
use crate::ways::{Judge, Way};
use spdx_lines::Summary;
use std::alloc::{AllocError, Global};

// A fourth of 2 MiB.
const TIMES: u32 = 524_288;

// A text of the middle, `TIMES` over, between its front and its back.
fn repeated(alloc: Global, front: &str, middle: &str, back: &str) -> Result<Vec<u8>, AllocError> {
    let mut text = Vec::from_slice(alloc, front.as_bytes())?;
    for _ in 0..TIMES {
        text.extend_from_slice(middle.as_bytes())?;
    }
    text.extend_from_slice(back.as_bytes())?;
    Ok(text)
}

/// MIT, `TIMES` over and once more, with slashes between: its answer has operators in their place.
pub(crate) fn long_line(judge: &Judge<'_>) -> Result<Shown, AllocError> {
    let input = repeated(judge.alloc, "", "mit/", "mit\n")?;
    let wanted = repeated(judge.alloc, "accepted\t", "MIT OR ", "MIT\tMIT\n")?;
    let played = judge.play(Way::Run, Feed::new(&input), Tray::new(judge.alloc));
    let counts = Summary {
        lines: 1,
        refused: 0,
    };
    if played.answer == Ok(counts)
        && played.tray.taken.as_slice() == wanted.as_slice()
        && played.tray.flushes.as_slice() == [wanted.len()].as_slice()
    {
        Ok(Shown::Cases(1))
    } else {
        Ok(Shown::Differs(0))
    }
}
