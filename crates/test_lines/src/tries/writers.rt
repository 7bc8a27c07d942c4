// Writers that take little, and writers that fail.

use crate::devices::{Feed, Full, Tray};
use crate::shown::Shown;
use crate::ways::{Judge, Way};
use crate::worked::{INPUT, Worked};
use spdx_lines::RunFault;

// Whether all is written for these lines, and flushed once, behind the last byte.
fn is_whole(judge: &Judge<'_>, way: Way, worked: &Worked, reads: usize, writes: usize) -> bool {
    let mut feed = Feed::new(worked.input);
    feed.step = reads;
    let mut tray = Tray::new(judge.alloc);
    tray.step = writes;
    let played = judge.play(way, feed, tray);
    let wanted = way.output_for(worked).as_bytes();
    played.answer == Ok(worked.counts)
        && played.feed.rest.is_empty()
        && played.tray.taken.as_slice() == wanted
        && played.tray.flushes.as_slice() == [wanted.len()].as_slice()
}

/// Devices that give and take one byte at a time, or all at once.
pub(crate) fn whole(judge: &Judge<'_>, way: Way, worked: &Worked) -> Shown {
    let steps = [
        (usize::MAX, usize::MAX),
        (usize::MAX, 1),
        (1, usize::MAX),
        (1, 1),
    ];
    for (case, (reads, writes)) in steps.iter().enumerate() {
        if !is_whole(judge, way, worked, *reads, *writes) {
            return Shown::Differs(case);
        }
    }
    Shown::Cases(steps.len())
}

// Whether the fault is told of where there is room for so many bytes alone, and the output's first ones were taken.
fn is_cut_short(judge: &Judge<'_>, way: Way, step: usize, full: Full, room: usize) -> bool {
    let mut tray = Tray::new(judge.alloc);
    tray.step = step;
    tray.full = full;
    tray.room = room;
    let played = judge.play(way, Feed::new(INPUT), tray);
    played.answer == Err(RunFault::Write)
        && Some(played.tray.taken.as_slice()) == way.output().as_bytes().get(..room)
        && played.tray.failures == 1
        && played.tray.flushes.is_empty()
}

/// A writer that takes k bytes, in steps, and then none, for each k below the output's length.
pub(crate) fn cut_short(judge: &Judge<'_>, way: Way, step: usize, full: Full) -> Shown {
    let length = way.output().len();
    for room in 0..length {
        if !is_cut_short(judge, way, step, full, room) {
            return Shown::Differs(room);
        }
    }
    Shown::Cases(length)
}

/// A flush that fails: the output is whole, and the flush the last that the writer is asked for.
pub(crate) fn unflushed(judge: &Judge<'_>, way: Way) -> Shown {
    let mut tray = Tray::new(judge.alloc);
    tray.step = 1;
    tray.can_flush = false;
    let played = judge.play(way, Feed::new(INPUT), tray);
    let wanted = way.output().as_bytes();
    if played.answer == Err(RunFault::Write)
        && played.tray.taken.as_slice() == wanted
        && played.tray.failures == 1
        && played.tray.asked == wanted.len() + 1
    {
        Shown::Cases(1)
    } else {
        Shown::Differs(0)
    }
}
