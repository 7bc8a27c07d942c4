// Devices that have failed, and runs over them.

use crate::devices::{Feed, Full, Tray};
use crate::shown::Shown;
use crate::ways::{Judge, Way};
use crate::worked::INPUT;
use spdx_lines::{Input, Output, RunFault, Sink, Source};

/// A second run on an input that fails behind k bytes, for each k up to the input's length: the reader is asked nothing
/// more, and nothing is written.
pub(crate) fn failed_input(judge: &Judge<'_>, way: Way) -> Shown {
    let cases = INPUT.len() + 1;
    for room in 0..cases {
        if !stays_broken(judge, way, room) {
            return Shown::Differs(room);
        }
    }
    Shown::Cases(cases)
}

fn stays_broken(judge: &Judge<'_>, way: Way, room: usize) -> bool {
    let mut feed = Feed::new(INPUT);
    feed.step = 1;
    feed.room = room;
    let mut input = Input::new(feed);
    let mut first = Output::new(Tray::new(judge.alloc));
    let mut second = Output::new(Tray::new(judge.alloc));
    let answers = [
        judge.call(way, &mut input, &mut first),
        judge.call(way, &mut input, &mut second),
    ];
    let has_failed = input.failed();
    let feed = input.into_inner();
    answers == [Err(RunFault::Read); 2]
        && has_failed
        && feed.asked == room.saturating_add(1)
        && second.into_inner().asked == 0
}

/// A second run on an output that has room for k bytes, for each k below the output's length: the writer is asked nothing
/// more, also where there is nothing to write but the flush.
pub(crate) fn failed_output(judge: &Judge<'_>, way: Way) -> Shown {
    let length = way.output().len();
    for room in 0..length {
        if !stays_full(judge, way, room, INPUT) || !stays_full(judge, way, room, b"") {
            return Shown::Differs(room);
        }
    }
    Shown::Cases(length)
}

fn stays_full(judge: &Judge<'_>, way: Way, room: usize, more: &[u8]) -> bool {
    let mut tray = Tray::new(judge.alloc);
    tray.step = 1;
    tray.room = room;
    tray.full = Full::NoByte;
    let mut output = Output::new(tray);
    let mut first = Input::new(Feed::new(INPUT));
    let mut second = Input::new(Feed::new(more));
    let answers = [
        judge.call(way, &mut first, &mut output),
        judge.call(way, &mut second, &mut output),
    ];
    let has_failed = output.failed();
    let tray = output.into_inner();
    answers == [Err(RunFault::Write); 2]
        && has_failed
        && tray.asked == room.saturating_add(1)
        && tray.flushes.is_empty()
}
