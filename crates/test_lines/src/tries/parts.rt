// `Input` and `Output` by themselves, and how often they ask the device below.

use crate::devices::{Feed, Full, Tray};
use crate::worked::INPUT;
use spdx_lines::{Failed, Input, Output, Sink, Source, write_all};
use std::alloc::Global;

/// How often the device was asked, unless something else was not as it is wanted.
pub type Asked = Option<usize>;

fn asked_if(holds: bool, asked: usize) -> Asked {
    if holds { Some(asked) } else { None }
}

/// Reads of four bytes and of none, twice each, where the reader has failed at once.
pub(crate) fn input_that_fails() -> Asked {
    let mut feed = Feed::new(INPUT);
    feed.room = 0;
    let mut input = Input::new(feed);
    let mut buffer = [0u8; 4];
    let mut fails = !input.failed();
    for _ in 0..2 {
        fails = fails && input.read(&mut buffer) == Err(Failed) && input.failed();
        fails = fails && input.read(&mut []) == Err(Failed) && input.failed();
    }
    asked_if(fails, input.into_inner().asked)
}

/// Two reads into no room, and one into room for all.
pub(crate) fn input_without_room() -> Asked {
    let mut input = Input::new(Feed::new(INPUT));
    let mut buffer = [0u8; 4096];
    let mut reads = true;
    for _ in 0..2 {
        reads = reads && input.read(&mut []) == Ok(0) && !input.failed();
    }
    let all = input.read(&mut buffer);
    reads = reads && all == Ok(INPUT.len()) && !input.failed();
    asked_if(reads, input.into_inner().asked)
}

/// Three reads at the end.
pub(crate) fn input_at_its_end() -> Asked {
    let mut input = Input::new(Feed::new(b""));
    let mut buffer = [0u8; 4];
    let mut ends = true;
    for _ in 0..3 {
        ends = ends && input.read(&mut buffer) == Ok(0) && !input.failed();
    }
    asked_if(ends, input.into_inner().asked)
}

// Whether each write, also of no byte, and each flush fails.
fn fails_for_good(output: &mut Output<Tray>) -> bool {
    let mut fails = output.failed();
    for _ in 0..2 {
        fails = fails && output.write(b"MIT") == Err(Failed) && output.failed();
        fails = fails && output.write(b"") == Err(Failed) && output.failed();
        fails = fails && output.flush() == Err(Failed) && output.failed();
    }
    fails
}

/// A write that fails, and writes and flushes behind it.
pub(crate) fn output_that_fails(alloc: Global, full: Full) -> Asked {
    let mut tray = Tray::new(alloc);
    tray.room = 0;
    tray.full = full;
    let mut output = Output::new(tray);
    let fails = !output.failed() && output.write(b"MIT") == Err(Failed);
    let fails = fails && fails_for_good(&mut output);
    asked_if(fails, output.into_inner().asked)
}

/// A flush that fails, and writes and flushes behind it.
pub(crate) fn output_that_is_not_flushed(alloc: Global) -> Asked {
    let mut tray = Tray::new(alloc);
    tray.can_flush = false;
    let mut output = Output::new(tray);
    let fails = !output.failed() && output.flush() == Err(Failed);
    let fails = fails && fails_for_good(&mut output);
    asked_if(fails, output.into_inner().asked)
}

/// Two writes of no byte where there is no room, and a flush.
pub(crate) fn output_without_bytes(alloc: Global) -> Asked {
    let mut tray = Tray::new(alloc);
    tray.room = 0;
    let mut output = Output::new(tray);
    let mut writes = true;
    for _ in 0..2 {
        writes = writes && output.write(b"") == Ok(0) && !output.failed();
    }
    writes = writes && output.flush() == Ok(()) && !output.failed();
    let tray = output.into_inner();
    asked_if(
        writes && tray.flushes.as_slice() == [0].as_slice(),
        tray.asked,
    )
}

/// All of the input written to a writer of one byte at a time, which is not flushed.
pub(crate) fn output_of_one_byte(alloc: Global) -> Asked {
    let mut tray = Tray::new(alloc);
    tray.step = 1;
    let mut output = Output::new(tray);
    let writes = write_all(&mut output, INPUT) == Ok(()) && !output.failed();
    let tray = output.into_inner();
    let writes = writes && tray.taken.as_slice() == INPUT && tray.flushes.is_empty();
    asked_if(writes, tray.asked)
}
