// When answers are written: a reader that sees what the writer has taken, as one who waits for each answer does.

use crate::lines::{run, run_in};
use crate::stream::{Input, Output};
use crate::tests::{Beginnings, COUNTS, INPUT};
use std::cell::Cell;
use std::io::{self, Read, Write};
use std::test::Fail;

// What the writer was asked for so far.
#[derive(Drop)]
struct Seen {
    taken: Cell<usize>,
    writes: Cell<usize>,
}

impl Seen {
    fn nothing() -> Seen {
        Seen {
            taken: Cell::new(0),
            writes: Cell::new(0),
        }
    }
}

// Gives the bytes in steps, and notes how many bytes the writer has taken before each read.
#[derive(Drop)]
struct Asker<'a> {
    rest: &'a [u8],
    step: usize,
    seen: &'a Seen,
    noted: Vec<usize>,
}

impl Read for Asker<'_> {
    fn read(&mut self, buf: &mut [u8]) -> io::Result<usize> {
        self.noted.push(self.seen.taken.get())?;
        let count = self.rest.len().min(buf.len()).min(self.step);
        let (given, rest) = self.rest.split_at(count);
        buf[..count].copy_from_slice(given);
        self.rest = rest;
        Ok(count)
    }
}

// Takes all that it is given.
#[derive(Drop)]
struct Taker<'a> {
    seen: &'a Seen,
}

impl Write for Taker<'_> {
    fn write(&mut self, buf: &[u8]) -> io::Result<usize> {
        let Seen { taken, writes } = self.seen;
        taken.set(taken.get().saturating_add(buf.len()));
        writes.set(writes.get().saturating_add(1));
        Ok(buf.len())
    }

    fn flush(&mut self) -> io::Result<()> {
        Ok(())
    }
}

#[test]
fn whole_lines_are_answered_before_more_is_read(rt: HostRuntime) -> Result<(), Fail> {
    let alloc = rt.alloc();
    // How much is written once so many bytes of the input are read, and how many writes that takes in all.
    let cases: [(usize, &[usize], usize); 3] = [
        (1, &[0, 0, 0, 0, 7, 15, 15, 15, 15, 22, 22], 4),
        (5, &[0, 15, 22], 3),
        (usize::MAX, &[0, 22], 2),
    ];
    for (step, noted, writes) in cases.iter() {
        let seen = Seen::nothing();
        let mut input = Input::new(Asker {
            rest: INPUT,
            step: *step,
            seen: &seen,
            noted: Vec::new(alloc),
        });
        let mut output = Output::new(Taker { seen: &seen });
        let mut beginnings = Beginnings::new(alloc);
        let result = run(alloc, &mut beginnings, &mut input, &mut output);
        assert_eq!(rt; result, Ok(COUNTS), "{step}");
        assert_eq!(rt; input.into_inner().noted.as_slice(), *noted, "{step}");
        assert_eq!(rt; seen.writes.get(), *writes, "{step}");
    }
    Ok(())
}

#[test]
fn a_short_buffer_is_a_short_piece(rt: HostRuntime) -> Result<(), Fail> {
    let alloc = rt.alloc();
    let seen = Seen::nothing();
    let mut input = Input::new(Asker {
        rest: INPUT,
        step: usize::MAX,
        seen: &seen,
        noted: Vec::new(alloc),
    });
    let mut output = Output::new(Taker { seen: &seen });
    let mut buffer = [0u8; 4];
    let mut beginnings = Beginnings::new(alloc);
    let result = run_in(alloc, &mut beginnings, &mut input, &mut output, &mut buffer);
    assert_eq!(rt; result, Ok(COUNTS));
    assert_eq!(rt;
        input.into_inner().noted.as_slice(),
        [0usize, 7, 15, 22].as_slice()
    );
    assert_eq!(rt; seen.writes.get(), 4);
    Ok(())
}
