// Runs over a reader and a writer in memory that fail where they are told to.

ghost use Rattle.std.specs.Prelude.{◌≡◌, ◌<◌, ◌==◌, ◌++◌, ◌∷◌, [], if◌then◌else◌, length, take, codes};
ghost use Rattle.std.specs.List.{flat_map};

use crate::device::{Sink, Source};
use crate::lines::{RunFault, Summary, run, run_in};
use crate::stream::{Input, Output};
use crate::verdicts::Verdicts;
use std::alloc::{AllocError, Global};
use std::io::{self, ErrorKind, Read, Write};
use std::test::Fail;

// Refuses empty lines, and says at the end how the lines begin.
#[derive(Drop)]
pub(crate) struct Beginnings {
    firsts: Vec<u8>,
}

impl Beginnings {
    pub(crate) fn new(alloc: Global) -> Beginnings
        ensures { result.firsts.items ≡ [] }
    {
        Beginnings {
            firsts: Vec::new(alloc),
        }
    }
}

impl Verdicts for Beginnings {
    ghost rule = { λ _. record {
      text = λ _ line. if length line == 0 then codes "refused\n" else codes "ok " ++ line ++ 10 ∷ [];
      refuses = λ line. length line == 0;
      closing = λ lines. codes "=" ++ flat_map (take 1) lines ++ 10 ∷ [];
    } };

    ghost HasAnswered = { λ beginnings lines. beginnings.firsts.items ≡ flat_map (take 1) lines };

    fn answer(
        &mut self,
        _alloc: Global,
        line: &[u8],
        text: &mut Vec<u8>,
    ) -> Result<bool, AllocError> {
        if let Some(first) = line.first() {
            text.extend_from_slice(b"ok ")?;
            text.extend_from_slice(line)?;
            text.push(b'\n')?;
            self.firsts.push(*first)?;
            Ok(false)
        } else {
            text.extend_from_slice(b"refused\n")?;
            Ok(true)
        }
    }

    fn close(&mut self, _alloc: Global, text: &mut Vec<u8>) -> Result<(), AllocError> {
        text.push(b'=')?;
        text.extend_from_slice(&self.firsts)?;
        text.push(b'\n')?;
        Ok(())
    }
}

// Gives the bytes in steps, fails once so many are given, and counts how often it is asked.
#[derive(Drop)]
pub(crate) struct Feed<'a> {
    pub(crate) rest: &'a [u8],
    step: usize,
    until_failure: usize,
    pub(crate) asked: u32,
}

impl<'a> Feed<'a> {
    pub(crate) fn new(rest: &'a [u8]) -> Feed<'a> {
        Feed {
            rest,
            step: usize::MAX,
            until_failure: usize::MAX,
            asked: 0,
        }
    }
}

impl<'a> Read for Feed<'a> {
    fn read(&mut self, buf: &mut [u8]) -> io::Result<usize> {
        self.asked = self.asked.saturating_add(1);
        if self.until_failure == 0 {
            return Err(io::Error::from(ErrorKind::Other));
        }
        let room = buf.len().min(self.step).min(self.until_failure);
        let count = self.rest.len().min(room);
        let (given, rest) = self.rest.split_at(count);
        buf[..count].copy_from_slice(given);
        self.rest = rest;
        self.until_failure -= count;
        Ok(count)
    }
}

// Takes bytes in steps, fails once so many are taken, and notes how many were taken at each flush.
#[derive(Drop)]
pub(crate) struct Tray {
    pub(crate) taken: Vec<u8>,
    step: usize,
    until_failure: usize,
    can_flush: bool,
    flushes: Vec<usize>,
}

impl Tray {
    pub(crate) fn new(alloc: Global) -> Tray {
        Tray {
            taken: Vec::new(alloc),
            step: 3,
            until_failure: usize::MAX,
            can_flush: true,
            flushes: Vec::new(alloc),
        }
    }
}

impl Write for Tray {
    fn write(&mut self, buf: &[u8]) -> io::Result<usize> {
        if self.until_failure == 0 {
            return Err(io::Error::from(ErrorKind::Other));
        }
        let count = buf.len().min(self.step).min(self.until_failure);
        self.taken.extend_from_slice(&buf[..count])?;
        self.until_failure -= count;
        Ok(count)
    }

    fn flush(&mut self) -> io::Result<()> {
        if !self.can_flush {
            return Err(io::Error::from(ErrorKind::Other));
        }
        self.flushes.push(self.taken.len())?;
        Ok(())
    }
}

pub(crate) const INPUT: &[u8] = b"abc\n\nde\r\nf";

const OUTPUT: &[u8] = b"ok abc\nrefused\nok de\r\nok f\n=adf\n";

pub(crate) const COUNTS: Summary = Summary {
    lines: 4,
    refused: 1,
};

pub(crate) type Played = (Result<Summary, RunFault>, Tray);

fn play(alloc: Global, feed: Feed, tray: Tray, buffer: &mut [u8]) -> Played
    requires { 0 < length buffer.old }
{
    play_over(alloc, &mut Input::new(feed), tray, buffer)
}

pub(crate) fn play_over(
    alloc: Global,
    input: &mut Input<Feed>,
    tray: Tray,
    buffer: &mut [u8],
) -> Played
    requires { 0 < length buffer.old }
{
    let mut beginnings = Beginnings::new(alloc);
    let mut output = Output::new(tray);
    let result = run_in(alloc, &mut beginnings, input, &mut output, buffer);
    (result, output.into_inner())
}

#[test]
fn every_buffer_gives_the_same(rt: HostRuntime) -> Result<(), Fail> {
    let alloc = rt.alloc();
    for size in [1usize, 2, 7, 4096] {
        for step in [1usize, usize::MAX] {
            let mut buffer = [0u8; 4096];
            let mut feed = Feed::new(INPUT);
            feed.step = step;
            let (result, tray) = play(alloc, feed, Tray::new(alloc), &mut buffer[..size]);
            assert_eq!(rt; result, Ok(COUNTS), "{size} {step}");
            assert_eq!(rt; tray.taken.as_slice(), OUTPUT, "{size} {step}");
            assert_eq!(rt; tray.flushes.as_slice(), [OUTPUT.len()].as_slice());
        }
    }
    let mut output = Output::new(Tray::new(alloc));
    let mut beginnings = Beginnings::new(alloc);
    let result = run(
        alloc,
        &mut beginnings,
        &mut Input::new(Feed::new(INPUT)),
        &mut output,
    );
    assert_eq!(rt; result, Ok(COUNTS));
    assert_eq!(rt; output.into_inner().taken.as_slice(), OUTPUT);
    Ok(())
}

#[test]
fn a_writer_that_fails_holds_a_beginning(rt: HostRuntime) -> Result<(), Fail> {
    let alloc = rt.alloc();
    let mut buffer = [0u8; 4];
    for k in 0..OUTPUT.len() {
        let mut tray = Tray::new(alloc);
        tray.until_failure = k;
        let (result, tray) = play(alloc, Feed::new(INPUT), tray, &mut buffer);
        assert_eq!(rt; result, Err(RunFault::Write), "{k}");
        assert_eq!(rt; tray.taken.as_slice(), &OUTPUT[..k]);
        assert!(rt; tray.flushes.is_empty());
    }
    let mut taking_none = Tray::new(alloc);
    taking_none.step = 0;
    let (result, tray) = play(alloc, Feed::new(INPUT), taking_none, &mut buffer);
    assert_eq!(rt; result, Err(RunFault::Write));
    assert!(rt; tray.taken.is_empty());
    let mut flushing_none = Tray::new(alloc);
    flushing_none.can_flush = false;
    let (result, tray) = play(alloc, Feed::new(INPUT), flushing_none, &mut buffer);
    assert_eq!(rt; result, Err(RunFault::Write));
    assert_eq!(rt; tray.taken.as_slice(), OUTPUT);
    Ok(())
}

#[test]
fn a_reader_that_fails_gives_its_whole_lines(rt: HostRuntime) -> Result<(), Fail> {
    let alloc = rt.alloc();
    let mut buffer = [0u8; 4];
    // How much is written after so many bytes of the input.
    let written = [0usize, 0, 0, 0, 7, 15, 15, 15, 15, 22, 22];
    for (k, end) in written.iter().enumerate() {
        let mut feed = Feed::new(INPUT);
        feed.until_failure = k;
        let (result, tray) = play(alloc, feed, Tray::new(alloc), &mut buffer);
        assert_eq!(rt; result, Err(RunFault::Read), "{k}");
        assert_eq!(rt; Some(tray.taken.as_slice()), OUTPUT.get(..*end));
        assert!(rt; tray.flushes.is_empty());
    }
    Ok(())
}

#[test]
fn an_input_may_end_anywhere(rt: HostRuntime) -> Result<(), Fail> {
    let alloc = rt.alloc();
    let mut buffer = [0u8; 4];
    let outputs: [&[u8]; 11] = [
        b"=\n",
        b"ok a\n=a\n",
        b"ok ab\n=a\n",
        b"ok abc\n=a\n",
        b"ok abc\n=a\n",
        b"ok abc\nrefused\n=a\n",
        b"ok abc\nrefused\nok d\n=ad\n",
        b"ok abc\nrefused\nok de\n=ad\n",
        b"ok abc\nrefused\nok de\r\n=ad\n",
        b"ok abc\nrefused\nok de\r\n=ad\n",
        OUTPUT,
    ];
    for (k, output) in outputs.iter().enumerate() {
        let (bytes, _) = INPUT.split_at(k.min(INPUT.len()));
        let (result, tray) = play(alloc, Feed::new(bytes), Tray::new(alloc), &mut buffer);
        assert!(rt; result.is_ok(), "{k}");
        assert_eq!(rt; tray.taken.as_slice(), *output, "{k}");
    }
    Ok(())
}

#[test]
fn a_failed_input_is_not_asked_again(rt: HostRuntime) -> Result<(), Fail> {
    let alloc = rt.alloc();
    let mut feed = Feed::new(INPUT);
    feed.until_failure = 5;
    let mut input = Input::new(feed);
    for _ in 0..2 {
        let mut beginnings = Beginnings::new(alloc);
        let mut output = Output::new(Tray::new(alloc));
        let result = run(alloc, &mut beginnings, &mut input, &mut output);
        assert_eq!(rt; result, Err(RunFault::Read));
        assert!(rt; input.failed());
        assert!(rt; !output.failed());
    }
    assert_eq!(rt; input.into_inner().asked, 2);
    Ok(())
}
