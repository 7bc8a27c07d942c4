// Readers that fail, and inputs that are cut off.

use crate::devices::{Feed, Tray};
use crate::shown::Shown;
use crate::ways::{Judge, Way};
use crate::worked::{CUTS, INPUT, first_lines, front_of_input};
use spdx_lines::{RunFault, Summary};
use std::alloc::{AllocError, Global};

// Whether the fault is told of behind so many bytes, and what is written is the answers to the lines that end in them.
fn is_broken_off(judge: &Judge<'_>, way: Way, step: usize, room: usize) -> bool {
    let (front, ended) = front_of_input(room);
    let mut feed = Feed::new(INPUT);
    feed.step = step;
    feed.room = room;
    let played = judge.play(way, feed, Tray::new(judge.alloc));
    played.answer == Err(RunFault::Read)
        && played.feed.rest.len() + front.len() == INPUT.len()
        && played.feed.failures == 1
        && played.tray.taken.as_slice() == first_lines(way.output(), ended)
        && played.tray.flushes.is_empty()
}

/// A reader that gives k bytes, in steps, and then fails, for each k up to the input's length.
pub(crate) fn broken_off(judge: &Judge<'_>, way: Way, step: usize) -> Shown {
    let cases = INPUT.len() + 1;
    for room in 0..cases {
        if !is_broken_off(judge, way, step, room) {
            return Shown::Differs(room);
        }
    }
    Shown::Cases(cases)
}

// A row of the table of cuts.
#[derive(Drop)]
struct Cut<'a> {
    line: &'a str,
    answer: &'a str,
    choice: &'a str,
}

impl<'a> Cut<'a> {
    fn of(row: &'a str) -> Option<Cut<'a>> {
        let mut columns = row.split('|');
        Some(Cut {
            line: columns.next()?,
            answer: columns.next()?,
            choice: columns.next()?,
        })
    }

    // The answer, which has no choice where one is for all lines.
    fn answer_by(&self, way: Way) -> &'a str {
        match self.answer.rsplit_once('\t') {
            Some((front, _)) if way.is_joint() => front,
            _ => self.answer,
        }
    }

    // The answers to the lines that end before the cut, and to the one that is cut off.
    fn answers(&self, alloc: Global, way: Way, ended: usize) -> Result<Vec<u8>, AllocError> {
        let mut text = Vec::from_slice(alloc, first_lines(way.output(), ended))?;
        if !self.line.is_empty() {
            text.extend_from_slice(self.answer_by(way).as_bytes())?;
            text.push(b'\n')?;
        }
        Ok(text)
    }

    // Behind them the choice for all, where there is one.
    fn put_choice(&self, way: Way, text: &mut Vec<u8>) -> Result<(), AllocError> {
        if way.is_joint() {
            text.extend_from_slice(b"all\t")?;
            text.extend_from_slice(self.choice.as_bytes())?;
            text.push(b'\n')?;
        }
        Ok(())
    }
}

// How many lines were answered, and how many of them refused.
fn counts_of(answers: &[u8]) -> Summary {
    let mut counts = Summary {
        lines: 0,
        refused: 0,
    };
    for answer in str::from_utf8(answers).unwrap_or("").lines() {
        counts.lines = counts.lines.saturating_add(1);
        if !answer.starts_with("accepted\t") {
            counts.refused = counts.refused.saturating_add(1);
        }
    }
    counts
}

// Whether the front of the input is answered as the row says.
fn is_cut_off(
    judge: &Judge<'_>,
    way: Way,
    step: usize,
    length: usize,
    row: &str,
) -> Result<bool, AllocError> {
    let (front, ended) = front_of_input(length);
    let Some(cut) = Cut::of(row) else {
        return Ok(false);
    };
    let mut wanted = cut.answers(judge.alloc, way, ended)?;
    let counts = counts_of(&wanted);
    cut.put_choice(way, &mut wanted)?;
    let mut feed = Feed::new(front);
    feed.step = step;
    let played = judge.play(way, feed, Tray::new(judge.alloc));
    Ok(
        front.ends_with(cut.line.as_bytes())
            && played.answer == Ok(counts)
            && played.tray.taken.as_slice() == wanted.as_slice()
            && played.tray.flushes.as_slice() == [wanted.len()].as_slice(),
    )
}

/// The input cut off after k bytes, for each k below its length.
pub(crate) fn cut_off(judge: &Judge<'_>, way: Way, step: usize) -> Result<Shown, AllocError> {
    let mut cases = 0usize;
    for (length, row) in CUTS.lines().enumerate() {
        if !is_cut_off(judge, way, step, length, row)? {
            return Ok(Shown::Differs(length));
        }
        cases = cases.saturating_add(1);
    }
    Ok(Shown::Cases(cases))
}
