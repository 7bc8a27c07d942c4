// A reader and a writer over memory, which fail where they are told to and count how often they are asked. They claim
// nothing of their bytes.

use std::alloc::Global;
use std::io::{self, ErrorKind, Read, Write};

/// Gives its bytes, `step` at a time, and fails once `room` of them are given.
#[derive(Drop)]
pub struct Feed<'a> {
    pub rest: &'a [u8],
    pub step: usize,
    pub room: usize,
    pub asked: usize,
    pub failures: usize,
}

impl<'a> Feed<'a> {
    /// Gives all that is asked for, and never fails.
    pub(crate) fn new(rest: &'a [u8]) -> Feed<'a> {
        Feed {
            rest,
            step: usize::MAX,
            room: usize::MAX,
            asked: 0,
            failures: 0,
        }
    }
}

impl Read for Feed<'_> {
    fn read(&mut self, buf: &mut [u8]) -> io::Result<usize> {
        self.asked = self.asked.saturating_add(1);
        if self.room == 0 {
            self.failures = self.failures.saturating_add(1);
            return Err(io::Error::from(ErrorKind::Other));
        }
        let count = self.rest.len().min(buf.len()).min(self.step).min(self.room);
        let (given, rest) = self.rest.split_at(count);
        buf[..count].copy_from_slice(given);
        self.rest = rest;
        self.room -= count;
        Ok(count)
    }
}

/// What a write answers that finds no room.
#[derive(Clone, Copy)]
pub enum Full {
    Error,
    NoByte,
}

/// Takes `room` bytes, `step` at a time, and notes how many were taken at each flush.
#[derive(Drop)]
pub struct Tray {
    pub taken: Vec<u8>,
    pub step: usize,
    pub room: usize,
    pub full: Full,
    pub can_flush: bool,
    pub asked: usize,
    pub failures: usize,
    pub flushes: Vec<usize>,
}

impl Tray {
    /// Takes all that it is given, and never fails.
    pub(crate) fn new(alloc: Global) -> Tray {
        Tray {
            taken: Vec::new(alloc),
            step: usize::MAX,
            room: usize::MAX,
            full: Full::Error,
            can_flush: true,
            asked: 0,
            failures: 0,
            flushes: Vec::new(alloc),
        }
    }
}

impl Write for Tray {
    fn write(&mut self, buf: &[u8]) -> io::Result<usize> {
        self.asked = self.asked.saturating_add(1);
        let count = buf.len().min(self.step).min(self.room);
        if count == 0 && !buf.is_empty() {
            self.failures = self.failures.saturating_add(1);
            return match self.full {
                Full::Error => Err(io::Error::from(ErrorKind::Other)),
                Full::NoByte => Ok(0),
            };
        }
        self.taken.extend_from_slice(&buf[..count])?;
        self.room -= count;
        Ok(count)
    }

    fn flush(&mut self) -> io::Result<()> {
        self.asked = self.asked.saturating_add(1);
        if !self.can_flush {
            self.failures = self.failures.saturating_add(1);
            return Err(io::Error::from(ErrorKind::Other));
        }
        self.flushes.push(self.taken.len())?;
        Ok(())
    }
}
