//! Readers and writers of the tests.
use std::cell::Cell;
use std::io;
use std::io::{ErrorKind, Read, Write};

/// Gives its bytes at most `most` at a time. Fails after a number of bytes, or never.
#[derive(Drop)]
pub(crate) struct Input<'a> {
    pub(crate) left: &'a [u8],
    pub(crate) most: usize,
    pub(crate) fails_behind: Option<usize>,
}

impl<'a> Input<'a> {
    pub(crate) fn new(left: &'a [u8], most: usize) -> Self {
        Input {
            left,
            most,
            fails_behind: None,
        }
    }
}

impl<'a> Read for Input<'a> {
    fn read(&mut self, buf: &mut [u8]) -> io::Result<usize> {
        let most = match self.fails_behind {
            Some(0) => return Err(io::Error::from(ErrorKind::BrokenPipe)),
            Some(behind) => self.most.min(behind),
            None => self.most,
        };
        let count = self.left.len().min(buf.len()).min(most);
        let (given, left) = self.left.split_at(count);
        buf[..count].copy_from_slice(given);
        self.left = left;
        self.fails_behind = self.fails_behind.map(|behind| behind.saturating_sub(count));
        Ok(count)
    }
}

/// Gives a text in two reads, split at that place, then the end.
#[derive(Drop)]
pub(crate) struct Halves<'a> {
    pub(crate) first: &'a [u8],
    pub(crate) second: &'a [u8],
}

impl<'a> Read for Halves<'a> {
    fn read(&mut self, buf: &mut [u8]) -> io::Result<usize> {
        let part = if self.first.is_empty() {
            self.second
        } else {
            self.first
        };
        let count = part.len().min(buf.len());
        let (given, left) = part.split_at(count);
        buf[..count].copy_from_slice(given);
        if self.first.is_empty() {
            self.second = left;
        } else {
            self.first = left;
        }
        Ok(count)
    }
}

/// Takes `room` bytes, at most seven at a time, and then fails: by an error or by taking nothing.
/// The first `flushes` flushes succeed, the later ones fail.
#[derive(Drop)]
pub(crate) struct Output {
    pub(crate) taken: Vec<u8>,
    pub(crate) room: usize,
    pub(crate) failure: Option<ErrorKind>,
    pub(crate) flushes: usize,
}

impl Write for Output {
    fn write(&mut self, buf: &[u8]) -> io::Result<usize> {
        let count = buf.len().min(self.room).min(7);
        if count == 0 && !buf.is_empty() {
            return match self.failure {
                Some(kind) => Err(io::Error::from(kind)),
                None => Ok(0),
            };
        }
        self.taken.extend_from_slice(&buf[..count])?;
        self.room = self.room.saturating_sub(count);
        Ok(count)
    }

    fn flush(&mut self) -> io::Result<()> {
        if self.flushes == 0 {
            return Err(io::Error::from(ErrorKind::BrokenPipe));
        }
        self.flushes = self.flushes.saturating_sub(1);
        Ok(())
    }
}

/// What a client at the other end of both pipes has received.
#[derive(Drop)]
pub(crate) struct Seen {
    /// The bytes that were written.
    pub(crate) written: Cell<usize>,
    /// The bytes that were written before the last flush.
    pub(crate) flushed: Cell<usize>,
    /// Whether an answer was missing when the next line was to be sent.
    pub(crate) late: Cell<bool>,
}

/// Sends a line in each read, and first checks whether all answers to earlier lines were flushed.
#[derive(Drop)]
pub(crate) struct Client<'a> {
    pub(crate) lines: &'a [(&'a str, &'a str)],
    pub(crate) next: usize,
    pub(crate) due: usize,
    pub(crate) seen: &'a Seen,
}

impl<'a> Read for Client<'a> {
    fn read(&mut self, buf: &mut [u8]) -> io::Result<usize> {
        if self.seen.flushed.get() != self.due {
            self.seen.late.set(true);
        }
        if self.next >= self.lines.len() {
            return Ok(0);
        }
        let (line, answer) = self.lines[self.next];
        let count = line.len().min(buf.len());
        buf[..count].copy_from_slice(&line.as_bytes()[..count]);
        self.next = self.next.saturating_add(1);
        self.due = self.due.saturating_add(answer.len());
        Ok(count)
    }
}

/// Counts the bytes that it takes.
#[derive(Drop)]
pub(crate) struct Counting<'a> {
    pub(crate) seen: &'a Seen,
}

impl<'a> Write for Counting<'a> {
    fn write(&mut self, buf: &[u8]) -> io::Result<usize> {
        let written = self.seen.written.get();
        self.seen.written.set(written.saturating_add(buf.len()));
        Ok(buf.len())
    }

    fn flush(&mut self) -> io::Result<()> {
        self.seen.flushed.set(self.seen.written.get());
        Ok(())
    }
}
