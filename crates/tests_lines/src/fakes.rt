//! Writers and readers that fail.
use std::alloc::Global;
use std::io;
use std::io::{ErrorKind, Read, Write};

/// Takes a number of bytes, some at a time, and then fails at each call: by an error, or by taking
/// nothing.
#[derive(Drop)]
pub struct NarrowWriter {
    pub taken: Vec<u8>,
    room: usize,
    most_at_once: usize,
    failure: Option<ErrorKind>,
}

impl NarrowWriter {
    pub fn new(
        alloc: Global,
        room: usize,
        most_at_once: usize,
        failure: Option<ErrorKind>,
    ) -> NarrowWriter {
        NarrowWriter {
            taken: Vec::new(alloc),
            room,
            most_at_once,
            failure,
        }
    }
}

impl Write for NarrowWriter {
    fn write(&mut self, buf: &[u8]) -> io::Result<usize> {
        let count = buf.len().min(self.room).min(self.most_at_once);
        if count == 0 {
            return match self.failure {
                Some(kind) => Err(io::Error::from(kind)),
                None => Ok(0),
            };
        }
        self.taken.extend_from_slice(&buf[..count])?;
        self.room -= count;
        Ok(count)
    }

    fn flush(&mut self) -> io::Result<()> {
        Ok(())
    }
}

/// Takes all that it is given, but fails once, after a number of bytes: by an error, or by taking
/// nothing.
#[derive(Drop)]
pub struct StumblingWriter {
    pub taken: Vec<u8>,
    place: usize,
    failure: Option<ErrorKind>,
    failed: bool,
}

impl StumblingWriter {
    pub fn new(alloc: Global, place: usize, failure: Option<ErrorKind>) -> StumblingWriter {
        StumblingWriter {
            taken: Vec::new(alloc),
            place,
            failure,
            failed: false,
        }
    }
}

impl Write for StumblingWriter {
    fn write(&mut self, buf: &[u8]) -> io::Result<usize> {
        let room = self.place.saturating_sub(self.taken.len());
        let count = if self.failed {
            buf.len()
        } else {
            buf.len().min(room)
        };
        if count == 0 && !self.failed {
            self.failed = true;
            return match self.failure {
                Some(kind) => Err(io::Error::from(kind)),
                None => Ok(0),
            };
        }
        self.taken.extend_from_slice(&buf[..count])?;
        Ok(count)
    }

    fn flush(&mut self) -> io::Result<()> {
        Ok(())
    }
}

/// Gives a file a few bytes at a time, and fails once, after a number of them.
#[derive(Drop)]
pub struct FalteringReader<'a> {
    left: &'a [u8],
    before: usize,
    kind: ErrorKind,
    failed: bool,
}

impl<'a> FalteringReader<'a> {
    pub fn new(file: &'a [u8], before: usize, kind: ErrorKind) -> FalteringReader<'a> {
        FalteringReader {
            left: file,
            before,
            kind,
            failed: false,
        }
    }
}

impl<'a> Read for FalteringReader<'a> {
    fn read(&mut self, buf: &mut [u8]) -> io::Result<usize> {
        if self.before == 0 && !self.failed {
            self.failed = true;
            return Err(io::Error::from(self.kind));
        }
        let most = if self.failed { 7 } else { self.before.min(7) };
        let count = self.left.len().min(buf.len()).min(most);
        let (given, left) = self.left.split_at(count);
        buf[..count].copy_from_slice(given);
        self.left = left;
        self.before = self.before.saturating_sub(count);
        Ok(count)
    }
}
