//! Writers and systems of the tests.
use bs_program::Sources;
use std::io;
use std::io::{ErrorKind, Read, Write};
use std::thread::Threads;

/// Takes `room` bytes, at most seven at a time, and then none. The first `flushes` flushes succeed,
/// and are counted.
#[derive(Drop)]
pub(crate) struct Device {
    pub(crate) taken: Vec<u8>,
    pub(crate) room: usize,
    pub(crate) flushes: usize,
    /// The number of bytes that were taken before the last flush.
    pub(crate) flushed: Option<usize>,
}

impl Write for Device {
    fn write(&mut self, buf: &[u8]) -> io::Result<usize> {
        let count = buf.len().min(self.room).min(7);
        self.taken.extend_from_slice(&buf[..count])?;
        self.room = self.room.saturating_sub(count);
        Ok(count)
    }

    fn flush(&mut self) -> io::Result<()> {
        if self.flushes == 0 {
            return Err(io::Error::from(ErrorKind::BrokenPipe));
        }
        self.flushes = self.flushes.saturating_sub(1);
        self.flushed = Some(self.taken.len());
        Ok(())
    }
}

/// A reader whose every read fails.
#[derive(Drop)]
pub(crate) struct Unreadable;

impl Read for Unreadable {
    fn read(&mut self, _buf: &mut [u8]) -> io::Result<usize> {
        Err(io::Error::from(ErrorKind::BrokenPipe))
    }
}

/// The system, with one file of that name. Opening another one gives that error, and so do all reads
/// of the file if it is unreadable.
#[derive(Drop)]
pub(crate) struct Shelf<'a, R> {
    pub(crate) rt: &'a R,
    pub(crate) name: &'a str,
    pub(crate) bytes: &'a [u8],
    pub(crate) error: ErrorKind,
    pub(crate) is_unreadable: bool,
}

impl<'a, R: Threads> Threads for Shelf<'a, R> {}

impl<'a, R> Sources for Shelf<'a, R> {
    type Source = &'a [u8];

    fn open(&self, name: &str) -> io::Result<&'a [u8]> {
        if name == self.name {
            return Ok(self.bytes);
        }
        Err(io::Error::from(self.error))
    }

    fn read(&self, _name: &str, source: &mut &'a [u8], buf: &mut [u8]) -> io::Result<usize> {
        if self.is_unreadable {
            return Err(io::Error::from(self.error));
        }
        source.read(buf)
    }
}
