//! A writer that records its last flush, whether it took bytes, and whether it failed.
ghost use Rattle.std.specs.Prelude.{◌≡◌, ◌||◌, false, true, OnOk, OnErr, length};
ghost use Rattle.std.specs.Io.{WritesAtMost};
ghost use Rattle.std.specs.Io.KnownBytes.{Keeps, WriteAppends};
ghost use Rattle.bs_transcript.specs.Failing.{is_failure};
ghost use Rattle.bs_program.specs.Streams.{is_gain};

use std::io::{self, Write};

/// An output of the program. Contracts can name a writer's bytes but not its flushes or its faults,
/// so this type records them.
#[derive(Drop)]
pub struct Output<W> {
    writer: W,
    /// Whether the last call was a flush that succeeded.
    is_flushed: bool,
    /// Whether the writer took a byte.
    has_bytes: bool,
    /// Whether a call of the writer failed: an error, or no byte taken of some.
    has_failed: bool,
}

/// Whether a write of that many bytes failed.
fn is_failure_of(written: &io::Result<usize>, size: usize) -> bool
    ensures { result ≡ is_failure written.now size }
{
    match written {
        Ok(count) => *count == 0 && size > 0,
        Err(_) => true,
    }
}

/// Whether a write took a byte.
fn is_gain_of(written: &io::Result<usize>) -> bool
    ensures { result ≡ is_gain written.now }
{
    match written {
        Ok(count) => *count > 0,
        Err(_) => false,
    }
}

impl<W: Write> Output<W> {
    pub fn new(writer: W) -> Output<W>
        ensures writer { result.writer ≡ writer }
        ensures flushed { result.is_flushed ≡ false }
        ensures bytes { result.has_bytes ≡ false }
        ensures failed { result.has_failed ≡ false }
    {
        Output {
            writer,
            is_flushed: false,
            has_bytes: false,
            has_failed: false,
        }
    }

    /// Whether a call of the writer failed.
    pub fn has_failed(&self) -> bool
        ensures { result ≡ self.now.has_failed }
    {
        self.has_failed
    }

    /// Whether the writer took a byte.
    pub fn has_bytes(&self) -> bool
        ensures { result ≡ self.now.has_bytes }
    {
        self.has_bytes
    }
}

impl<W: Write> Write for Output<W> {
    ghost contents = { λ output. W.contents output.writer };

    fn write(&mut self, buf: &[u8]) -> io::Result<usize>
        ensures bound { WritesAtMost result buf.now }
        ensures bytes { WriteAppends (W.contents self.old.writer) (W.contents self.new.writer) result buf.now }
        ensures flushed { self.new.is_flushed ≡ false }
        ensures gained { self.new.has_bytes ≡ is_gain result || self.old.has_bytes }
        ensures failed { self.new.has_failed ≡ is_failure result (length buf.now) || self.old.has_failed }
    {
        self.is_flushed = false;
        let written = self.writer.write(buf);
        self.has_bytes = is_gain_of(&written) || self.has_bytes;
        self.has_failed = is_failure_of(&written, buf.len()) || self.has_failed;
        written
    }

    fn flush(&mut self) -> io::Result<()>
        ensures bytes { Keeps (W.contents self.old.writer) (W.contents self.new.writer) }
        ensures flushed { OnOk result (self.new.is_flushed ≡ true) }
        ensures unflushed { OnErr result (self.new.is_flushed ≡ false) }
        ensures gained { self.new.has_bytes ≡ self.old.has_bytes }
        ensures failed { OnErr result (self.new.has_failed ≡ true) }
        ensures sound { OnOk result (self.new.has_failed ≡ self.old.has_failed) }
    {
        let flushed = self.writer.flush();
        self.is_flushed = flushed.is_ok();
        self.has_failed = flushed.is_err() || self.has_failed;
        flushed
    }
}
