//! How a writer is called.
ghost use Rattle.std.specs.Prelude.{◌≡◌, true, length, OnErr};
ghost use Rattle.std.specs.Io.{WritesAtMost};
ghost use Rattle.std.specs.Io.KnownBytes.{Keeps, WriteAppends};
ghost use Rattle.bs_transcript.specs.Failing.{is_failure};

use std::io::{self, Write};

/// How a writer is called, and what a contract says of it after a call that failed: a contract of
/// `Write` says nothing of failures. It is chosen by its type, and so a writer needs no wrapper.
pub trait WriteCalls<W: Write> {
    /// Holds of a writer after a call that failed: an error, or no byte taken of some.
    ghost has_failed: { W → Type 0 };

    /// Writes some bytes, and returns their number.
    fn write(output: &mut W, buf: &[u8]) -> io::Result<usize>
        ensures bound { WritesAtMost result buf.now }
        ensures bytes { WriteAppends (W.contents output.old) (W.contents output.new) result buf.now }
        ensures failed { is_failure result (length buf.now) ≡ true → has_failed output.new };

    /// Flushes the writer.
    fn flush(output: &mut W) -> io::Result<()>
        ensures bytes { Keeps (W.contents output.old) (W.contents output.new) }
        ensures failed { OnErr result (has_failed output.new) };
}

/// Calls of any writer. Nothing is recorded of them, and so nothing is claimed of a failure.
pub struct Unrecorded;

impl<W: Write> WriteCalls<W> for Unrecorded {
    ghost has_failed = { λ _. Unit {0} };

    fn write(output: &mut W, buf: &[u8]) -> io::Result<usize> {
        output.write(buf)
    }

    fn flush(output: &mut W) -> io::Result<()> {
        output.flush()
    }
}
