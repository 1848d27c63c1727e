//! How a reader is called.
ghost use Rattle.std.specs.Prelude.{OnErr};
ghost use Rattle.std.specs.Io.{ReadsAtMost};
ghost use Rattle.std.specs.Io.KnownBytes.{ReadConsumes};

use bs_transcript::Unrecorded;
use std::io::{self, Read};

/// How a reader is called, and what a contract says of it after a call that failed: a contract of
/// `Read` says nothing of failures. It is chosen by its type, and so a reader needs no wrapper.
pub trait ReadCalls<R: Read> {
    /// Holds of a reader after a call that returned an error.
    ghost has_failed: { R → Type 0 };

    /// Reads some bytes into `buf`, and returns their number.
    fn read(input: &mut R, buf: &mut [u8]) -> io::Result<usize>
        ensures bound { ReadsAtMost result buf.new }
        ensures bytes { ReadConsumes (R.remaining input.old) (R.remaining input.new) result buf.new }
        ensures failed { OnErr result (has_failed input.new) };
}

impl<R: Read> ReadCalls<R> for Unrecorded {
    ghost has_failed = { λ _. Unit {0} };

    fn read(input: &mut R, buf: &mut [u8]) -> io::Result<usize> {
        input.read(buf)
    }
}
