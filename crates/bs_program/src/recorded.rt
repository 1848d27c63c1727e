//! Calls whose failures the program's input and outputs record.
ghost use Rattle.std.specs.Prelude.{◌≡◌, true};

use crate::input::Input;
use crate::stream::Output;
use bs_host::ReadCalls;
use bs_transcript::WriteCalls;
use std::io::{self, Read, Write};

/// The calls of an `Input` and of an `Output`.
pub(crate) struct Recorded;

impl<R: Read> ReadCalls<Input<R>> for Recorded {
    ghost has_failed = { λ input. input.has_failed ≡ true };

    fn read(input: &mut Input<R>, buf: &mut [u8]) -> io::Result<usize> {
        input.read(buf)
    }
}

impl<W: Write> WriteCalls<Output<W>> for Recorded {
    ghost has_failed = { λ output. output.has_failed ≡ true };

    fn write(output: &mut Output<W>, buf: &[u8]) -> io::Result<usize> {
        output.write(buf)
    }

    fn flush(output: &mut Output<W>) -> io::Result<()> {
        output.flush()
    }
}
