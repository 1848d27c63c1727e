//! A reader that records whether it failed.
ghost use Rattle.std.specs.Prelude.{◌≡◌, false, true, OnErr, OnOk};
ghost use Rattle.std.specs.Io.{ReadsAtMost};
ghost use Rattle.std.specs.Io.KnownBytes.{ReadConsumes};

use std::io::{self, Read};

/// The input of the program. Contracts can name a reader's bytes but not its faults, so this type
/// records them.
#[derive(Drop)]
pub struct Input<R> {
    reader: R,
    /// Whether a call of the reader returned an error.
    has_failed: bool,
}

impl<R: Read> Input<R> {
    pub fn new(reader: R) -> Input<R>
        ensures reader { result.reader ≡ reader }
        ensures failed { result.has_failed ≡ false }
    {
        Input {
            reader,
            has_failed: false,
        }
    }
}

impl<R: Read> Read for Input<R> {
    ghost remaining = { λ input. R.remaining input.reader };

    fn read(&mut self, buf: &mut [u8]) -> io::Result<usize>
        ensures bound { ReadsAtMost result buf.new }
        ensures bytes { ReadConsumes (R.remaining self.old.reader) (R.remaining self.new.reader) result buf.new }
        ensures failed { OnErr result (self.new.has_failed ≡ true) }
        ensures sound { OnOk result (self.new.has_failed ≡ self.old.has_failed) }
    {
        let read = self.reader.read(buf);
        self.has_failed = read.is_err() || self.has_failed;
        read
    }
}
