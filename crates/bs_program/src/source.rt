//! Files by their names.
ghost use Rattle.std.specs.Prelude.{◌≡◌, ℕ, List, Option, None, Some, IfOk, IfSome, OnErr};
ghost use Rattle.std.specs.Io.{ReadsAtMost};
ghost use Rattle.std.specs.Io.KnownBytes.{ReadConsumes};

use std::fs::{self, File};
use std::io::{self, Read};

/// Where files are opened by their names, and read.
pub trait Sources {
    type Source: Read + Drop;

    /// The bytes of the file of a name, where they are known.
    ghost named: { Self → List ℕ → Option (List ℕ) } = { λ _ _. None };

    /// Holds of a name if a call that opens or reads the file of that name failed. By default
    /// nothing is claimed of it.
    ghost unread: { Self → List ℕ → Type 0 } = { λ _ _. Unit {0} };

    /// Opens the file of that name.
    fn open(&self, name: &str) -> io::Result<Self::Source>
        ensures bytes { IfOk result (λ source. IfSome (named self.now name.now) (λ bytes. Self.Source.remaining source ≡ Some bytes)) }
        ensures failed { OnErr result (unread self.now name.now) };

    /// Reads some bytes of the opened file of that name into `buf`, and returns their number.
    fn read(&self, name: &str, source: &mut Self::Source, buf: &mut [u8]) -> io::Result<usize>
        ensures bound { ReadsAtMost result buf.new }
        ensures bytes { ReadConsumes (Self.Source.remaining source.old) (Self.Source.remaining source.new) result buf.new }
        ensures failed { OnErr result (unread self.now name.now) };
}

impl Sources for HostRuntime {
    type Source = File;

    fn open(&self, name: &str) -> io::Result<File> {
        fs::open(self, name)
    }

    fn read(&self, _name: &str, source: &mut File, buf: &mut [u8]) -> io::Result<usize> {
        source.read(buf)
    }
}
