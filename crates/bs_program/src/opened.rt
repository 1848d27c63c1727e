//! An opened file of the system, read by its name.
ghost use Rattle.std.specs.Prelude.{◌≡◌, length, IfOk, IfSome, IsErrOf, OnErr, ◌≤◌, ◌<◌};
ghost use Rattle.std.specs.Io.{ReadsAtMost};
ghost use Rattle.std.specs.Io.KnownBytes.{ReadConsumes};
ghost use Rattle.bs_host.specs.declared.limits.TheConstants.{MOST_FILE_BYTES};
ghost use Rattle.bs_host.specs.declared.read.ReadFault.TheVariants.{Device, TooLong};

use crate::recorded::Recorded;
use crate::source::Sources;
use bs_host::{ReadCalls, ReadFault, read_input_by};
use std::alloc::Global;
use std::io::{self, Read};
use std::marker::{Brand, PhantomData};

/// What a failed call of a file shows. Each call of `read_opened` chooses it.
trait Cause {
    ghost shown: { Type 0 };
}

impl Cause for Brand {
    ghost shown = { Unit {0} };
}

/// An opened file, its name, and the system that opened it.
#[derive(Drop)]
struct OpenFile<'s, S: Sources> {
    sources: &'s S,
    name: &'s str,
    source: S::Source,
}

/// Reads an opened file. A read that fails shows `F`.
#[derive(Drop)]
struct FileReader<'s, S: Sources, F: Cause> {
    file: OpenFile<'s, S>,
    of: PhantomData<F>,
    ghost tells: { S.unread file.sources.now file.name.now → ∥ F.shown ∥₁ },
}

impl<S: Sources, F: Cause> Read for FileReader<'_, S, F> {
    ghost remaining = { λ reader. S.Source.remaining reader.file.source };

    fn read(&mut self, buf: &mut [u8]) -> io::Result<usize>
        ensures bound { ReadsAtMost result buf.new }
        ensures bytes { ReadConsumes (S.Source.remaining self.old.file.source) (S.Source.remaining self.new.file.source) result buf.new }
        ensures failed { OnErr result ∥ F.shown ∥₁ }
    {
        let file = &mut self.file;
        file.sources.read(file.name, &mut file.source, buf)
    }
}

impl<'s, S: Sources, F: Cause> ReadCalls<FileReader<'s, S, F>> for Recorded {
    ghost has_failed = { λ _. ∥ F.shown ∥₁ };

    fn read(input: &mut FileReader<'s, S, F>, buf: &mut [u8]) -> io::Result<usize> {
        input.read(buf)
    }
}

/// Reads all bytes of an opened file.
fn read_opened<S: Sources, F: Cause>(
    alloc: Global,
    file: OpenFile<'_, S>,
) -> Result<Vec<u8>, ReadFault>
    requires { S.unread file.sources.now file.name.now → ∥ F.shown ∥₁ }
    ensures all { IfOk result (λ bytes. IfSome (S.Source.remaining file.entry.source) (λ left. bytes.items ≡ left)) }
    ensures short { IfOk result (λ bytes. length bytes.items ≤ MOST_FILE_BYTES) }
    ensures long { IsErrOf result TooLong → IfSome (S.Source.remaining file.entry.source) (λ left. MOST_FILE_BYTES < length left) }
    ensures device { IsErrOf result Device → ∥ F.shown ∥₁ }
{
    let mut reader: FileReader<'_, S, F> = FileReader {
        file,
        of: PhantomData,
    };
    read_input_by::<FileReader<'_, S, F>, Recorded>(alloc, &mut reader)
}

/// Opens the file of that name, and reads all its bytes.
pub(crate) fn read_named<S: Sources>(
    sources: &S,
    alloc: Global,
    name: &str,
) -> Result<Vec<u8>, ReadFault>
    ensures all { IfOk result (λ bytes. IfSome (S.named sources.now name.now) (λ file. bytes.items ≡ file)) }
    ensures short { IfOk result (λ bytes. length bytes.items ≤ MOST_FILE_BYTES) }
    ensures long { IsErrOf result TooLong → IfSome (S.named sources.now name.now) (λ file. MOST_FILE_BYTES < length file) }
    ensures device { IsErrOf result Device → ∥ S.unread sources.now name.now ∥₁ }
{
    match sources.open(name) {
        Ok(source) => {
            let file = OpenFile {
                sources,
                name,
                source,
            };
            read_opened::<S, Brand>(alloc, file)
        }
        Err(error) => Err(if error.kind() == io::ErrorKind::OutOfMemory {
            ReadFault::Memory
        } else {
            ReadFault::Device
        }),
    }
}
