//! Reads the bytes of a command file from any reader.
ghost use Rattle.std.specs.Prelude.{◌≡◌, ◌<◌, ◌≤◌, length, IfOk, IfErr, OnOk, IfSome, IsErrOf};
ghost use Rattle.std.specs.Io.KnownBytes.{Consumes, IsAtEnd};

use crate::calls::ReadCalls;
use crate::limits::MOST_FILE_BYTES;
use bs_transcript::Unrecorded;
use std::alloc::{AllocError, Global};
use std::io::Read;
use thiserror::Error;

const BLOCK: usize = 65_536;

/// The capacity that is reserved at the start: the largest number of bytes that is ever read.
/// Reserved memory costs nothing until it is written, and the bytes read are never moved.
const ROOM: usize = MOST_FILE_BYTES + BLOCK;

/// Why a command file was not read.
#[derive(Debug, Drop, Error)]
pub enum ReadFault {
    /// The reader returned an error; an interruption is an error too.
    #[error("cannot read the file")]
    Device,
    #[error("file too long")]
    TooLong,
    #[error("out of memory")]
    Memory,
}

/// Like `read_input`, by the calls `C`: `Device` is a call that failed.
pub fn read_input_by<R: Read, C: ReadCalls<R>>(
    alloc: Global,
    input: &mut R,
) -> Result<Vec<u8>, ReadFault>
    ensures all { IfOk result (λ bytes. IfSome (R.remaining input.old) (λ left. bytes.items ≡ left)) }
    ensures end { OnOk result (IsAtEnd (R.remaining input.new)) }
    ensures short { IfOk result (λ bytes. length bytes.items ≤ MOST_FILE_BYTES) }
    ensures long { IsErrOf result ReadFault.TooLong → IfSome (R.remaining input.old) (λ left. MOST_FILE_BYTES < length left) }
    ensures device { IsErrOf result ReadFault.Device → C.has_failed input.new }
{
    let Ok(mut bytes) = Vec::with_capacity(alloc, ROOM) else {
        return Err(ReadFault::Memory);
    };
    let mut block = [0u8; BLOCK];
    'reads: while bytes.len() <= MOST_FILE_BYTES {
        let Ok(count) = C::read(input, &mut block) else {
            return Err(ReadFault::Device);
        };
        if count == 0 {
            return Ok(bytes);
        }
        if bytes.extend_from_slice(&block[..count]).is_err() {
            return Err(ReadFault::Memory);
        }
    }
    Err(ReadFault::TooLong)
}

/// Reads all bytes that the reader has left. `TooLong` if they are more than 16,777,216. After an
/// error the number of bytes taken from the reader is unspecified.
pub fn read_input<R: Read>(alloc: Global, input: &mut R) -> Result<Vec<u8>, ReadFault>
    ensures all { IfOk result (λ bytes. IfSome (R.remaining input.old) (λ left. bytes.items ≡ left)) }
    ensures end { OnOk result (IsAtEnd (R.remaining input.new)) }
    ensures short { IfOk result (λ bytes. length bytes.items ≤ MOST_FILE_BYTES) }
    ensures long { IsErrOf result ReadFault.TooLong → IfSome (R.remaining input.old) (λ left. MOST_FILE_BYTES < length left) }
{
    read_input_by::<R, Unrecorded>(alloc, input)
}
