//! Writes a text to any writer, and counts the bytes that the writer took.
ghost use Rattle.std.specs.Prelude.{◌<◌, length, take, OnErr, OnOk, IfErr};
ghost use Rattle.std.specs.Io.KnownBytes.{Appends};

use crate::calls::{Unrecorded, WriteCalls};
use std::io::Write;

/// The writer failed after it took this many bytes.
#[derive(Debug, Drop)]
pub struct WriteFault {
    pub written: usize,
}

/// Writes the whole text by the calls `C`. Every error of the writer is a fault, an interruption
/// included, and so is a write of no byte.
#[tactic(auto, using(crate::proofs::WrittenBytes::appends_more, crate::proofs::WrittenBytes::appends_nothing))]
pub fn write_all_by<W: Write, C: WriteCalls<W>>(
    text: &[u8],
    output: &mut W,
) -> Result<(), WriteFault>
    ensures ok { OnOk result (Appends (W.contents output.old) (W.contents output.new) text.now) }
    ensures fewer { IfErr result (λ fault. fault.written < length text.now) }
    ensures front { IfErr result
        (λ fault. Appends (W.contents output.old) (W.contents output.new) (take fault.written text.now)) }
    ensures failed { OnErr result (C.has_failed output.new) }
{
    let mut written = 0;
    'writes: while written < text.len() {
        match C::write(output, &text[written..]) {
            Ok(0) => return Err(WriteFault { written }),
            Ok(count) => written += count,
            Err(_) => return Err(WriteFault { written }),
        }
    }
    Ok(())
}

/// Writes the whole text. Every error of the writer is a fault, an interruption included, and so is
/// a write of no byte.
pub fn write_all_of<W: Write>(text: &[u8], output: &mut W) -> Result<(), WriteFault>
    ensures ok { OnOk result (Appends (W.contents output.old) (W.contents output.new) text.now) }
    ensures fewer { IfErr result (λ fault. fault.written < length text.now) }
    ensures front { IfErr result
        (λ fault. Appends (W.contents output.old) (W.contents output.new) (take fault.written text.now)) }
{
    write_all_by::<W, Unrecorded>(text, output)
}
