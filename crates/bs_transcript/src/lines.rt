//! Writes a transcript in bounded memory, and makes its text in one piece.
ghost use Rattle.std.specs.Prelude.{◌≡◌, OnOk, IfOk, IfErr};
ghost use Rattle.std.specs.Io.KnownBytes.{Appends};
ghost use Rattle.bs_transcript.specs.Lines.{text_of};
ghost use Rattle.bs_transcript.specs.Written.{HasCause, Leaves};

use crate::bounds::{bound_all, bound_together};
use crate::calls::{Unrecorded, WriteCalls};
use crate::fault::TranscriptFault;
use crate::line_buffer::LineBuffer;
use crate::section::{Section, Transcript};
use crate::together::{Source, write_together};
use bs_json::Stray;
use std::alloc::{AllocError, Global};
use std::io::Write;
use std::marker::Brand;
use std::thread::Threads;

/// The least sum of the bounds of the lines for each rendering thread, in bytes. Rendering such
/// lines takes a few times as long as starting a thread.
const FEWEST_BYTES: usize = 4_000_000;

/// The largest number of rendering threads besides the calling one. More are of no use, as one
/// thread writes.
const MOST_RENDERERS: usize = 4;

/// Writes a transcript by the calling thread alone, through one buffer of 64 KiB and the longest
/// line.
fn write_alone<W: Write, C: WriteCalls<W>>(
    alloc: Global,
    sections: &[Section<'_>],
    strays: &[(u64, Stray)],
    output: &mut W,
) -> Result<(), TranscriptFault>
    ensures written { OnOk result (Appends (W.contents output.old) (W.contents output.new) (text_of sections.now strays.now)) }
    ensures left { IfErr result (Leaves W.contents (text_of sections.now strays.now) output.old output.new) }
    ensures failed { IfErr result (HasCause (C.has_failed output.new)) }
{
    let bounds = bound_all(sections, strays)?;
    let mut buffer = LineBuffer::open(alloc, bounds.longest)?;
    buffer.push_all::<W, C>(sections, strays, output)?;
    buffer.write_out::<W, C>(output)?;
    Ok(())
}

/// Like `write_transcript`, by the calls `C`: a fault of the writer is a call that failed.
pub fn write_transcript_by<R: Threads + Sync, W: Write, C: WriteCalls<W>>(
    rt: &R,
    alloc: Global,
    transcript: Transcript<'_>,
    threads: usize,
    output: &mut W,
) -> Result<(), TranscriptFault>
    ensures written { OnOk result (Appends (W.contents output.old) (W.contents output.new) (text_of transcript.entry.sections.now transcript.entry.strays.now)) }
    ensures left { IfErr result (Leaves W.contents (text_of transcript.entry.sections.now transcript.entry.strays.now) output.old output.new) }
    ensures failed { IfErr result (HasCause (C.has_failed output.new)) }
{
    let Transcript { sections, strays } = transcript;
    if threads <= 1 {
        return write_alone::<W, C>(alloc, sections, strays, output);
    }
    let bounds = bound_together::<R>(rt, sections, strays, threads)?;
    let most = (bounds.total / FEWEST_BYTES).min(MOST_RENDERERS);
    if most == 0 {
        return write_alone::<W, C>(alloc, sections, strays, output);
    }
    let source = Source {
        sections,
        strays,
        bounds,
    };
    write_together::<Brand, R, W, C>(rt, alloc, source, (threads - 1).min(most), output)
}

/// Writes the games' sections in order, then the lines that belong to no game, each with its number
/// in the file. First bounds the length of each line, then allocates buffers with room for the
/// greatest of these bounds besides: one of 64 KiB for the calling thread, and if others render
/// beside it two of 512 KiB for each thread. There are at most `threads` threads with the calling
/// one, and all are joined. Allocates nothing once the first byte is written. If memory runs out
/// the writer is unchanged; if the writer fails it has the first bytes of the text, as many as the
/// fault says.
pub fn write_transcript<R: Threads + Sync, W: Write>(
    rt: &R,
    alloc: Global,
    transcript: Transcript<'_>,
    threads: usize,
    output: &mut W,
) -> Result<(), TranscriptFault>
    ensures written { OnOk result (Appends (W.contents output.old) (W.contents output.new) (text_of transcript.entry.sections.now transcript.entry.strays.now)) }
    ensures left { IfErr result (Leaves W.contents (text_of transcript.entry.sections.now transcript.entry.strays.now) output.old output.new) }
{
    write_transcript_by::<R, W, Unrecorded>(rt, alloc, transcript, threads, output)
}

/// Renders the games' sections in order, then the lines that belong to no game, each with its
/// number in the file.
pub fn text(
    alloc: Global,
    sections: &[Section<'_>],
    strays: &[(u64, Stray)],
) -> Result<Vec<u8>, AllocError>
    ensures { IfOk result (λ text. text.items ≡ text_of sections.now strays.now) }
{
    let mut text = Vec::new(alloc);
    match write_alone::<Vec<u8>, Unrecorded>(alloc, sections, strays, &mut text) {
        Ok(()) => Ok(text),
        Err(_) => Err(AllocError),
    }
}
