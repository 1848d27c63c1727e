//! A core at the end of its run, and what is left of the file.
ghost use Rattle.std.specs.Prelude.{◌≡◌, IfErr, IfOk, OnOk};
ghost use Rattle.std.specs.Io.KnownBytes.{Appends};
ghost use Rattle.bs_transcript.specs.Written.{HasCause, Leaves};
ghost use Rattle.bs_host.specs.inner.Transcript.{core_text_of};

use crate::limits::BLOCK_BYTES;
use crate::render::{PlayedFile, write_core};
use bs_json::Stray;
use bs_sched::Core;
use bs_transcript::{TranscriptFault, WriteCalls};
use bs_workers::Act;
use std::alloc::Global;
use std::io::Write;
use std::thread::{Threads, join, yield_now};

/// A finished core, the acts of its run, and the stray lines of its file.
#[derive(Drop)]
pub(crate) struct Played {
    pub(crate) core: Core<BLOCK_BYTES>,
    pub(crate) acts: Vec<Act>,
    pub(crate) strays: Vec<(u64, Stray)>,
}

/// The number of acts that are freed before other threads may run on the processor.
const FREED_AT_ONCE: usize = 256;

/// Frees the acts. It yields often, since a thread for which others wait may be on its processor.
fn free(acts: Vec<Act>) {
    let mut freed = 0usize;
    for act in acts {
        drop(act);
        freed = freed.wrapping_add(1);
        if freed % FREED_AT_ONCE == 0 {
            yield_now();
        }
    }
}

impl Played {
    /// Writes the transcript, and returns the core. If there may be several threads, one of them
    /// frees the acts meanwhile.
    pub(crate) fn write<R: Threads + Sync, W: Write, C: WriteCalls<W>>(
        self,
        rt: &R,
        alloc: Global,
        threads: usize,
        output: &mut W,
    ) -> Result<Core<BLOCK_BYTES>, TranscriptFault>
        ensures core { IfOk result (λ core. core ≡ self.core) }
        ensures written { OnOk result (Appends (W.contents output.old) (W.contents output.new) (core_text_of self.core self.strays.items)) }
        ensures left { IfErr result (Leaves W.contents (core_text_of self.core self.strays.items) output.old output.new) }
        ensures failed { IfErr result (HasCause (C.has_failed output.new)) }
    {
        let Played { core, acts, strays } = self;
        let file = PlayedFile {
            core: &core,
            strays: strays.as_slice(),
        };
        if threads <= 1 {
            write_core::<R, W, C>(rt, alloc, file, threads, output)?;
            return Ok(core);
        }
        let (_, (written, _output)) = join(
            rt,
            move || free(acts),
            move || -> (Result<(), TranscriptFault>, &mut W)
                ensures written { OnOk result.0 (Appends (W.contents output.entry.now) (W.contents result.1.now) (core_text_of file.entry.core.now file.entry.strays.now)) }
                ensures left { IfErr result.0 (Leaves W.contents (core_text_of file.entry.core.now file.entry.strays.now) output.entry.now result.1.now) }
                ensures failed { IfErr result.0 (HasCause (C.has_failed result.1.now)) }
                ensures same { result.1.ghost_name ≡ output.entry.ghost_name }
            {
                let written = write_core::<R, W, C>(rt, alloc, file, threads, output);
                (written, output)
            },
        );
        written?;
        Ok(core)
    }
}
