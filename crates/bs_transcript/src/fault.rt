//! Why a transcript is not written whole.
ghost use Rattle.std.specs.Prelude.{◌≡◌};
ghost use Rattle.bs_transcript.specs.declared.fault.TranscriptFault.TheVariants.{Memory, Write};

use crate::write::WriteFault;
use std::alloc::AllocError;

/// Why a transcript was not written whole.
#[derive(Debug, Drop)]
pub enum TranscriptFault {
    /// Memory ran out before anything was written.
    Memory,
    Write(WriteFault),
}

impl From<AllocError> for TranscriptFault {
    ghost from_gives = { λ _ fault. fault ≡ Memory };

    fn from(_error: AllocError) -> TranscriptFault {
        TranscriptFault::Memory
    }
}

impl From<WriteFault> for TranscriptFault {
    ghost from_gives = { λ error fault. fault ≡ Write error };

    fn from(error: WriteFault) -> TranscriptFault {
        TranscriptFault::Write(error)
    }
}
