//! Why a file was not cut to one stay.
ghost use Rattle.std.specs.Prelude.{◌≡◌};

use crate::fault::PlanRefusal;
use bs_json::PlanFault;
use std::alloc::AllocError;
use thiserror::Error;

/// Why a file was not cut to one stay.
#[derive(Debug, Drop, Error)]
pub enum Cut {
    /// The file has more than 16,777,216 bytes.
    #[error("file too long")]
    TooLong,
    #[error("plan {0}")]
    Plan(PlanRefusal),
    /// The plan has no game of that name.
    #[error("no such game")]
    NoSuchGame,
    #[error("out of memory")]
    Memory,
}

impl From<AllocError> for Cut {
    ghost use Rattle.bs_host.specs.declared.cut_fault.Cut.TheVariants.{Memory};

    ghost from_gives = { λ _ fault. fault ≡ Memory };

    fn from(_error: AllocError) -> Cut {
        Cut::Memory
    }
}

impl From<PlanFault> for Cut {
    ghost use Rattle.bs_host.specs.Cut.{cut_of_fault};

    ghost from_gives = { λ error fault. fault ≡ cut_of_fault error };

    fn from(error: PlanFault) -> Cut {
        match error {
            PlanFault::Malformed => Cut::Plan(PlanRefusal::Malformed),
            PlanFault::BadRow => Cut::Plan(PlanRefusal::BadRow),
            PlanFault::TooMany => Cut::Plan(PlanRefusal::TooMany),
            PlanFault::Memory => Cut::Memory,
        }
    }
}
