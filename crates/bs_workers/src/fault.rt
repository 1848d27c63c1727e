//! Why a run was stopped.
ghost use Rattle.std.specs.Prelude.{◌≡◌};
ghost use Rattle.bs_workers.specs.declared.fault.Run.TheVariants as cause;

use std::alloc::AllocError;
use thiserror::Error;

/// Why a run was stopped. The core is dropped.
#[derive(Clone, Copy, Debug, PartialEq, Eq, Error)]
pub enum Run {
    #[error("out of memory")]
    Memory,
    /// The `Gate` returned false, or an act is not acceptable: it names a stay that is not open, or
    /// the core refuses the game that it admits.
    #[error("broken")]
    Broken,
}

impl From<AllocError> for Run {
    ghost from_gives = { λ _ error. error ≡ cause.Memory };

    fn from(_error: AllocError) -> Run {
        Run::Memory
    }
}
