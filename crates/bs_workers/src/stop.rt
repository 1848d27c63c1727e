//! Why the threads of a run stopped.
ghost use Rattle.std.specs.Prelude.{◌≡◌};
ghost use Rattle.bs_workers.specs.inner.Stops.{kept_stop};
ghost use Rattle.bs_workers.specs.declared.stop.Stop.TheVariants as stop;

use std::alloc::AllocError;

/// Why a thread of a run stopped.
#[derive(Clone, Copy, Debug, PartialEq, Eq)]
pub(crate) enum Stop {
    /// Memory ran out.
    Memory,
    /// The `Gate` returned false.
    Refused,
    /// A check of the run's own failed, for no known reason. The acts are run once more, in order.
    Failed,
}

impl Stop {
    /// The reason that a run keeps when this one follows `earlier`.
    pub(crate) fn after(self, earlier: Option<Stop>) -> Stop
        ensures { result ≡ kept_stop earlier self }
    {
        match earlier {
            None => self,
            Some(Stop::Memory) => Stop::Memory,
            Some(Stop::Refused) => match self {
                Stop::Memory => Stop::Memory,
                Stop::Refused => Stop::Refused,
                Stop::Failed => Stop::Refused,
            },
            Some(Stop::Failed) => self,
        }
    }
}

impl From<AllocError> for Stop {
    ghost from_gives = { λ _ error. error ≡ stop.Memory };

    fn from(_error: AllocError) -> Stop {
        Stop::Memory
    }
}
